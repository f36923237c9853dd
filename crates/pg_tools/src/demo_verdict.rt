//! What a demo comes to.

use crate::expected_frames::WrongFrame;
use crate::watcher::Stamp;
use std::fmt;

/// What a demo comes to.
#[derive(Clone, Copy, Debug, PartialEq, Eq)]
pub enum DemoVerdict {
    /// It was ended by hand.
    Ended,
    /// Each frame came, byte for byte as its sources sent it: so many of the first stream, and of the second.
    Whole(u64, u64),
    /// With a frame of this stream something was wrong first.
    Wrong(u16, WrongFrame),
    /// So many frames of this stream have not come in time, this one first.
    Lost(u16, usize, Stamp),
    /// What came of this stream was wrong apart from its frames' blocks: a check, an order, an end.
    Troubled(u16),
    /// The sources have sent frames of unlike slots.
    OutOfStep,
    /// The sources were not called in time, or the streams not started.
    NotBegun,
}

impl DemoVerdict {
    /// Whether nothing was wrong.
    pub fn is_good(self) -> bool {
        matches!(self, DemoVerdict::Ended | DemoVerdict::Whole(_, _))
    }
}

impl fmt::Display for DemoVerdict {
    fn fmt<W: fmt::Write>(&self, f: &mut fmt::Formatter<W>) -> fmt::Result {
        match self {
            DemoVerdict::Ended => f.write_str("ended"),
            DemoVerdict::Whole(first, second) => write!(
                f,
                "every frame came, byte for byte as the sources sent it: {first} of the first stream, {second} of the second"
            ),
            DemoVerdict::Wrong(stream, wrong) => write!(f, "stream {stream}: {wrong}"),
            DemoVerdict::Lost(stream, count, stamp) => write!(
                f,
                "stream {stream}: {count} frames have not come, the first of them {stamp}"
            ),
            DemoVerdict::Troubled(stream) => write!(
                f,
                "stream {stream}: a check, an order or an end is wrong"
            ),
            DemoVerdict::OutOfStep => f.write_str("the sources have sent frames of unlike slots"),
            DemoVerdict::NotBegun => f.write_str(
                "no frame could be compared: the sources were not called, or the streams not started",
            ),
        }
    }
}
