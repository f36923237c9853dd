//! What the lines of `bridge` say, whichever format they have.

use crate::line_queue::Gap;
use crate::lines::FrameTime;
use crate::reading::Reading;

/// What each line has: where it is from.
#[derive(Clone, Copy)]
pub struct Origin<'a> {
    /// The name of the gateway, where it has one.
    pub gateway: Option<&'a str>,
    /// The IDCODE of the stream.
    pub stream: u16,
}

/// A data block, and what its frame says of it.
#[derive(Clone, Copy)]
pub struct BlockLine<'a> {
    /// The time of the frame.
    pub time: FrameTime,
    /// FRACSEC's top byte: time quality and leap second flags (C37.118.2, 6.2.2).
    pub quality: u8,
    /// The IDCODE of the PMU.
    pub idcode: u16,
    /// The block, by its configuration.
    pub reading: Reading<'a>,
}

impl BlockLine<'_> {
    /// The code of time quality: 0, locked, to 15, unreliable.
    pub fn time_quality(&self) -> u8 {
        self.quality % 16
    }

    /// The leap second flags: 1 a second is pending, 2 it occurred, 4 it is deleted and not added; summed.
    pub fn leap_second(&self) -> u8 {
        self.quality / 16 % 8
    }
}

/// The configuration of one PMU of a stream.
#[derive(Clone, Copy)]
pub struct ConfigLine<'a> {
    /// When the line was made.
    pub time: FrameTime,
    /// DATA_RATE (C37.118.2, 6.4).
    pub rate: i16,
    /// The IDCODEs of all PMUs, in the stream's order.
    pub pmus: &'a [u16],
    /// The IDCODE of the PMU.
    pub idcode: u16,
    /// Its configuration.
    pub reading: Reading<'a>,
}

/// A gap, and the times of the frames around it.
#[derive(Clone, Copy)]
pub struct GapLine {
    /// The time of the last frame before it, where there is one.
    pub from: Option<FrameTime>,
    /// The time of the next frame.
    pub to: FrameTime,
    /// Its slots.
    pub gap: Gap,
}

/// What was counted since the start.
#[derive(Clone, Copy)]
pub struct StateLine {
    /// When the line was made.
    pub time: FrameTime,
    /// Whether a connection stands.
    pub is_connected: bool,
    /// Data frames that were taken.
    pub frames: u64,
    /// Slots between them of which no frame was taken.
    pub missing: u64,
    /// Data blocks that are fillers.
    pub fillers: u64,
    /// Connections that ended.
    pub reconnects: u64,
    /// Frames that were not taken: a wrong CHK, another length than that of the configuration, a time that does not rise, and so on.
    pub ignored: u64,
    /// Slots whose lines were dropped, since standard output did not take them in time.
    pub dropped: u64,
    /// Lines that wait for standard output.
    pub waiting: usize,
    /// How many milliseconds behind its time the last frame came, below 0 where it came before.
    pub behind: Option<i64>,
}

impl StateLine {
    /// The counts, by their names.
    pub fn counts(&self) -> [(&'static str, u64); 7] {
        [
            ("frames", self.frames),
            ("missing", self.missing),
            ("fillers", self.fillers),
            ("reconnects", self.reconnects),
            ("ignored", self.ignored),
            ("dropped", self.dropped),
            ("waiting", self.waiting as u64),
        ]
    }
}
