//! The data frames that both subscribers have to receive.

use crate::demo_verdict::DemoVerdict;
use crate::expected_frames::{ExpectedFrame, ExpectedFrames};
use crate::watcher::Stamp;
use std::alloc::{AllocError, Global};

/// Where the blocks of a data frame begin: behind SYNC, FRAMESIZE, IDCODE, SOC and FRACSEC.
const HEAD: usize = 14;

/// The bytes behind the blocks: CHK.
const CHECK: usize = 2;

/// The data frames that both subscribers have to receive: the first one each slot's blocks of both sources, the second one those of
/// the second source alone.
#[derive(Drop)]
pub struct ExpectedStreams {
    alloc: Global,
    /// Those of the first subscriber.
    pub first: ExpectedFrames,
    /// Those of the second subscriber.
    pub second: ExpectedFrames,
    /// Whether the sources have sent frames of unlike slots, which they never should.
    pub is_out_of_step: bool,
}

impl ExpectedStreams {
    /// No frame was sent.
    pub fn new(alloc: Global) -> ExpectedStreams {
        ExpectedStreams {
            alloc,
            first: ExpectedFrames::new(alloc),
            second: ExpectedFrames::new(alloc),
            is_out_of_step: false,
        }
    }

    /// Both sources send these data frames now, each one behind another, all of one length.
    ///
    /// # Errors
    ///
    /// `AllocError`; what has to come is not known any more.
    pub fn expect(
        &mut self,
        one: &[u8],
        one_len: u16,
        other: &[u8],
        other_len: u16,
    ) -> Result<(), AllocError> {
        let (one_len, other_len) = (usize::from(one_len).max(1), usize::from(other_len).max(1));
        if one.len() / one_len != other.len() / other_len {
            self.is_out_of_step = true;
        }
        for (left, right) in one.chunks_exact(one_len).zip(other.chunks_exact(other_len)) {
            self.expect_slot(left, right)?;
        }
        Ok(())
    }

    /// Both sources send these two data frames, of one slot.
    fn expect_slot(&mut self, one: &[u8], other: &[u8]) -> Result<(), AllocError> {
        let stamp = stamp_of(one);
        if stamp != stamp_of(other) {
            self.is_out_of_step = true;
        }
        let mut both = Vec::from_slice(self.alloc, blocks_of(one))?;
        both.extend_from_slice(blocks_of(other))?;
        self.first.expect(ExpectedFrame {
            stamp,
            blocks: both,
        })?;
        self.second.expect(ExpectedFrame {
            stamp,
            blocks: Vec::from_slice(self.alloc, blocks_of(other))?,
        })
    }

    /// How many frames wait for the one that waits for more.
    pub fn waiting(&self) -> usize {
        self.first.waiting.len().max(self.second.waiting.len())
    }

    /// What has become of the streams with these numbers, at the end.
    pub fn verdict(&self, first: u16, second: u16) -> DemoVerdict {
        if self.is_out_of_step {
            return DemoVerdict::OutOfStep;
        }
        for (stream, frames) in [(first, &self.first), (second, &self.second)] {
            if let Some(wrong) = frames.wrong {
                return DemoVerdict::Wrong(stream, wrong);
            }
            if let Some(frame) = frames.waiting.first() {
                return DemoVerdict::Lost(stream, frames.waiting.len(), frame.stamp);
            }
        }
        if self.first.right == 0 || self.second.right == 0 {
            return DemoVerdict::NotBegun;
        }
        DemoVerdict::Whole(self.first.right, self.second.right)
    }
}

/// The stamp of a data frame: SOC, and FRACSEC without its top byte.
fn stamp_of(frame: &[u8]) -> Stamp {
    Stamp {
        soc: number_at(frame, 6),
        frac: number_at(frame, 10) % 0x0100_0000,
    }
}

/// The number of four bytes.
fn number_at(frame: &[u8], at: usize) -> u32 {
    let byte = |place: usize| frame.get(at.saturating_add(place)).copied().unwrap_or(0);
    u32::from_be_bytes([byte(0), byte(1), byte(2), byte(3)])
}

/// The blocks of a data frame.
fn blocks_of(frame: &[u8]) -> &[u8] {
    frame
        .get(HEAD..frame.len().saturating_sub(CHECK))
        .unwrap_or(&[])
}
