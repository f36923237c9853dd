//! The time quality of data frames: FRACSEC's top byte (C37.118.2, 6.2, tables 3 and 4).
ghost use Rattle.std.specs.Prelude.{◌≡◌, ◌%◌, ◌<◌, ◌&&◌, not};
ghost use Rattle.pg_quality.specs.Stats.{is_set, no_quality, with_quality};

use crate::stat::more_by;

/// The last time quality of the data frames, and how many of them were not locked. Each number stays at 2^64 - 1 once it is there.
#[derive(Clone, Copy)]
pub struct TimeQuality {
    /// The last time quality; 0 before the first.
    pub last: u8,
    /// Frames whose code, bits 3 to 0, is not 0: the clock is not locked to a UTC traceable source.
    pub not_locked: u64,
    /// Frames whose code is 15: a fault, the time is not reliable.
    pub unreliable: u64,
}

impl TimeQuality {
    /// No frame came.
    pub fn new() -> TimeQuality
        ensures { result ≡ no_quality }
    {
        TimeQuality {
            last: 0,
            not_locked: 0,
            unreliable: 0,
        }
    }

    /// A frame came with this time quality.
    #[inline(always)]
    pub fn note(&mut self, quality: u8)
        ensures { self.new ≡ with_quality self.old quality }
    {
        self.last = quality;
        if quality != 0 {
            self.count(quality % 16);
        }
    }

    /// Counts a code.
    #[inline(never)]
    fn count(&mut self, code: u8)
        requires { code < 16 }
        ensures { self.new ≡ record (with_quality self.old code) { last = self.old.last } }
    {
        self.not_locked = more_by(code != 0, self.not_locked, 1);
        self.unreliable = more_by(code == 15, self.unreliable, 1);
    }

    /// The last code, 0 for a locked clock to 15 for an unreliable one.
    pub fn code(&self) -> u8
        ensures { result ≡ self.now.last % 16 }
    {
        self.last % 16
    }

    /// Bit 4: a leap second comes within a minute.
    pub fn is_leap_pending(&self) -> bool
        ensures { result ≡ is_set self.now.last 4 }
    {
        is_set(self.last, 4)
    }

    /// Bits 5 and 6: a leap second was deleted within the last day.
    pub fn is_leap_deleted(&self) -> bool
        ensures { result ≡ (is_set self.now.last 5 && is_set self.now.last 6) }
    {
        is_set(self.last, 5) && is_set(self.last, 6)
    }

    /// Bits 5 and 6: a leap second was added within the last day.
    pub fn is_leap_added(&self) -> bool
        ensures { result ≡ (is_set self.now.last 5 && not (is_set self.now.last 6)) }
    {
        is_set(self.last, 5) && !is_set(self.last, 6)
    }
}

/// Whether a bit is set.
fn is_set(quality: u8, bit: u8) -> bool
    requires { bit < 8 }
    ensures { result ≡ is_set quality bit }
{
    (quality >> bit) % 2 == 1
}
