//! What changed from one look to the next, for the log.
ghost use Rattle.std.specs.Prelude.{◌≡◌};
ghost use Rattle.pg_quality.specs.Watching.{change_of, changes_of, has_error, is_out, is_short_after, looked, nothing_seen};

use crate::completeness::Tally;
use crate::stat::{StatCounts, is_set};

/// STAT's bit for a PMU that is not in sync with a UTC traceable time source (C37.118.2, 6.3).
const OUT_OF_SYNC: u16 = 13;

/// For how many seconds frames have to be expected in a minute before their completeness is judged.
const LEAST_SECONDS: u64 = 10;

/// What was seen of a PMU's blocks at the last look.
#[derive(Clone, Copy)]
pub struct PmuWatch {
    /// STAT of its blocks.
    pub stat: StatCounts,
    /// Whether it was out of sync since the look before.
    pub is_out_of_sync: bool,
    /// Whether it reported a data error since the look before.
    pub has_error: bool,
}

/// What changed since the last look: `None` where nothing did.
#[derive(Clone, Copy, PartialEq, Eq)]
pub struct PmuChanges {
    /// Whether it is out of sync.
    pub is_out_of_sync: Option<bool>,
    /// Whether it reports a data error.
    pub has_error: Option<bool>,
}

impl PmuWatch {
    /// No look was taken.
    pub fn new() -> PmuWatch
        ensures { result ≡ nothing_seen }
    {
        PmuWatch {
            stat: StatCounts::new(),
            is_out_of_sync: false,
            has_error: false,
        }
    }

    /// Takes a look at STAT of the blocks, and returns what changed.
    pub fn look(&mut self, stat: &StatCounts) -> PmuChanges
        ensures watch { self.new ≡ looked self.old stat.now }
        ensures changes { result ≡ changes_of self.old stat.now }
    {
        let is_out_of_sync = self.is_out(stat);
        let has_error = self.finds_error(stat);
        let changes = PmuChanges {
            is_out_of_sync: change_of(self.is_out_of_sync, is_out_of_sync),
            has_error: change_of(self.has_error, has_error),
        };
        *self = PmuWatch {
            stat: *stat,
            is_out_of_sync,
            has_error,
        };
        changes
    }

    /// Whether a block was out of sync since the last look, or the last block is.
    fn is_out(&self, stat: &StatCounts) -> bool
        ensures { result ≡ is_out self.now stat.now }
    {
        stat.out_of_sync != self.stat.out_of_sync || is_set(stat.last, OUT_OF_SYNC)
    }

    /// Whether a block reported a data error since the last look, or the last block does.
    fn finds_error(&self, stat: &StatCounts) -> bool
        ensures { result ≡ has_error self.now stat.now }
    {
        stat.pmu_error != self.stat.pmu_error
            || stat.test_or_absent != self.stat.test_or_absent
            || stat.do_not_use != self.stat.do_not_use
            || stat.last >> 14 != 0
    }
}

/// What is so now, if it was not.
pub(crate) fn change_of(was: bool, is: bool) -> Option<bool>
    ensures { result ≡ change_of was is }
{
    match (was, is) {
        (false, true) => Some(true),
        (true, false) => Some(false),
        (true, true) | (false, false) => None,
    }
}

/// Whether too many frames of this DATA_RATE are missing in a minute: below 95 per cent came, or below 99 where it was so before. It stays as it was
/// while less than ten seconds of frames are expected.
pub fn is_short_after(was_short: bool, minute: Tally, rate: i16) -> bool
    ensures { result ≡ is_short_after was_short minute rate }
{
    let least = LEAST_SECONDS * u64::from(rate.max(1).unsigned_abs());
    match minute.completeness() {
        Some(tenths) if minute.expected >= least => if was_short {
            tenths < 990
        } else {
            tenths < 950
        },
        _ => was_short,
    }
}
