//! STAT of a PMU's data blocks (C37.118.2, 6.3, table 7).
ghost use Rattle.std.specs.Prelude.{◌≡◌, ◌%◌, ◌<◌, length, if◌then◌else◌};
ghost use Rattle.pg_quality.specs.Counting.{more_by};
ghost use Rattle.pg_quality.specs.Stats.{is_set, no_stat, with_code, with_stat, with_stats};

use std::marker::Model;

/// How many blocks had each bit or code of STAT set, and the last STAT. Each number stays at 2^64 - 1 once it is there.
#[derive(Clone, Copy)]
pub struct StatCounts {
    /// STAT of the last block; 0 before the first.
    pub last: u16,
    /// The trigger reason of the last block whose trigger bit was set, bits 3 to 0.
    pub trigger_reason: Option<u8>,
    /// Data error 01, bits 15 and 14: PMU error, no information about data.
    pub pmu_error: u64,
    /// Data error 10: PMU in test mode, or absent data tags have been inserted.
    pub test_or_absent: u64,
    /// Data error 11: PMU error, do not use values.
    pub do_not_use: u64,
    /// Bit 13: not in sync with a UTC traceable time source.
    pub out_of_sync: u64,
    /// Bit 12: sorted by arrival, not by time stamp.
    pub by_arrival: u64,
    /// Bit 11: trigger detected.
    pub triggered: u64,
    /// Bit 10: the configuration changes.
    pub changing: u64,
    /// Bit 9: data modified by post processing.
    pub modified: u64,
    /// PMU time quality, bits 8 to 6: by code, 1 to 7. Blocks of code 0 are not counted here.
    pub time_quality: [u64; 8],
    /// Unlocked time, bits 5 and 4: by code, 1 to 3. Blocks of code 0, locked or unlocked for less than 10 seconds, are not counted here.
    pub unlocked: [u64; 4],
}

impl StatCounts {
    /// No block came.
    pub fn new() -> StatCounts
        ensures { result ≡ no_stat }
    {
        StatCounts {
            last: 0,
            trigger_reason: None,
            pmu_error: 0,
            test_or_absent: 0,
            do_not_use: 0,
            out_of_sync: 0,
            by_arrival: 0,
            triggered: 0,
            changing: 0,
            modified: 0,
            time_quality: [0; 8],
            unlocked: [0; 4],
        }
    }

    /// The counts with so many blocks of this STAT.
    fn with(self, stat: u16, blocks: u64) -> StatCounts
        ensures { result ≡ with_stats self stat blocks }
    {
        let error = stat >> 14;
        let mut time_quality = self.time_quality;
        count_code(&mut time_quality, usize::from((stat >> 6) % 8), blocks);
        let mut unlocked = self.unlocked;
        count_code(&mut unlocked, usize::from((stat >> 4) % 4), blocks);
        StatCounts {
            last: stat,
            trigger_reason: reason_of(stat, self.trigger_reason),
            pmu_error: more_by(error == 1, self.pmu_error, blocks),
            test_or_absent: more_by(error == 2, self.test_or_absent, blocks),
            do_not_use: more_by(error == 3, self.do_not_use, blocks),
            out_of_sync: more_by(is_set(stat, 13), self.out_of_sync, blocks),
            by_arrival: more_by(is_set(stat, 12), self.by_arrival, blocks),
            triggered: more_by(is_set(stat, 11), self.triggered, blocks),
            changing: more_by(is_set(stat, 10), self.changing, blocks),
            modified: more_by(is_set(stat, 9), self.modified, blocks),
            time_quality,
            unlocked,
        }
    }
}

/// STAT of a PMU's blocks. One that is that of the block before is counted with others like it, since it mostly is.
#[derive(Drop)]
pub struct StatTally {
    counts: StatCounts,
    // How many blocks with the last STAT are not in the counts yet.
    repeated: u64,
}

impl Model for StatTally {
    ghost use Rattle.pg_quality.specs.Stats.{with_last};
    ghost use Rattle.pg_quality.specs.declared.stat.StatCounts.{StatCounts};

    ghost Value = { StatCounts };

    ghost view = { λ t. with_last t.counts t.repeated };
}

impl StatTally {
    /// No block came.
    pub fn new() -> StatTally
        ensures { result ≡ no_stat }
    {
        StatTally {
            counts: StatCounts::new(),
            repeated: 0,
        }
    }

    /// The counts.
    pub fn counts(&self) -> StatCounts
        ensures { result ≡ self.now }
    {
        if self.repeated == 0 {
            self.counts
        } else {
            self.counts.with(self.counts.last, self.repeated)
        }
    }

    /// A copy.
    pub(crate) fn copied(&self) -> StatTally
        ensures { result ≡ self.now }
    {
        StatTally {
            counts: self.counts,
            repeated: self.repeated,
        }
    }

    /// A block came with this STAT.
    #[tactic(auto, using(crate::proofs::Repeating::repeated_more))]
    #[inline(always)]
    pub fn note(&mut self, stat: u16)
        ensures { self.new ≡ with_stat self.old stat }
    {
        if stat == self.counts.last {
            self.repeated = self.repeated.saturating_add(1);
        } else {
            self.note_other(stat);
        }
    }

    /// A block came with another STAT than the one before.
    #[inline(never)]
    fn note_other(&mut self, stat: u16)
        ensures { self.new ≡ with_stat self.old stat }
    {
        let counts = self.counts();
        *self = StatTally {
            counts: counts.with(stat, 1),
            repeated: 0,
        };
    }
}

/// Whether a bit is set.
#[inline(always)]
pub(crate) fn is_set(stat: u16, bit: u16) -> bool
    requires { bit < 16 }
    ensures { result ≡ is_set stat bit }
{
    (stat >> bit) % 2 == 1
}

/// The trigger reason of a STAT whose trigger bit is set, else that of the one before.
#[inline(always)]
fn reason_of(stat: u16, last: Option<u8>) -> Option<u8>
    ensures { result ≡ (if is_set stat 11 then Some (stat % 16) else last) }
{
    if is_set(stat, 11) {
        Some((stat % 16) as u8)
    } else {
        last
    }
}

/// So many more of a code, unless it is 0.
fn count_code(counts: &mut [u64], code: usize, blocks: u64)
    requires { code < length counts.old }
    ensures { counts.new ≡ with_code counts.old code blocks }
{
    if code != 0 {
        counts[code] = counts[code].saturating_add(blocks);
    }
}

/// A counter with so many more where it is so.
pub(crate) fn more_by(is_so: bool, counter: u64, more: u64) -> u64
    ensures { result ≡ more_by is_so counter more }
{
    if is_so {
        counter.saturating_add(more)
    } else {
        counter
    }
}
