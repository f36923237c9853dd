//! The measures of one PMU's data blocks.
ghost use Rattle.std.specs.Prelude.{◌≡◌};
ghost use Rattle.pg_quality.specs.Measures.{blocks_at, no_blocks, with_block};
ghost use Rattle.pg_quality.specs.Watching.{changes_of, looked};

use crate::frequency::Frequency;
use crate::stat::StatTally;
use crate::watch::{PmuChanges, PmuWatch};

/// The head of a PMU's data block (C37.118.2, 6.3).
#[derive(Clone, Copy)]
pub struct Block {
    /// STAT.
    pub stat: u16,
    /// FREQ: millihertz from the nominal frequency.
    pub freq: i16,
    /// DFREQ: hundredths of a hertz per second.
    pub dfreq: i16,
}

/// The measures of one PMU's data blocks.
#[derive(Drop)]
pub struct BlockQuality {
    /// STAT of its blocks.
    pub stat: StatTally,
    /// Its frequency.
    pub frequency: Frequency,
    /// What was seen of it at the last look.
    pub watch: PmuWatch,
}

impl BlockQuality {
    /// Of a PMU of which no block came.
    pub fn new() -> BlockQuality
        ensures { result ≡ no_blocks }
    {
        BlockQuality {
            stat: StatTally::new(),
            frequency: Frequency::new(),
            watch: PmuWatch::new(),
        }
    }

    /// A copy.
    pub(crate) fn copied(&self) -> BlockQuality
        ensures { result ≡ self.now }
    {
        BlockQuality {
            stat: self.stat.copied(),
            frequency: self.frequency,
            watch: self.watch,
        }
    }

    /// This machine's clock has come to a second since 1970-01-01 00:00 UTC: what was noted in the second before is filed.
    pub fn come_to(&mut self, second: u64)
        ensures { self.new ≡ blocks_at self.old second }
    {
        self.frequency.come_to(second);
    }

    /// Takes a look at its STAT, and returns what changed since the last one.
    pub fn look(&mut self) -> PmuChanges
        ensures watch { self.new ≡ record self.old { watch = looked self.old.watch self.old.stat } }
        ensures changes { result ≡ changes_of self.old.watch self.old.stat }
    {
        self.watch.look(&self.stat.counts())
    }

    /// A data block came, in the second to which the clock has come.
    #[inline(always)]
    pub fn note(&mut self, block: Block)
        ensures { self.new ≡ with_block self.old block }
    {
        self.stat.note(block.stat);
        self.frequency.note(block.freq, block.dfreq);
    }
}
