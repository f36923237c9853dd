//! A PMU that a source announced, and the measures of its blocks.
ghost use Rattle.std.specs.Prelude.{◌≡◌, ◌^◌, ◌<◌};
ghost use Rattle.pg_quality.specs.Watching.{changes_of};
ghost use Rattle.pg_quality.specs.Sources.{looked_of};
ghost use Rattle.pg_quality.specs.Announcing.{block_in, pmu_at, pmu_noted, pmu_of, summary_of};

use crate::block_quality::{Block, BlockQuality};
use crate::stat::StatCounts;
use crate::watch::PmuChanges;
use pg_config::PmuConfig;

/// A PMU that a source announced, and the measures of its blocks.
#[derive(Drop)]
pub struct PmuQuality {
    /// Its IDCODE at its source.
    pub id: u16,
    /// STN, as it was announced.
    pub station: [u8; 16],
    /// FNOM.
    pub fnom: u16,
    /// Where its block begins among the blocks of a data frame.
    pub start: u16,
    /// PHNMR, the number of phasors.
    pub phasors: u16,
    /// The measures of its blocks.
    pub blocks: BlockQuality,
}

/// How good the blocks of a PMU are, for those that ask.
#[derive(Clone, Copy)]
pub struct PmuSummary {
    /// Its IDCODE at its source.
    pub id: u16,
    /// STN, as it was announced.
    pub station: [u8; 16],
    /// FNOM.
    pub fnom: u16,
    /// STAT of its blocks.
    pub stat: StatCounts,
    /// FREQ of its last block: millihertz from the nominal frequency; -32,768 where it has none.
    pub freq: i16,
    /// DFREQ of its last block: hundredths of a hertz per second; -32,768 where it has none.
    pub dfreq: i16,
}

impl PmuQuality {
    /// The PMU with this configuration, whose block begins at this place among the blocks of a data frame.
    #[tactic(auto, unfolding(crate::specs::Announcing::pmu_of))]
    pub(crate) fn new(part: &PmuConfig, start: usize, blocks: BlockQuality) -> PmuQuality
        requires { start < 2 ^ 16 }
        ensures { result ≡ pmu_of part.now start blocks }
    {
        let len = part.config_len();
        let mut station = [0; 16];
        station.copy_from_slice(&part.block[..16]);
        PmuQuality {
            id: part.id(),
            station,
            fnom: u16::from_be_bytes([part.block[len - 4], part.block[len - 3]]),
            start: start as u16,
            phasors: part.phasors,
            blocks,
        }
    }

    /// This machine's clock has come to a second since 1970-01-01 00:00 UTC.
    #[tactic(auto, unfolding(crate::specs::Announcing::pmu_at))]
    pub(crate) fn come_to(&mut self, second: u64)
        ensures { self.new ≡ pmu_at second self.old }
    {
        self.blocks.come_to(second);
    }

    /// A data frame with these blocks came. One that is too short for a block of the PMU has none.
    #[tactic(auto, unfolding(crate::specs::Announcing::pmu_noted))]
    #[inline(always)]
    pub(crate) fn note(&mut self, body: &[u8])
        ensures { self.new ≡ pmu_noted body.now self.old }
    {
        if let Some(block) = block_in(body, self.start, self.phasors) {
            self.blocks.note(block);
        }
    }

    /// Takes a look at its STAT, and returns what changed since the last one.
    pub fn look(&mut self) -> PmuChanges
        ensures changes { result ≡ changes_of self.old.blocks.watch self.old.blocks.stat }
        ensures watch { self.new ≡ looked_of self.old }
    {
        self.blocks.look()
    }

    /// How good its blocks are.
    pub fn summary(&self) -> PmuSummary
        ensures { result ≡ summary_of self.now }
    {
        PmuSummary {
            id: self.id,
            station: self.station,
            fnom: self.fnom,
            stat: self.blocks.stat.counts(),
            freq: self.blocks.frequency.freq,
            dfreq: self.blocks.frequency.dfreq,
        }
    }
}

/// The head of a block with so many phasors that begins at this place among these blocks.
#[inline(always)]
fn block_in(body: &[u8], start: u16, phasors: u16) -> Option<Block>
    ensures { result ≡ block_in body.now start phasors }
{
    let start = usize::from(start);
    // FREQ and DFREQ stand behind STAT and the phasors, and are two bytes each.
    let freq_at = start + 2 + 4 * usize::from(phasors);
    if freq_at + 4 > body.len() {
        return None;
    }
    Some(Block {
        stat: u16::from_be_bytes([body[start], body[start + 1]]),
        freq: i16::from_be_bytes([body[freq_at], body[freq_at + 1]]),
        dfreq: i16::from_be_bytes([body[freq_at + 2], body[freq_at + 3]]),
    })
}
