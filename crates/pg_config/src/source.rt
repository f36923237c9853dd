//! The configurations of PMUs and of sources.

ghost use Rattle.std.specs.Prelude.{◌≡◌, ◌+◌, ◌*◌, ◌<◌, ◌≤◌, ◌∷◌, ◌++◌, length, map, take, slice_get, vec_len, vec_capacity, IfOk, IfSome};
ghost use Rattle.std.specs.Bool.{Decides};
ghost use Rattle.std.specs.Arc.{arc_value};
ghost use Rattle.pg_config.specs.Parts.{IsPart, IsSource, block_id, data_len, data_lens, ends_from};
ghost use Rattle.pg_config.specs.Writing.{uncounted, block_with_count};

use pg_wire::{CrcShift, Kind, PmuId, PmuKey};
use std::alloc::{AllocError, Global};
use std::marker::Model;
use std::sync::Arc;

/// A PMU's configuration: its block, and the resolution and rate of the frame in which it came (C37.118.2, 6.4).
#[derive(Drop)]
pub struct PmuConfig {
    /// The resolution of FRACSEC: the low 24 bits of TIME_BASE, never 0.
    pub base: u32,
    /// DATA_RATE: frames per second where positive, seconds per frame where negative.
    pub rate: i16,
    /// PHNMR, the number of phasors.
    pub phasors: u16,
    /// ANNMR, the number of analog values.
    pub analogs: u16,
    /// DGNMR, the number of digital words.
    pub digitals: u16,
    /// The configuration block from STN to CFGCNT, as it came: at most 2,000 bytes.
    pub block: Vec<u8>,
}

impl Model for PmuConfig {
    ghost use Rattle.pg_config.specs.Parts.{Part, IsPart};

    ghost Value = { Part };

    ghost view = { λ p. record { base = p.base; rate = p.rate; phasors = p.phasors; analogs = p.analogs; digitals = p.digitals; block = p.block.items } };

    ghost invariant = { λ p. IsPart (record { base = p.base; rate = p.rate; phasors = p.phasors; analogs = p.analogs; digitals = p.digitals; block = p.block.items }) };
}

impl PmuConfig {
    /// The block's IDCODE: the PMU's number at its source, 1 to 65534.
    pub fn id(&self) -> u16
        ensures value { result ≡ block_id self.now.block }
        ensures keeps { IsPart self.now }
    {
        u16::from_be_bytes([self.block[16], self.block[17]])
    }

    /// The PMU's number at its source.
    pub fn pmu(&self) -> PmuId
        ensures { result ≡ block_id self.now.block }
    {
        PmuId::new(self.id()).unwrap()
    }

    /// The length of the configuration block in bytes.
    pub fn config_len(&self) -> usize
        ensures value { result ≡ length self.now.block }
        ensures counts { result ≡ 30 + 20 * self.now.phasors + 20 * self.now.analogs + 260 * self.now.digitals }
        ensures most { result ≤ 2000 }
    {
        self.block.len()
    }

    /// The length of the PMU's block in a data frame, in bytes (C37.118.2, 6.3).
    pub fn block_len(&self) -> usize
        ensures value { result ≡ data_len self.now }
        ensures most { result ≤ 2000 }
        ensures few { result ≤ 398 }
    {
        6 + 4 * usize::from(self.phasors)
            + 2 * usize::from(self.analogs)
            + 2 * usize::from(self.digitals)
    }

    /// The block without CFGCNT, its last two bytes.
    fn kept_bytes(&self) -> &[u8]
        ensures value { result.now ≡ uncounted self.now }
        ensures len { length result.now + 2 ≡ length self.now.block }
    {
        let end = self.config_len() - 2;
        &self.block[..end]
    }

    /// Adds the configuration block with this CFGCNT in place of its own to a frame, in the room that is there. All other
    /// bytes are copied. It takes no memory.
    pub fn add_to(&self, frame: &mut Vec<u8>, count: u16)
        requires { vec_len frame.old + length (block_with_count count self.now) ≤ vec_capacity frame.old }
        ensures bytes { frame.new.items ≡ frame.old.items ++ block_with_count count self.now }
        ensures len { vec_len frame.new ≡ vec_len frame.old + length (block_with_count count self.now) }
        ensures room { vec_capacity frame.old ≤ vec_capacity frame.new }
    {
        let kept = self.kept_bytes();
        // Both fit, by what is asked for.
        let _ = frame.extend_from_slice(kept);
        let _ = frame.extend_from_slice(&count.to_be_bytes());
    }

    /// Whether the blocks are the same but for CFGCNT. By this the gateway finds a change of configuration.
    pub fn is_same_but_count(&self, other: &PmuConfig) -> bool
        ensures { Decides result (uncounted self.now ≡ uncounted other.now) }
    {
        self.kept_bytes() == other.kept_bytes()
    }

    /// Whether resolution, rate and block are the same.
    pub fn is_same(&self, other: &PmuConfig) -> bool
        ensures { Decides result (self.now ≡ other.now) }
    {
        self.base == other.base
            && self.rate == other.rate
            && self.block.as_slice() == other.block.as_slice()
    }
}

/// A source's configuration: 1 to 16 PMUs, each with an IDCODE of its own, all of one resolution and rate.
#[derive(Drop)]
pub struct SourceConfig {
    /// The frame's IDCODE.
    pub source: PmuId,
    /// The PMUs' configurations, in the frame's order.
    pub parts: Vec<Arc<PmuConfig>>,
    // Where each PMU's data block begins among a frame's data blocks, and then where the last one ends.
    places: Vec<usize>,
    // And what CHK of a frame becomes past each PMU's data block.
    shifts: Vec<CrcShift>,
}

impl Model for SourceConfig {
    ghost use Rattle.std.specs.Prelude.{◌≡◌, ◌∷◌, map};
    ghost use Rattle.std.specs.Arc.{arc_value};
    ghost use Rattle.pg_config.specs.Parts.{Source, IsSource, data_len, ends_from};

    ghost Value = { Source };

    ghost view = { λ s. record { source = s.source; parts = map arc_value s.parts.items } };

    ghost invariant = { λ s. IsSource (record { source = s.source; parts = map arc_value s.parts.items }) × (s.places.items ≡ 0 ∷ ends_from 0 (map arc_value s.parts.items))
        × (s.shifts.items ≡ map data_len (map arc_value s.parts.items)) };
}

/// The places of the data blocks of these PMUs.
fn places_of(alloc: Global, parts: &[Arc<PmuConfig>]) -> Result<Vec<usize>, AllocError>
    requires { length parts.now ≤ 16 }
    ensures { IfOk result (λ v. v.items ≡ 0 ∷ ends_from 0 (map arc_value parts.now)) }
{
    let mut found = Vec::with_capacity(alloc, parts.len() + 1)?;
    let mut place = 0;
    found.push(place)?;
    for part in parts {
        place += part.block_len();
        found.push(place)?;
    }
    Ok(found)
}

/// What a frame's CHK becomes past the data blocks of these PMUs.
fn shifts_of(alloc: Global, parts: &[Arc<PmuConfig>]) -> Result<Vec<CrcShift>, AllocError>
    ensures { IfOk result (λ v. v.items ≡ map data_len (map arc_value parts.now)) }
{
    let mut shifts = Vec::with_capacity(alloc, parts.len())?;
    for part in parts {
        shifts.push(CrcShift::new(part.block_len()))?;
    }
    Ok(shifts)
}

impl SourceConfig {
    /// The configuration of a source with these PMUs.
    pub fn new(
        alloc: Global,
        source: PmuId,
        parts: Vec<Arc<PmuConfig>>,
    ) -> Result<SourceConfig, AllocError>
        requires { IsSource (record { source = source; parts = map arc_value parts.items }) }
        ensures { IfOk result (λ s. s ≡ record { source = source; parts = map arc_value parts.items }) }
    {
        let places = places_of(alloc, &parts)?;
        let shifts = shifts_of(alloc, &parts)?;
        Ok(SourceConfig {
            source,
            parts,
            places,
            shifts,
        })
    }

    /// How many PMUs it has: 1 to 16.
    pub fn count(&self) -> usize
        ensures value { result ≡ length self.now.parts }
        ensures keeps { IsSource self.now }
    {
        self.parts.len()
    }

    /// Where the data block of PMU i begins among the data blocks of a frame; at the number of PMUs, their whole length.
    pub fn start(&self, i: usize) -> usize
        requires { i ≤ length self.now.parts }
        ensures { result ≡ data_lens (take i self.now.parts) }
    {
        self.places[i]
    }

    /// What CHK of a frame becomes past the data block of PMU i.
    pub fn shift(&self, i: usize) -> &CrcShift
        requires { i < length self.now.parts }
        ensures { IfSome (slice_get self.now.parts i) (λ part. result.now ≡ data_len part) }
    {
        &self.shifts[i]
    }

    /// The key of PMU i.
    pub fn key(&self, i: usize) -> PmuKey
        requires { i < length self.now.parts }
        ensures source { result.source ≡ self.now.source }
        ensures pmu { IfSome (slice_get self.now.parts i) (λ part. result.pmu ≡ block_id part.block) }
    {
        PmuKey {
            source: self.source,
            pmu: self.parts[i].pmu(),
        }
    }
}

/// What a configuration frame announces.
#[derive(Drop)]
pub struct Announced {
    /// CFG-1 (what the source can report) or CFG-2 (what it reports now).
    pub kind: Kind,
    /// The configuration.
    pub config: SourceConfig,
}
