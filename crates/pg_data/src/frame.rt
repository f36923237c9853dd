//! A data frame that was read.

ghost use Rattle.std.specs.Prelude.{◌≡◌, ◌↔◌, ◌+◌, ◌^◌, ◌<◌, ◌≤◌, ◌++◌, ℕ, List, length, take, slice_get, IfSome, IsTrue};
ghost use Rattle.pg_config.specs.Parts.{block_id, data_len, data_lens};
ghost use Rattle.std.specs.Int.{bit_at};
ghost use Rattle.pg_wire.specs.Check.{dividend_from, IsRemainder};
ghost use Rattle.pg_wire.specs.Head.{IsFrame, body_of};
ghost use Rattle.pg_data.specs.Measurements.{IsMeasurement, resolution, block_in, block_of, stat_of, HasChange, has_change};
ghost use Rattle.pg_data.specs.Alone.{AreAlone};

use pg_config::SourceConfig;
use pg_wire::{PmuId, PmuKey, body_alone, check_alone};
use std::marker::Model;
use std::sync::Arc;

/// The most PMUs of a source.
pub(crate) const MOST_PMUS: usize = 16;

/// STAT's configuration change bit, bit 10 (C37.118.2, 6.3).
const CONFIG_CHANGE: u16 = 0x0400;

/// A data frame with the configuration by which it was read (C37.118.2, 6.3). Whoever shares it sees it unchanged.
#[derive(Drop)]
pub struct DataFrame {
    /// The frame's IDCODE, which is the configuration's.
    pub source: PmuId,
    /// SOC: whole seconds since 1970-01-01 00:00 UTC.
    pub soc: u32,
    /// The time quality, FRACSEC's top byte.
    pub quality: u8,
    /// FRACSEC's numerator, below the configuration's resolution.
    pub frac: u32,
    /// The configuration of the source by which the frame was read.
    pub config: Arc<SourceConfig>,
    /// All data blocks, in the order of the configuration.
    pub body: Vec<u8>,
    // What each data block adds to CHK of a frame that ends with it. Whoever composes a frame of blocks need not sum them again.
    pub(crate) alone: [u16; MOST_PMUS],
}

impl Model for DataFrame {
    ghost use Rattle.std.specs.Arc.{arc_value};
    ghost use Rattle.pg_data.specs.Measurements.{Measurement, IsMeasurement};
    ghost use Rattle.pg_data.specs.Alone.{AreAlone};

    ghost Value = { Measurement };

    ghost view = { λ f. record { source = f.source; soc = f.soc; quality = f.quality; frac = f.frac; config = arc_value f.config; body = f.body.items } };

    ghost invariant = { λ f. IsMeasurement (record { source = f.source; soc = f.soc; quality = f.quality; frac = f.frac; config = arc_value f.config; body = f.body.items }) × AreAlone (arc_value f.config) f.body.items f.alone };
}

impl DataFrame {
    /// How many data blocks it has, one for each PMU of its configuration: 1 to 16.
    pub fn count(&self) -> usize
        ensures value { result ≡ length self.now.config.parts }
        ensures keeps { IsMeasurement self.now }
    {
        self.config.count()
    }

    /// The resolution of its numerator, which is never 0.
    pub fn base(&self) -> u32
        ensures value { result ≡ resolution self.now.config }
        ensures above { self.now.frac < result }
    {
        let _ = &self.frac;
        resolution_of(&self.config)
    }

    /// The data block of PMU i, as it stood in the frame.
    pub fn block(&self, i: usize) -> &[u8]
        requires { i < length self.now.config.parts }
        ensures value { result.now ≡ block_of self.now i }
        ensures size { IfSome (slice_get self.now.config.parts i) (λ part. length result.now ≡ data_len part) }
        ensures long { 6 ≤ length result.now }
        // A frame with this block alone keeps FRAMESIZE's two bytes.
        ensures short { 16 + length result.now < 2 ^ 16 }
        // A configuration block of at most 2,000 bytes leaves room for 98 phasors.
        ensures few { length result.now ≤ 398 }
    {
        let (start, end) = self.place(i);
        &self.body[start..end]
    }

    /// What a frame's check becomes once PMU i's data block has come behind the bytes that it is of: the same as `check_more` of pg_wire
    /// says of its bytes, which are not summed again.
    #[inline(always)]
    pub fn check_past(&self, i: usize, crc: u16) -> u16
        requires { i < length self.now.config.parts }
        ensures { (start : ℕ) (before : List ℕ) → IsRemainder (dividend_from start before) crc
            → IsRemainder (dividend_from start (before ++ block_of self.now i)) result }
    {
        self.config
            .shift(i)
            .check_past(crc, self.block(i), self.alone[i])
    }

    /// Where PMU i's data block begins and ends in the body.
    fn place(&self, i: usize) -> (usize, usize)
        requires { i < length self.now.config.parts }
        ensures start { result.0 ≡ data_lens (take i self.now.config.parts) }
        ensures end { result.1 ≡ data_lens (take (i + 1) self.now.config.parts) }
        ensures size { IfSome (slice_get self.now.config.parts i) (λ part. result.0 + data_len part ≡ result.1) }
        ensures long { result.0 + 6 ≤ result.1 }
        ensures few { result.1 ≤ result.0 + 398 }
        ensures within { result.1 ≤ length self.now.body }
    {
        let _ = &self.body;
        (self.config.start(i), self.config.start(i + 1))
    }

    /// The key of PMU i: the frame's source, and the PMU's IDCODE in its configuration.
    pub fn key(&self, i: usize) -> PmuKey
        requires { i < length self.now.config.parts }
        ensures source { result.source ≡ self.now.source }
        ensures pmu { IfSome (slice_get self.now.config.parts i) (λ part. result.pmu ≡ block_id part.block) }
    {
        self.config.key(i)
    }

    /// STAT of PMU i's data block (C37.118.2, 6.3).
    pub fn stat(&self, i: usize) -> u16
        requires { i < length self.now.config.parts }
        ensures { result ≡ stat_of self.now i }
    {
        let block = self.block(i);
        u16::from_be_bytes([block[0], block[1]])
    }

    /// Whether a PMU says that its configuration changes: STAT bit 10 is set in one of the data blocks.
    pub fn is_changed(&self) -> bool
        ensures means { IsTrue result ↔ HasChange self.now }
        ensures value { result ≡ has_change self.now }
    {
        self.finds_change()
    }

    /// Looks at the blocks one after another.
    fn finds_change(&self) -> bool
        ensures { IsTrue result ↔ HasChange self.now }
    {
        for i in 0..self.count() {
            if has_change_bit(self.stat(i)) {
                return true;
            }
        }
        false
    }
}

/// What each data block of a frame adds to CHK of a frame that ends with it. A frame of one block has it in its own CHK.
pub(crate) fn alone_in(config: &SourceConfig, frame: &[u8], body: &[u8]) -> [u16; MOST_PMUS]
    requires frame { IsFrame frame.now }
    requires body { body.now ≡ body_of frame.now }
    requires len { length body.now ≡ data_lens config.now.parts }
    ensures { AreAlone config.now body.now result }
{
    if config.count() == 1 {
        let mut alone = [0; MOST_PMUS];
        alone[0] = body_alone(frame, config.shift(0));
        return alone;
    }
    alone_of(config, body)
}

/// The same of the blocks themselves.
fn alone_of(config: &SourceConfig, body: &[u8]) -> [u16; MOST_PMUS]
    requires { length body.now ≡ data_lens config.now.parts }
    ensures { AreAlone config.now body.now result }
{
    let mut alone = [0; MOST_PMUS];
    for i in 0..config.count() {
        alone[i] = check_alone(block_at(config, body, i));
    }
    alone
}

/// The data block of PMU i.
#[inline(always)]
fn block_at<'a>(config: &SourceConfig, body: &'a [u8], i: usize) -> &'a [u8]
    requires place { i < length config.now.parts }
    requires len { length body.now ≡ data_lens config.now.parts }
    ensures { result.now ≡ block_in config.now.parts body.now i }
{
    let (start, end) = place_in(config, i);
    &body[start..end]
}

/// Where PMU i's data block begins and ends among a source's data blocks.
#[inline(always)]
fn place_in(config: &SourceConfig, i: usize) -> (usize, usize)
    requires { i < length config.now.parts }
    ensures start { result.0 ≡ data_lens (take i config.now.parts) }
    ensures end { result.1 ≡ data_lens (take (i + 1) config.now.parts) }
    ensures order { result.0 ≤ result.1 }
    ensures within { result.1 ≤ data_lens config.now.parts }
{
    let _count = config.count();
    (config.start(i), config.start(i + 1))
}

/// The resolution of a source's frames.
pub(crate) fn resolution_of(config: &SourceConfig) -> u32
    ensures { result ≡ resolution config.now }
{
    config.parts[0].base
}

/// Whether STAT's configuration change bit is set.
fn has_change_bit(stat: u16) -> bool
    ensures { IsTrue result ↔ (bit_at stat 10 ≡ 1) }
{
    stat & CONFIG_CHANGE != 0
}
