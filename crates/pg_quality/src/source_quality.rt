//! The measures of a source's data, and of the blocks of each PMU that it announced.
ghost use Rattle.std.specs.Prelude.{◌≡◌, ◌≤◌, ◌==◌, not, length, map, IfOk, IfErr};
ghost use Rattle.std.specs.Arc.{arc_value};
ghost use Rattle.pg_quality.specs.Summing.{frame_summary};
ghost use Rattle.pg_data.specs.Measurements.{resolution};
ghost use Rattle.pg_quality.specs.Announcing.{blocks_known, pmu_at, pmu_noted, pmus_from, rate_of};
ghost use Rattle.pg_quality.specs.Sources.{announced, came_to, connected, forgotten, judged, judgement, looked_at, changes_at, no_source, noted};

use crate::block_quality::BlockQuality;
use crate::completeness::Completeness;
use crate::delay::Delays;
use crate::frame_quality::FrameQuality;
use crate::frame_time::FrameTime;
use crate::pmu_quality::PmuQuality;
use crate::summary::FrameSummary;
use crate::watch::{PmuChanges, change_of, is_short_after};
use pg_config::{PmuConfig, SourceConfig};
use pg_data::DataFrame;
use std::alloc::{AllocError, Global};
use std::marker::Model;
use std::sync::Arc;

/// The measures of a source's data, and of the blocks of each PMU that it announced.
#[derive(Drop)]
pub struct SourceQuality {
    frames: FrameQuality,
    // Whether too many of its frames were missing at the last look.
    is_short: bool,
    // The PMUs of its last configuration, in its order.
    pmus: Vec<PmuQuality>,
}

impl Model for SourceQuality {
    ghost use Rattle.pg_quality.specs.Sources.{SourceState};

    ghost Value = { SourceState };

    ghost view = { λ s. record { frames = s.frames; is_short = s.is_short; pmus = s.pmus.items } };
}

impl SourceQuality {
    /// Of a source that announced nothing.
    pub fn new(alloc: Global) -> SourceQuality
        ensures { result ≡ no_source }
    {
        SourceQuality {
            frames: FrameQuality::new(),
            is_short: false,
            pmus: Vec::new(alloc),
        }
    }

    /// The source connected: the next frame begins a span, and what came since the source connected is counted from here.
    pub fn connect(&mut self)
        ensures { self.new ≡ connected self.old }
    {
        self.frames.connect();
    }

    /// It announced this configuration. A PMU that it had announced before keeps the measures of its blocks.
    ///
    /// # Errors
    ///
    /// There is no memory: no PMU is known until it announces again.
    pub fn announce(&mut self, alloc: Global, config: &SourceConfig) -> Result<(), AllocError>
        ensures known { IfOk result (λ _. self.new ≡ announced self.old config.now) }
        ensures memory { IfErr result (λ _. self.new ≡ forgotten self.old config.now) }
    {
        let found = pmus_of(alloc, &config.parts, &self.pmus);
        self.frames.announce(rate_of(config), base_of(config));
        match found {
            Ok(pmus) => {
                self.pmus = pmus;
                Ok(())
            }
            Err(error) => {
                self.pmus = Vec::new(alloc);
                Err(error)
            }
        }
    }

    /// This machine's clock has come to a second since 1970-01-01 00:00 UTC: what was noted in the second before is filed. The answer is whether another
    /// second began.
    pub fn come_to(&mut self, second: u64) -> bool
        ensures source { self.new ≡ came_to second self.old }
        ensures began { result ≡ not (second == self.old.frames.completeness.second) }
    {
        each_comes_to(&mut self.pmus, second);
        self.frames.come_to(second)
    }

    /// A data frame of its last configuration came, read when this machine's clock stood at `clock` milliseconds since 1970-01-01 00:00 UTC, in
    /// the second to which the clock has come.
    #[inline(always)]
    pub fn note(&mut self, frame: &DataFrame, clock: u64)
        ensures { self.new ≡ noted frame.now clock self.old }
    {
        let time = FrameTime {
            soc: frame.soc,
            frac: frame.frac,
            quality: frame.quality,
        };
        self.frames.note(&time, clock);
        note_each(&mut self.pmus, &frame.body);
    }

    /// Judges its last minute by this second of this machine's clock. Where that changed since the last look, the answer is whether too many of its frames
    /// are missing.
    pub fn judge(&mut self, second: u64) -> Option<bool>
        ensures change { result ≡ judgement second self.old }
        ensures short { self.new ≡ judged second self.old }
    {
        let minute = self.frames.completeness().last_minute(second);
        let was_short = self.is_short;
        self.is_short = is_short_after(was_short, minute, self.frames.rate());
        change_of(was_short, self.is_short)
    }

    /// What changed since the last look of the PMU at this place of its configuration: its IDCODE and the changes. `None` behind the last.
    pub fn look(&mut self, place: usize) -> Option<(u16, PmuChanges)>
        ensures changes { result ≡ changes_at place self.old }
        ensures looked { self.new ≡ looked_at place self.old }
    {
        if place >= self.pmus.len() {
            return None;
        }
        let pmu = &mut self.pmus[place];
        Some((pmu.id, pmu.look()))
    }

    /// How many of its frames came.
    pub fn completeness(&self) -> Completeness
        ensures { result ≡ self.now.frames.completeness }
    {
        self.frames.completeness()
    }

    /// The delays of its data frames.
    pub fn delays(&self) -> &Delays
        ensures { result.now ≡ self.now.frames.delays }
    {
        self.frames.delays()
    }

    /// How good its data frames are in this second of this machine's clock.
    pub fn summary(&self, second: u64) -> FrameSummary
        ensures { result ≡ frame_summary self.now.frames second }
    {
        FrameSummary::new(&self.frames, second)
    }

    /// The PMUs of its last configuration, in its order.
    pub fn pmus(&self) -> &[PmuQuality]
        ensures { result.now ≡ self.now.pmus }
    {
        &self.pmus
    }
}

/// DATA_RATE of a configuration.
fn rate_of(config: &SourceConfig) -> i16
    ensures { result ≡ rate_of config.now }
{
    config.parts[0].rate
}

/// The resolution of FRACSEC of a configuration.
fn base_of(config: &SourceConfig) -> u32
    ensures { result ≡ resolution config.now }
{
    config.parts[0].base
}

/// The clock has come to a second.
fn each_comes_to(pmus: &mut [PmuQuality], second: u64)
    ensures { pmus.new ≡ map (pmu_at second) pmus.old }
{
    for pmu in pmus.iter_mut() {
        pmu.come_to(second);
    }
}

/// A data frame with these blocks came.
#[inline(always)]
fn note_each(pmus: &mut [PmuQuality], body: &[u8])
    ensures { pmus.new ≡ map (pmu_noted body.now) pmus.old }
{
    for pmu in pmus.iter_mut() {
        pmu.note(body);
    }
}

/// The PMUs of a configuration. One that was known keeps the measures of its blocks.
fn pmus_of(
    alloc: Global,
    parts: &[Arc<PmuConfig>],
    known: &[PmuQuality],
) -> Result<Vec<PmuQuality>, AllocError>
    requires { length parts.now ≤ 16 }
    ensures { IfOk result (λ v. v.items ≡ pmus_from 0 known.now (map arc_value parts.now)) }
{
    let mut pmus = Vec::with_capacity(alloc, parts.len())?;
    let mut start = 0;
    for part in parts {
        let blocks = blocks_of(known, part.id());
        pmus.push(PmuQuality::new(part, start, blocks))?;
        start += part.block_len();
    }
    Ok(pmus)
}

/// The measures of the blocks of a PMU, as far as it is known.
fn blocks_of(known: &[PmuQuality], id: u16) -> BlockQuality
    ensures { result ≡ blocks_known id known.now }
{
    for pmu in known {
        if pmu.id == id {
            return pmu.blocks.copied();
        }
    }
    BlockQuality::new()
}
