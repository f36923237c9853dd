//! The measures of a worker's sources.

ghost use Rattle.std.specs.Prelude.{◌≡◌, ◌/◌, [], ◌∷◌, ◌++◌, false, option_map, slice_get, IfOk, IfErr};
ghost use Rattle.pg_quality.specs.Sources.{connected, judged, looked_at, no_source, noted};
ghost use Rattle.pg_sources.specs.Measuring.{Announces, changed, changes_of_served, judgement_of, no_measures, served, served_one, with_served};

use pg_config::SourceConfig;
use pg_data::DataFrame;
use pg_quality::{PmuChanges, SourceQuality};
use std::alloc::{AllocError, Global};
use std::marker::Model;

/// The measures of a worker's sources, by their places, and which of them is served.
#[derive(Drop)]
pub struct Measures {
    alloc: Global,
    sources: Vec<SourceQuality>,
    // The place of the source that is served, and this machine's clock as it is served.
    place: usize,
    clock: u64,
    // Whether another second began for it, and whether there was no memory for an announcement.
    has_begun: bool,
    is_short: bool,
}

impl Model for Measures {
    ghost use Rattle.pg_sources.specs.Measuring.{Held};

    ghost Value = { Held };

    ghost view = { λ m. record { sources = m.sources.items; place = m.place; clock = m.clock; has_begun = m.has_begun; is_short = m.is_short } };
}

impl Measures {
    /// Without sources.
    pub fn new(alloc: Global) -> Measures
        ensures { result ≡ no_measures }
    {
        Measures {
            alloc,
            sources: Vec::new(alloc),
            place: 0,
            clock: 0,
            has_begun: false,
            is_short: false,
        }
    }

    /// There is one source more, at the next place.
    ///
    /// # Errors
    ///
    /// There is no memory.
    pub fn add_source(&mut self) -> Result<(), AllocError>
        ensures added { IfOk result (λ _. self.new ≡ record self.old { sources = self.old.sources ++ no_source ∷ [] }) }
        ensures memory { IfErr result (λ _. self.new ≡ self.old) }
    {
        self.sources.push(SourceQuality::new(self.alloc))?;
        Ok(())
    }

    /// The measures of the source at this place.
    pub fn of(&self, place: usize) -> Option<&SourceQuality>
        ensures { option_map (λ s. s.now) result ≡ slice_get self.now.sources place }
    {
        self.sources.get(place)
    }

    /// The source at this place connected.
    pub fn connect(&mut self, place: usize)
        ensures { self.new ≡ record self.old { sources = changed connected self.old.sources place } }
    {
        if let Some(source) = self.sources.get_mut(place) {
            source.connect();
        }
    }

    /// The source at this place is served from here on, when this machine's clock stands at `clock` milliseconds since 1970-01-01 00:00 UTC.
    pub fn serve(&mut self, place: usize, clock: u64)
        ensures { self.new ≡ served self.old place clock }
    {
        self.place = place;
        self.clock = clock;
        if let Some(source) = self.sources.get_mut(place) {
            self.has_begun |= source.come_to(clock / 1_000);
        }
    }

    /// Whether another second began for a source since this was asked last.
    pub fn take_second(&mut self) -> bool
        ensures begun { result ≡ self.old.has_begun }
        ensures taken { self.new ≡ record self.old { has_begun = false } }
    {
        let has_begun = self.has_begun;
        self.has_begun = false;
        has_begun
    }

    /// Where it changed whether too many data frames of the source that is served are missing in the last minute: whether they are, and how many tenths of
    /// a per cent came.
    pub fn judge(&mut self) -> Option<(bool, u16)>
        ensures judgement { result ≡ judgement_of (served_one self.old) (self.old.clock / 1000) }
        ensures judged { self.new ≡ with_served (judged (self.old.clock / 1000)) self.old }
    {
        let second = self.clock / 1_000;
        let source = self.sources.get_mut(self.place)?;
        let is_short = source.judge(second)?;
        let came = source.completeness().last_minute(second);
        Some((is_short, came.completeness()?))
    }

    /// What changed of this PMU of the source that is served, in the order of its configuration: its IDCODE and the changes; `None` behind the last.
    pub fn look(&mut self, pmu: usize) -> Option<(u16, PmuChanges)>
        ensures changes { result ≡ changes_of_served (served_one self.old) pmu }
        ensures looked { self.new ≡ with_served (looked_at pmu) self.old }
    {
        self.sources.get_mut(self.place)?.look(pmu)
    }

    /// Whether there was no memory for an announcement since this was asked last.
    pub fn take_shortage(&mut self) -> bool
        ensures short { result ≡ self.old.is_short }
        ensures taken { self.new ≡ record self.old { is_short = false } }
    {
        let is_short = self.is_short;
        self.is_short = false;
        is_short
    }

    /// A data frame of the source that is served came.
    #[inline(always)]
    pub fn note(&mut self, frame: &DataFrame)
        ensures { self.new ≡ with_served (noted frame.now self.old.clock) self.old }
    {
        if let Some(source) = self.sources.get_mut(self.place) {
            source.note(frame, self.clock);
        }
    }

    /// The source that is served announced this configuration.
    pub fn announce(&mut self, config: &SourceConfig)
        ensures { Announces self.old config.now self.new }
    {
        if let Some(source) = self.sources.get_mut(self.place) {
            self.is_short |= source.announce(self.alloc, config).is_err();
        }
    }
}
