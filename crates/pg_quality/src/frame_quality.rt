//! The measures of one source's data frames.
ghost use Rattle.std.specs.Prelude.{◌≡◌, ◌<◌, ◌==◌, not};
ghost use Rattle.pg_quality.specs.Measures.{announced_to, at_connect, at_roll, at_second, no_frames, with_frame, with_instant};

use crate::completeness::{Completeness, Tally};
use crate::delay::Delays;
use crate::frame_time::{FrameTime, delay_of};
use crate::span::SpanCounts;
use crate::spans::Spans;
use crate::time_quality::TimeQuality;
use std::marker::Model;

/// The measures of one source's data frames. Each frame has a block of each PMU of its configuration, so they are those of each of these PMUs.
#[derive(Drop)]
pub struct FrameQuality {
    spans: Spans,
    // What came, but for the frames of the instants behind `counted`: each came, and is of the instant behind the one before it.
    completeness: Completeness,
    counted: u64,
    delays: Delays,
    time_quality: TimeQuality,
}

impl Model for FrameQuality {
    ghost use Rattle.std.specs.Prelude.{◌-◌, ◌≤◌};
    ghost use Rattle.pg_quality.specs.Measures.{Frames};
    ghost use Rattle.pg_quality.specs.Tallies.{in_turn, with_tally};

    ghost Value = { Frames };

    ghost view = { λ q. record { spans = q.spans; completeness = with_tally q.completeness (in_turn (q.spans.span.last - q.counted)); delays = q.delays; time_quality = q.time_quality } };

    ghost invariant = { λ q. q.counted ≤ q.spans.span.last };
}

impl FrameQuality {
    /// Of a source of which no data frame came, and which announced nothing.
    pub fn new() -> FrameQuality
        ensures { result ≡ no_frames }
    {
        FrameQuality {
            spans: Spans::new(),
            completeness: Completeness::new(),
            counted: 0,
            delays: Delays::new(),
            time_quality: TimeQuality::new(),
        }
    }

    /// The source announced DATA_RATE and the resolution of FRACSEC; a resolution of 0 counts as 1.
    pub fn announce(&mut self, rate: i16, base: u32)
        ensures { self.new ≡ announced_to self.old rate base }
    {
        self.spans.announce(rate, base);
    }

    /// The source connected: the next frame begins a span, and what came since the source connected is counted from here.
    pub fn connect(&mut self)
        ensures { self.new ≡ at_connect self.old }
    {
        self.completeness
            .add(Tally::in_turn(self.spans.last() - self.counted));
        self.completeness.connect();
        self.spans.connect();
        self.counted = self.spans.last();
    }

    /// This machine's clock has come to a second since 1970-01-01 00:00 UTC: what was noted in the second before is filed. The answer is whether another
    /// second began.
    #[inline(always)]
    pub fn come_to(&mut self, second: u64) -> bool
        ensures frames { self.new ≡ at_second self.old second }
        ensures began { result ≡ not (second == self.old.completeness.second) }
    {
        let begins = second != self.completeness.second;
        if begins {
            self.roll(second);
        }
        begins
    }

    /// Another second of this machine's clock begins.
    #[inline(never)]
    fn roll(&mut self, second: u64)
        ensures { self.new ≡ at_roll self.old second }
    {
        self.completeness
            .add(Tally::in_turn(self.spans.last() - self.counted));
        self.counted = self.spans.last();
        self.completeness.roll(second);
        self.delays.roll(second);
    }

    /// A data frame of this time came, read when this machine's clock stood at `clock` milliseconds since 1970-01-01 00:00 UTC, in the second to which the
    /// clock has come.
    #[inline(always)]
    pub fn note(&mut self, time: &FrameTime, clock: u64)
        ensures { self.new ≡ with_frame self.old time.now clock }
    {
        self.note_instant(time);
        self.delays
            .note(delay_of(clock, time.millis(self.spans.base())));
        self.time_quality.note(time.quality);
    }

    /// A data frame of this instant came.
    #[tactic(auto, using(crate::proofs::Turns::in_turn_more))]
    #[inline(always)]
    fn note_instant(&mut self, time: &FrameTime)
        ensures { self.new ≡ with_instant self.old time.now }
    {
        if !self.spans.take_next(time) {
            self.note_other(time);
        }
    }

    /// A data frame came of which it is not known that it is of the instant behind the last.
    #[inline(never)]
    fn note_other(&mut self, time: &FrameTime)
        ensures { self.new ≡ with_instant self.old time.now }
    {
        self.completeness
            .add(Tally::in_turn(self.spans.last() - self.counted));
        let place = self.spans.take(time);
        self.counted = self.spans.last();
        self.completeness.add(Tally::of(place, self.spans.rate()));
    }

    /// DATA_RATE.
    pub fn rate(&self) -> i16
        ensures { result ≡ self.now.spans.rate }
    {
        self.spans.rate()
    }

    /// What was counted of all spans of its instants.
    pub fn span_counts(&self) -> SpanCounts
        ensures { result ≡ self.now.spans.counts }
    {
        self.spans.counts()
    }

    /// How many of its instants came.
    pub fn completeness(&self) -> Completeness
        ensures { result ≡ self.now.completeness }
    {
        let mut completeness = self.completeness;
        completeness.add(Tally::in_turn(self.spans.last() - self.counted));
        completeness
    }

    /// How long its frames took.
    pub fn delays(&self) -> &Delays
        ensures { result.now ≡ self.now.delays }
    {
        &self.delays
    }

    /// Their time quality.
    pub fn time_quality(&self) -> TimeQuality
        ensures { result ≡ self.now.time_quality }
    {
        self.time_quality
    }
}
