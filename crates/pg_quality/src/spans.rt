//! The spans of a source.
ghost use Rattle.std.specs.Prelude.{◌≡◌, ◌+◌, ◌<◌, pos, false, IsTrue};
ghost use Rattle.pg_quality.specs.NextStamps.{AreNextIfAny, is_among};
ghost use Rattle.pg_quality.specs.Placing.{announced, no_span, no_spans, place_in, taken};

use crate::frame_time::{FrameTime, instant_of};
use crate::span::{Place, Span, SpanCounts, is_same, moved};
use std::marker::Model;

/// The stamps that are of the instant behind the last one: those of this SOC whose numerator, `units` times, is from `from` on and less than `width`
/// behind it.
#[derive(Clone, Copy)]
pub(crate) struct NextStamps {
    /// SOC.
    soc: u32,
    /// Twice DATA_RATE.
    units: u32,
    /// Where they begin.
    from: u64,
    /// Twice the resolution, or 0: there are none.
    width: u64,
}

impl NextStamps {
    /// None.
    fn none() -> NextStamps
        ensures { (result.soc ≡ 0) × (result.width ≡ 0) }
    {
        NextStamps {
            soc: 0,
            units: 0,
            from: 0,
            width: 0,
        }
    }

    /// Those of this SOC that are of the instant behind the last one of a span, where DATA_RATE is in frames a second.
    #[tactic(auto, using(crate::proofs::Rounding::words_fit, crate::proofs::Stamps::begin_at))]
    fn after(span: &Span, rate: i16, base: u32, soc: u32) -> NextStamps
        requires { 0 < base }
        ensures { AreNextIfAny rate base span.now result }
    {
        if rate <= 0 || !is_same(span.rate, rate) || span.jump == 0 {
            return NextStamps::none();
        }
        let units = u32::from(rate.unsigned_abs());
        let base = u64::from(base);
        let start = u64::from(soc) * u64::from(units);
        if span.last < start || span.last - start > u64::from(units) {
            return NextStamps::none();
        }
        NextStamps {
            soc,
            units: 2 * units,
            from: (2 * (span.last - start) + 1) * base,
            width: 2 * base,
        }
    }

    /// Whether a stamp is one of them.
    #[inline(always)]
    #[tactic(auto, using(crate::proofs::Rounding::words_fit))]
    fn has(&self, time: &FrameTime) -> bool
        ensures { result ≡ is_among self.now time.now }
    {
        let place = u64::from(time.frac) * u64::from(self.units);
        time.soc == self.soc && place >= self.from && place - self.from < self.width
    }
}

/// The spans of a source, and what was counted of its instants.
#[derive(Drop)]
pub struct Spans {
    // DATA_RATE, and the resolution of FRACSEC.
    rate: i16,
    base: u32,
    span: Span,
    counts: SpanCounts,
    // Known without a division, as nearly each frame has one of them.
    next: NextStamps,
}

impl Model for Spans {
    ghost use Rattle.std.specs.Prelude.{◌<◌};
    ghost use Rattle.pg_quality.specs.NextStamps.{AreNextIfAny};
    ghost use Rattle.pg_quality.specs.Placing.{SpanState};

    ghost Value = { SpanState };

    ghost view = { λ s. record { rate = s.rate; base = s.base; span = s.span; counts = s.counts } };

    ghost invariant = { λ s. (0 < s.base) × AreNextIfAny s.rate s.base s.span s.next };
}

impl Spans {
    /// Before the first frame, and before the first announcement.
    pub fn new() -> Spans
        ensures { result ≡ no_spans }
    {
        Spans {
            rate: 0,
            base: 1,
            span: Span::none(),
            counts: SpanCounts::new(),
            next: NextStamps::none(),
        }
    }

    /// DATA_RATE and the resolution of FRACSEC were announced; a resolution of 0 counts as 1.
    pub fn announce(&mut self, rate: i16, base: u32)
        ensures { self.new ≡ announced self.old rate base }
    {
        self.next = NextStamps::none();
        self.rate = rate;
        self.base = base.max(1);
    }

    /// A connection begins: the next frame begins a span.
    pub fn connect(&mut self)
        ensures { self.new ≡ record self.old { span = no_span } }
    {
        self.next = NextStamps::none();
        self.span = Span::none();
    }

    /// DATA_RATE.
    pub fn rate(&self) -> i16
        ensures { result ≡ self.now.rate }
    {
        self.rate
    }

    /// The resolution of FRACSEC, which is never 0.
    #[inline(always)]
    pub fn base(&self) -> u32
        ensures value { result ≡ self.now.base }
        ensures above { 0 < result }
    {
        self.base
    }

    /// The number of the last instant.
    #[inline(always)]
    pub fn last(&self) -> u64
        ensures { result ≡ self.now.span.last }
    {
        self.span.last
    }

    /// What was counted of all spans.
    pub fn counts(&self) -> SpanCounts
        ensures { result ≡ self.now.counts }
    {
        self.counts
    }

    /// Takes a frame where it is known to be of the instant behind the last, as it mostly is. The answer is whether it is.
    #[tactic(auto, using(crate::proofs::Stamps::last_fits, crate::proofs::Stamps::from_fits, crate::proofs::Stamps::next_again))]
    #[inline(always)]
    pub fn take_next(&mut self, time: &FrameTime) -> bool
        ensures place { IsTrue result → place_in self.old time.now ≡ Place.After 1 }
        ensures spans { IsTrue result → self.new ≡ taken self.old time.now }
        ensures last { IsTrue result → self.new.span.last ≡ self.old.span.last + 1 }
        ensures same { result ≡ false → self.new ≡ self.old }
    {
        if !self.next.has(time) {
            return false;
        }
        self.next.from += self.next.width;
        self.span.last += 1;
        self.span.came = moved(self.span.came, 1) | 1;
        true
    }

    /// A frame of this time came. The answer is how it stands to those before it.
    #[tactic(auto, unfolding(crate::specs::Placing::instant_in))]
    pub fn take(&mut self, time: &FrameTime) -> Place
        ensures place { result ≡ place_in self.old time.now }
        ensures spans { self.new ≡ taken self.old time.now }
    {
        let instant = instant_of(self.rate, time.soc, time.frac, self.base);
        let place = self.span.place(self.rate, instant);
        self.span = self.span.with(self.rate, instant, place);
        self.counts = self.counts.with(place);
        self.next = NextStamps::after(&self.span, self.rate, self.base, time.soc);
        place
    }
}
