//! A span: a run of instants with no jump between them.
ghost use Rattle.std.specs.Prelude.{◌≡◌};
ghost use Rattle.std.specs.Ordering.{int_eq};
ghost use Rattle.pg_quality.specs.Counting.{more};
ghost use Rattle.pg_quality.specs.Placing.{begun_at, counted, jump_of, moved, no_counts, no_span, place_after, place_before, place_of, span_with};

/// An instant that is further than so many seconds from the last one, either way, jumps: it begins a new span. Where DATA_RATE is in seconds a frame,
/// it does so if it is further than so many frames.
pub const JUMP_SECONDS: u64 = 60;

/// Of how many instants it is known whether they came.
const KNOWN: u64 = 64;

/// How the instant of a frame stands to those that came before it.
#[derive(Clone, Copy, PartialEq, Eq)]
pub enum Place {
    /// It begins a span: the first of a connection, one of another DATA_RATE, or one whose stamp jumps.
    First,
    /// It is so many instants after the last one: 1 where none is missing.
    After(u64),
    /// It is before the last one, and had not come.
    Before,
    /// It had come.
    Repeated,
    /// It is before the last one by 64 instants or more, so that it is not known whether it had come, or before the first one of the span.
    Forgotten,
    /// DATA_RATE is 0: there are no instants.
    Unnumbered,
}

/// A span: its DATA_RATE, its last instant, and which of the last 64 came.
#[derive(Clone, Copy)]
pub struct Span {
    /// DATA_RATE: frames a second where positive, seconds a frame where negative.
    pub rate: i16,
    /// How many instants further is no jump.
    pub jump: u64,
    /// The number of its first instant.
    pub first: u64,
    /// The number of its last instant.
    pub last: u64,
    /// Bit k is set where the instant k before the last one came; 0 before the first frame.
    pub came: u64,
}

impl Span {
    /// Before the first frame of a connection.
    pub fn none() -> Span
        ensures { result ≡ no_span }
    {
        Span {
            rate: 0,
            jump: 0,
            first: 0,
            last: 0,
            came: 0,
        }
    }

    /// A frame came, and begins a span.
    fn begin(rate: i16, instant: u64) -> Span
        ensures { result ≡ begun_at rate instant }
    {
        Span {
            rate,
            jump: jump_of(rate),
            first: instant,
            last: instant,
            came: 1,
        }
    }

    /// How an instant of this DATA_RATE stands to those of the span.
    pub fn place(&self, rate: i16, instant: u64) -> Place
        ensures { result ≡ place_of self.now rate instant }
    {
        if !is_same(rate, self.rate) {
            Place::First
        } else if instant > self.last {
            self.place_after(instant - self.last)
        } else if self.came == 0 {
            Place::First
        } else if is_same(rate, 0) {
            Place::Unnumbered
        } else {
            self.place_before(self.last - instant)
        }
    }

    /// How an instant stands that is so many after the last one.
    fn place_after(&self, steps: u64) -> Place
        ensures { result ≡ place_after self.now steps }
    {
        if steps > self.jump {
            Place::First
        } else {
            Place::After(steps)
        }
    }

    /// How an instant stands that is so many before the last one.
    fn place_before(&self, steps: u64) -> Place
        ensures { result ≡ place_before self.now steps }
    {
        if steps > self.jump {
            Place::First
        } else if steps >= KNOWN || steps > self.last.saturating_sub(self.first) {
            Place::Forgotten
        } else if (self.came >> steps) % 2 == 1 {
            Place::Repeated
        } else {
            Place::Before
        }
    }

    /// The span once an instant has come, which stands so to those before it.
    pub(crate) fn with(self, rate: i16, instant: u64, place: Place) -> Span
        ensures { result ≡ span_with self rate instant place }
    {
        match place {
            Place::First => Span::begin(rate, instant),
            Place::After(steps) => Span {
                last: instant,
                came: moved(self.came, steps) | 1,
                ..self
            },
            Place::Before => Span {
                came: self.came | moved(1, self.last.saturating_sub(instant)),
                ..self
            },
            Place::Repeated => self,
            Place::Forgotten => self,
            Place::Unnumbered => self,
        }
    }
}

/// Whether two signed numbers are the same.
#[inline(always)]
pub(crate) fn is_same(one: i16, other: i16) -> bool
    ensures { result ≡ int_eq one other }
{
    one == other
}

/// How many instants further is no jump yet.
fn jump_of(rate: i16) -> u64
    ensures { result ≡ jump_of rate }
{
    JUMP_SECONDS * u64::from(rate.max(1).unsigned_abs())
}

/// Bits moved up by so many places.
#[inline(always)]
pub(crate) fn moved(bits: u64, places: u64) -> u64
    ensures { result ≡ moved bits places }
{
    if places < KNOWN { bits << places } else { 0 }
}

/// What was counted of all spans of a source. Each number stays at 2^64 - 1 once it is there.
#[derive(Clone, Copy)]
pub struct SpanCounts {
    /// How many spans began.
    pub begun: u64,
    /// Frames of an instant that had come.
    pub repeated: u64,
    /// Frames of an instant before the last one that had not come, or of which that is not known.
    pub out_of_order: u64,
}

impl SpanCounts {
    /// Before the first frame.
    pub(crate) fn new() -> SpanCounts
        ensures { result ≡ no_counts }
    {
        SpanCounts {
            begun: 0,
            repeated: 0,
            out_of_order: 0,
        }
    }

    /// The counts with a frame that stands so to those before it.
    pub(crate) fn with(self, place: Place) -> SpanCounts
        ensures { result ≡ counted self place }
    {
        match place {
            Place::First => SpanCounts {
                begun: self.begun.saturating_add(1),
                ..self
            },
            Place::Repeated => SpanCounts {
                repeated: self.repeated.saturating_add(1),
                ..self
            },
            Place::Before => self.with_disorder(),
            Place::Forgotten => self.with_disorder(),
            Place::After(_) => self,
            Place::Unnumbered => self,
        }
    }

    /// The counts with a frame that came out of order.
    fn with_disorder(self) -> SpanCounts
        ensures { result ≡ record self { out_of_order = more self.out_of_order 1 } }
    {
        SpanCounts {
            out_of_order: self.out_of_order.saturating_add(1),
            ..self
        }
    }
}
