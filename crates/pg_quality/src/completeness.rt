//! Completeness: how many of the instants of DATA_RATE came.
ghost use Rattle.std.specs.Prelude.{◌≡◌, ◌*◌, ◌/◌, ◌<◌};
ghost use Rattle.pg_quality.specs.Tallies.{both, completeness_of, filed_at, filed_since, filed_with, in_minute, in_second, in_turn, is_within, last_hour, last_minute, no_row, nothing, nothing_came, rolled, tally_of, with_current, with_row, with_tally};

use crate::span::{Place, is_same};

/// How many rows of seconds and of minutes are kept.
const ROWS: u64 = 60;

/// Instants that are expected, and those for which a frame came.
#[derive(Clone, Copy, Debug, PartialEq, Eq)]
pub struct Tally {
    /// Instants between the first and the last stamp.
    pub expected: u64,
    /// Those of them for which a frame came; with DATA_RATE 0, frames.
    pub received: u64,
}

impl Tally {
    /// Nothing expected and nothing received.
    pub fn none() -> Tally
        ensures { result ≡ nothing }
    {
        Tally {
            expected: 0,
            received: 0,
        }
    }

    /// What so many frames add that each are of the instant behind the last.
    pub(crate) fn in_turn(frames: u64) -> Tally
        ensures { result ≡ in_turn frames }
    {
        Tally {
            expected: frames,
            received: frames,
        }
    }

    /// What a frame adds whose instant stands so to those before it.
    pub fn of(place: Place, rate: i16) -> Tally
        ensures { result ≡ tally_of place rate }
    {
        match place {
            Place::First => Tally::first(rate),
            Place::After(steps) => Tally {
                expected: steps,
                received: 1,
            },
            Place::Before => Tally {
                expected: 0,
                received: 1,
            },
            Place::Repeated => Tally::none(),
            Place::Forgotten => Tally::none(),
            Place::Unnumbered => Tally {
                expected: 0,
                received: 1,
            },
        }
    }

    /// What the first frame of a span adds.
    fn first(rate: i16) -> Tally
        ensures { result ≡ tally_of Place.First rate }
    {
        if is_same(rate, 0) {
            Tally {
                expected: 0,
                received: 1,
            }
        } else {
            Tally {
                expected: 1,
                received: 1,
            }
        }
    }

    /// Both together. Each number stays at 2^64 - 1 once it is there.
    pub fn with(self, other: Tally) -> Tally
        ensures { result ≡ both self other }
    {
        Tally {
            expected: self.expected.saturating_add(other.expected),
            received: self.received.saturating_add(other.received),
        }
    }

    /// Completeness: how many of those that are expected came, in tenths of a per cent and rounded down, so that 1,000 says that none is missing.
    /// `None` where nothing is expected.
    pub fn completeness(self) -> Option<u16>
        ensures { result ≡ completeness_of self }
    {
        if self.expected == 0 {
            None
        } else if self.received >= self.expected {
            Some(1_000)
        } else {
            Some(tenths_of(self.received, self.expected))
        }
    }
}

/// What came in one second or in one minute.
#[derive(Clone, Copy)]
pub struct Row {
    /// The number of the second or of the minute of this machine's clock, since 1970-01-01 00:00 UTC.
    pub number: u64,
    /// What came in it.
    pub tally: Tally,
}

impl Row {
    /// Nothing came.
    fn none() -> Row
        ensures { result ≡ no_row }
    {
        Row {
            number: 0,
            tally: Tally::none(),
        }
    }
}

/// What came of a source in each of the last 60 seconds, in each of the last 60 minutes, and since its source connected. Seconds and minutes are those of
/// this machine's clock.
#[derive(Clone, Copy)]
pub struct Completeness {
    /// The second to which this machine's clock has come.
    pub second: u64,
    /// What came in that second.
    pub current: Tally,
    /// What came in the seconds before it: that of second n in row n mod 60, where no later one took its place.
    pub seconds: [Row; 60],
    /// The same of minutes; that of the last one has what came up to the second before.
    pub minutes: [Row; 60],
    /// What came since the source connected, up to the second before.
    pub connected: Tally,
}

impl Completeness {
    /// Nothing came.
    pub fn new() -> Completeness
        ensures { result ≡ nothing_came }
    {
        Completeness {
            second: 0,
            current: Tally::none(),
            seconds: [Row::none(); 60],
            minutes: [Row::none(); 60],
            connected: Tally::none(),
        }
    }

    /// The source connected.
    pub fn connect(&mut self)
        ensures { self.new ≡ record (rolled self.old self.old.second) { connected = nothing } }
    {
        let second = self.second;
        self.roll(second);
        self.connected = Tally::none();
    }

    /// Another second of this machine's clock begins: the one before is filed.
    pub fn roll(&mut self, second: u64)
        ensures { self.new ≡ rolled self.old second }
    {
        file(&mut self.seconds, self.second, self.current);
        file(&mut self.minutes, self.second / 60, self.current);
        self.connected = self.connected.with(self.current);
        self.second = second;
        self.current = Tally::none();
    }

    /// Adds what came in the second to which the clock has come.
    pub fn add(&mut self, tally: Tally)
        ensures { self.new ≡ with_tally self.old tally }
    {
        self.current = self.current.with(tally);
    }

    /// What came in this second of this machine's clock, where it is kept.
    pub fn in_second(&self, second: u64) -> Tally
        ensures { result ≡ in_second self.now second }
    {
        self.with_current(second == self.second, filed_at(&self.seconds, second))
    }

    /// What came in this minute of this machine's clock, where it is kept.
    pub fn in_minute(&self, minute: u64) -> Tally
        ensures { result ≡ in_minute self.now minute }
    {
        self.with_current(minute == self.second / 60, filed_at(&self.minutes, minute))
    }

    /// What came in the 60 seconds up to this one, with it.
    pub fn last_minute(&self, second: u64) -> Tally
        ensures { result ≡ last_minute self.now second }
    {
        self.with_current(
            is_within(self.second, second),
            filed_since(&self.seconds, second),
        )
    }

    /// What came in the 60 minutes up to that of this second, with it.
    pub fn last_hour(&self, second: u64) -> Tally
        ensures { result ≡ last_hour self.now second }
    {
        self.with_current(
            is_within(self.second / 60, second / 60),
            filed_since(&self.minutes, second / 60),
        )
    }

    /// What is filed, with what came in the last second where that belongs to it.
    fn with_current(&self, belongs: bool, filed: Tally) -> Tally
        ensures { result ≡ with_current self.now belongs filed }
    {
        if belongs {
            filed.with(self.current)
        } else {
            filed
        }
    }

    /// What came since the source connected.
    pub fn since_connected(&self) -> Tally
        ensures { result ≡ both self.now.connected self.now.current }
    {
        self.connected.with(self.current)
    }
}

/// Completeness where one at least is missing.
#[tactic(auto, using(crate::proofs::Rounding::tenths_below))]
fn tenths_of(received: u64, expected: u64) -> u16
    requires { received < expected }
    ensures { result ≡ (received * 1000) / expected }
{
    (u128::from(received) * 1_000 / u128::from(expected)) as u16
}

/// Whether a second or minute is one of the 60 up to another, with it.
fn is_within(number: u64, last: u64) -> bool
    ensures { result ≡ is_within number last }
{
    number <= last && last - number < ROWS
}

/// Files what came in a second or minute: with what is filed for it, or in the place of another.
fn file(rows: &mut [Row; 60], number: u64, tally: Tally)
    ensures { rows.new ≡ filed_with rows.old number tally }
{
    let filed = filed_at(rows, number);
    rows[(number % ROWS) as usize] = Row {
        number,
        tally: filed.with(tally),
    };
}

/// What is filed for a second or minute.
fn filed_at(rows: &[Row; 60], number: u64) -> Tally
    ensures { result ≡ filed_at rows.now number }
{
    let row = rows[(number % ROWS) as usize];
    if row.number == number {
        row.tally
    } else {
        Tally::none()
    }
}

/// What is filed for the 60 seconds or minutes up to this one, with it.
fn filed_since(rows: &[Row; 60], last: u64) -> Tally
    ensures { result ≡ filed_since rows.now last }
{
    let mut total = Tally::none();
    for row in rows {
        total = with_row(last, total, *row);
    }
    total
}

/// A total with a row, where the row is one of the 60 up to this one.
fn with_row(last: u64, total: Tally, row: Row) -> Tally
    ensures { result ≡ with_row last total row }
{
    if is_within(row.number, last) {
        total.with(row.tally)
    } else {
        total
    }
}
