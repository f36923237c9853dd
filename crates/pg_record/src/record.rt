//! A record: what was posted at a place of the history, and how it was answered.

ghost use Rattle.std.specs.Prelude.{◌≡◌, IfSome, option_map};
ghost use Rattle.pg_record.specs.Records.{end_bytes, kind_number, kind_of, record_in, start_bytes};

use crate::numbers::{eight, four, one, two};

/// How many bytes a record has beside its body.
pub const AROUND_BODY: usize = 22;

/// The answer of a call that was done.
pub const DONE: u8 = 0;

/// The answer of a call that was done, and of which a frame was lost for lack of memory.
pub const LOST: u8 = 255;

/// What was posted.
#[derive(Clone, Copy, PartialEq, Eq)]
pub enum RecordKind {
    /// A measurement of a source. The body is SOC and FRACSEC, and behind them the blocks of the data frame (C37.118.2, 6.3).
    Measurement,
    /// A configuration that a source announced. The body is the frame CFG-2.
    Configuration,
    /// A command of a subscriber. The body is IDCODE and CMD (C37.118.2, 6.6).
    Command,
    /// An edit of an operator. The body is its line in a script.
    Edit,
    /// A tick of the clock. The body is SOC.
    Tick,
    /// A subscriber connects.
    Connect,
    /// A subscriber's connection has ended.
    Hangup,
    /// A drain for a subscriber. The body is the number of bytes that there was room for, in four bytes.
    Drain,
    /// A question, which changes nothing.
    Question,
    /// A call that no line of a script says.
    Unspelled,
}

impl RecordKind {
    /// Its number in a record.
    pub fn number(self) -> u8
        ensures { result ≡ kind_number self }
    {
        match self {
            RecordKind::Measurement => 1,
            RecordKind::Configuration => 2,
            RecordKind::Command => 3,
            RecordKind::Edit => 4,
            RecordKind::Tick => 5,
            RecordKind::Connect => 6,
            RecordKind::Hangup => 7,
            RecordKind::Drain => 8,
            RecordKind::Question => 9,
            RecordKind::Unspelled => 10,
        }
    }

    /// The kind with this number, or none.
    pub fn of(number: u8) -> Option<RecordKind>
        ensures kind { IfSome result (λ kind. kind_number kind ≡ number) }
        ensures exact { result ≡ kind_of number }
    {
        match number {
            1 => Some(RecordKind::Measurement),
            2 => Some(RecordKind::Configuration),
            3 => Some(RecordKind::Command),
            4 => Some(RecordKind::Edit),
            5 => Some(RecordKind::Tick),
            6 => Some(RecordKind::Connect),
            7 => Some(RecordKind::Hangup),
            8 => Some(RecordKind::Drain),
            9 => Some(RecordKind::Question),
            10 => Some(RecordKind::Unspelled),
            _ => None,
        }
    }
}

/// A record, but for its body.
#[derive(Clone, Copy, PartialEq, Eq)]
pub struct Record {
    /// What was posted.
    pub kind: RecordKind,
    /// The IDCODE of the source, or the number of the subscriber, or 0.
    pub number: u16,
    /// How many calls came before it, of all threads.
    pub place: u64,
    /// When it was posted: milliseconds since the start of its block; 65,535 is that many or more.
    pub at: u16,
    /// `DONE`, `LOST`, or the number of the refusal.
    pub answer: u8,
    /// How many bytes a drain handed out.
    pub handed: u16,
    /// The sum over these bytes.
    pub sum: u32,
}

/// What stands before a record's body: its kind, its number and how many bytes the body has.
pub fn record_start(kind: RecordKind, number: u16, len: u16) -> [u8; 5]
    ensures { result ≡ start_bytes kind number len }
{
    let [number_high, number_low] = number.to_be_bytes();
    let [len_high, len_low] = len.to_be_bytes();
    [kind.number(), number_high, number_low, len_high, len_low]
}

/// What stands behind a record's body: its place, its time, its answer, and what it handed out.
pub fn record_end(entry: &Record) -> [u8; 17]
    ensures { result ≡ end_bytes entry.now }
{
    let [
        place_0,
        place_1,
        place_2,
        place_3,
        place_4,
        place_5,
        place_6,
        place_7,
    ] = entry.place.to_be_bytes();
    let [at_high, at_low] = entry.at.to_be_bytes();
    let [handed_high, handed_low] = entry.handed.to_be_bytes();
    let [sum_0, sum_1, sum_2, sum_3] = entry.sum.to_be_bytes();
    [
        place_0,
        place_1,
        place_2,
        place_3,
        place_4,
        place_5,
        place_6,
        place_7,
        at_high,
        at_low,
        entry.answer,
        handed_high,
        handed_low,
        sum_0,
        sum_1,
        sum_2,
        sum_3,
    ]
}

/// The record with which these bytes begin, its body, and the bytes behind it. None where they begin with no whole record of a known
/// kind.
pub fn read_record(bytes: &[u8]) -> Option<(Record, &[u8], &[u8])>
    ensures exact { option_map (λ r. (r.0, r.1.now, r.2.now)) result ≡ record_in bytes.now }
{
    let (kind, rest) = one(bytes)?;
    let kind = RecordKind::of(kind)?;
    let (number, rest) = two(rest)?;
    let (len, rest) = two(rest)?;
    let (body, rest) = rest.split_at_checked(usize::from(len))?;
    let (place, rest) = eight(rest)?;
    let (at, rest) = two(rest)?;
    let (answer, rest) = one(rest)?;
    let (handed, rest) = two(rest)?;
    let (sum, rest) = four(rest)?;
    let record = Record {
        kind,
        number,
        place,
        at,
        answer,
        handed,
        sum,
    };
    Some((record, body, rest))
}
