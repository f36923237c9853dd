//! The lines of a script.
ghost use Rattle.std.specs.Prelude.{◌≡◌, ◌≢◌, ◌⊎◌, IfOk, IfErr, Some, None, map, option_map};
ghost use Rattle.pg_lines.specs.Words.{number_in, pmu_id_in, subscriber_in};
ghost use Rattle.pg_lines.specs.Lines.{one, two};
ghost use Rattle.pg_replay.specs.Lines.{asked_in, asked, kind_of, line_by, text_asks};

use pg_lines::words::{self, frame_bytes};
use pg_lines::{is_comment, parse_line, words_of};
use pg_serve::Input;
use pg_wire::{PmuId, Refusal, SubId};
use std::alloc::Global;

/// What a line of a script asks for.
#[derive(Drop)]
pub enum Line {
    /// Nothing: an empty line, or a comment.
    Nothing,
    /// The world is handed this.
    Handed(Input),
    /// What waits for a subscriber is to be printed.
    Queue(SubId),
    /// What a source's link counted is to be printed.
    LinkStats(PmuId),
    /// What a subscriber's session counted is to be printed.
    SessionStats(SubId),
}

/// The first word of a line that is no operator's.
#[derive(Clone, Copy, Debug, PartialEq, Eq)]
pub(crate) enum Kind {
    Pmu,
    Sub,
    Drain,
    Tick,
    LinkUp,
    Connect,
    Hangup,
    Queue,
    LinkStats,
    SessionStats,
}

impl Kind {
    /// The kind that is written so.
    fn of(word: &str) -> Option<Kind>
        ensures value { result ≡ kind_of word.now }
    {
        let kind = match word {
            "pmu" => Kind::Pmu,
            "sub" => Kind::Sub,
            "drain" => Kind::Drain,
            "tick" => Kind::Tick,
            "linkup" => Kind::LinkUp,
            "connect" => Kind::Connect,
            "hangup" => Kind::Hangup,
            "queue" => Kind::Queue,
            "linkstats" => Kind::LinkStats,
            "sessionstats" => Kind::SessionStats,
            _ => return None,
        };
        Some(kind)
    }
}

/// What a line asks for. An empty line asks for nothing, and so does a comment, whose first word begins with `#`, whatever
/// its bytes are. Words are separated by spaces, and spaces at either end are ignored.
///
/// # Errors
///
/// `BadLine` where it asks for nothing that a line may; `NoMemory`.
pub fn read_line(alloc: Global, line: &[u8]) -> Result<Line, Refusal>
    ensures found { IfOk result (λ l. asked_in line.now ≡ Some (asked l)) }
    ensures refused { IfErr result (λ r. (r ≡ Refusal.NoMemory) ⊎ ((r ≡ Refusal.BadLine) × (asked_in line.now ≡ None))) }
{
    if is_comment(line) {
        return Ok(Line::Nothing);
    }
    let Ok(text) = str::from_utf8(line) else {
        return Err(Refusal::BadLine);
    };
    read_text(alloc, text)
}

/// What a text asks for.
fn read_text(alloc: Global, text: &str) -> Result<Line, Refusal>
    ensures found { IfOk result (λ l. text_asks text.now ≡ Some (asked l)) }
    ensures refused { IfErr result (λ r. (r ≡ Refusal.NoMemory) ⊎ ((r ≡ Refusal.BadLine) × (text_asks text.now ≡ None))) }
{
    let words = words_of(alloc, text)?;
    let [verb, args @ ..] = words.as_slice() else {
        return Ok(Line::Nothing);
    };
    match Kind::of(verb) {
        Some(kind) => line_by(alloc, kind, args),
        None => match parse_line(alloc, text) {
            Ok(edit) => Ok(Line::Handed(Input::Edit(edit))),
            Err(refusal) => Err(refusal),
        },
    }
}

/// What the words after a first word of this kind ask for.
fn line_by(alloc: Global, kind: Kind, args: &[&str]) -> Result<Line, Refusal>
    ensures found { IfOk result (λ l. line_by kind (map (λ w. w.now) args.now) ≡ Some (asked l)) }
    ensures refused { IfErr result (λ r. (r ≡ Refusal.NoMemory) ⊎ ((r ≡ Refusal.BadLine) × (line_by kind (map (λ w. w.now) args.now) ≡ None))) }
{
    match kind {
        Kind::Pmu => source_bytes(alloc, args),
        Kind::Sub => subscriber_bytes(alloc, args),
        _ => match short_line(kind, args) {
            Some(line) => Ok(line),
            None => Err(Refusal::BadLine),
        },
    }
}

/// Bytes of a source: `S HEX`.
fn source_bytes(alloc: Global, args: &[&str]) -> Result<Line, Refusal>
    ensures found { IfOk result (λ l. line_by Kind.Pmu (map (λ w. w.now) args.now) ≡ Some (asked l)) }
    ensures refused { IfErr result (λ r. (r ≡ Refusal.NoMemory) ⊎ ((r ≡ Refusal.BadLine) × (line_by Kind.Pmu (map (λ w. w.now) args.now) ≡ None))) }
{
    let [source, hex] = args else {
        return Err(Refusal::BadLine);
    };
    let Some(source) = words::pmu_id(source) else {
        return Err(Refusal::BadLine);
    };
    match frame_bytes(alloc, hex.as_bytes()) {
        Ok(bytes) => Ok(Line::Handed(Input::PmuBytes(source, bytes))),
        Err(refusal) => Err(refusal),
    }
}

/// Bytes of a subscriber: `U HEX`.
fn subscriber_bytes(alloc: Global, args: &[&str]) -> Result<Line, Refusal>
    ensures found { IfOk result (λ l. line_by Kind.Sub (map (λ w. w.now) args.now) ≡ Some (asked l)) }
    ensures refused { IfErr result (λ r. (r ≡ Refusal.NoMemory) ⊎ ((r ≡ Refusal.BadLine) × (line_by Kind.Sub (map (λ w. w.now) args.now) ≡ None))) }
{
    let [subscriber, hex] = args else {
        return Err(Refusal::BadLine);
    };
    let Some(subscriber) = words::subscriber(subscriber) else {
        return Err(Refusal::BadLine);
    };
    match frame_bytes(alloc, hex.as_bytes()) {
        Ok(bytes) => Ok(Line::Handed(Input::SubBytes(subscriber, bytes))),
        Err(refusal) => Err(refusal),
    }
}

/// The same for each kind but those two; it takes no memory.
fn short_line(kind: Kind, args: &[&str]) -> Option<Line>
    ensures value { kind ≢ Kind.Pmu → kind ≢ Kind.Sub → option_map asked result ≡ line_by kind (map (λ w. w.now) args.now) }
{
    let line = match kind {
        Kind::Pmu => return None,
        Kind::Sub => return None,
        Kind::Drain => {
            let (subscriber, size) = subscriber_and_size(args)?;
            Line::Handed(Input::Drain(subscriber, size))
        }
        Kind::Tick => Line::Handed(Input::Tick(soc(args)?)),
        Kind::LinkUp => Line::Handed(Input::LinkUp(source(args)?)),
        Kind::Connect => Line::Handed(Input::Connect(subscriber(args)?)),
        Kind::Hangup => Line::Handed(Input::Hangup(subscriber(args)?)),
        Kind::Queue => Line::Queue(subscriber(args)?),
        Kind::LinkStats => Line::LinkStats(source(args)?),
        Kind::SessionStats => Line::SessionStats(subscriber(args)?),
    };
    Some(line)
}

/// The word `S`.
fn source(args: &[&str]) -> Option<PmuId>
    ensures value { result ≡ one pmu_id_in (map (λ w. w.now) args.now) }
{
    let [source] = args else {
        return None;
    };
    words::pmu_id(source)
}

/// The word `U`.
fn subscriber(args: &[&str]) -> Option<SubId>
    ensures value { result ≡ one subscriber_in (map (λ w. w.now) args.now) }
{
    let [subscriber] = args else {
        return None;
    };
    words::subscriber(subscriber)
}

/// The words `U N`.
fn subscriber_and_size(args: &[&str]) -> Option<(SubId, u16)>
    ensures value { result ≡ two subscriber_in (number_in 0 65535) (map (λ w. w.now) args.now) }
{
    let [subscriber, size] = args else {
        return None;
    };
    let subscriber = words::subscriber(subscriber)?;
    Some((subscriber, words::number(size, 0, 65_535)? as u16))
}

/// The word `SOC`.
fn soc(args: &[&str]) -> Option<u32>
    ensures value { result ≡ one (number_in 0 4294967295) (map (λ w. w.now) args.now) }
{
    let [soc] = args else {
        return None;
    };
    words::number(soc, 0, u32::MAX)
}
