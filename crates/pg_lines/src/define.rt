//! The words of a line that defines a stream.
ghost use Rattle.std.specs.Prelude.{◌≡◌, ◌⊎◌, IfOk, IfErr, map, option_map, Some, None};
ghost use Rattle.pg_lines.specs.Lines.{header_in, keys_in, members_in, numbers_in, wide_in, define};

use crate::words;
use pg_gateway::Edit;
use pg_stream::{Definition, HeaderText, Members};
use pg_wire::{PmuKey, Refusal, StreamId};
use std::alloc::Global;

/// The most members of a line.
const MEMBER_LIMIT: usize = 32;

/// The edit of `U STREAM RATE BASE WAIT WINDOW HEADER MEMBER..`.
pub(crate) fn define(alloc: Global, args: &[&str]) -> Result<Edit, Refusal>
    ensures ok { IfOk result (λ e. define (map (λ w. w.now) args.now) ≡ Some e) }
    ensures err { IfErr result (λ r. (r ≡ Refusal.NoMemory) ⊎ ((r ≡ Refusal.BadLine) × (define (map (λ w. w.now) args.now) ≡ None))) }
{
    let [
        subscriber,
        stream,
        rate,
        base,
        wait,
        window,
        header,
        members @ ..,
    ] = args
    else {
        return Err(Refusal::BadLine);
    };
    let Some(subscriber) = words::subscriber(subscriber) else {
        return Err(Refusal::BadLine);
    };
    let Some(numbers) = numbers_in(stream, rate, base, wait, window) else {
        return Err(Refusal::BadLine);
    };
    let header = header_in(alloc, header)?;
    let members = members_in(alloc, members)?;
    Ok(Edit::Define(subscriber, numbers.with(header, members)))
}

/// The numbers of a definition, apart from its header and its members.
#[derive(Clone, Copy)]
pub struct Numbers {
    /// The stream's number.
    pub stream: StreamId,
    /// Slots a second.
    pub rate: u8,
    /// The resolution of its stamps, in parts of a second.
    pub base: u32,
    /// How many ticks a slot waits.
    pub wait: u32,
    /// How many slots may be open at once.
    pub window: u32,
}

impl Numbers {
    /// The definition with these numbers, this header and these members.
    pub fn with(self, header: HeaderText, members: Members) -> Definition
        ensures { result ≡ record { stream = self.stream; rate = self.rate; base = self.base; wait = self.wait; window = self.window; header = header; members = members } }
    {
        Definition {
            stream: self.stream,
            rate: self.rate,
            base: self.base,
            wait: self.wait,
            window: self.window,
            header,
            members,
        }
    }
}

/// A number of 32 bits.
fn wide(word: &str) -> Option<u32>
    ensures { result ≡ wide_in word.now }
{
    words::number(word, 0, u32::MAX)
}

/// The words `STREAM RATE BASE WAIT WINDOW`.
fn numbers_in(stream: &str, rate: &str, base: &str, wait: &str, window: &str) -> Option<Numbers>
    ensures { option_map (λ n header members. record { stream = n.stream; rate = n.rate; base = n.base; wait = n.wait; window = n.window; header = header; members = members }) result
        ≡ numbers_in stream.now rate.now base.now wait.now window.now }
{
    let stream = words::stream_id(stream)?;
    let rate = words::number(rate, 0, 255)? as u8;
    let base = wide(base)?;
    let wait = wide(wait)?;
    let window = wide(window)?;
    Some(Numbers {
        stream,
        rate,
        base,
        wait,
        window,
    })
}

/// The text of a header, in hexadecimal, or `none`.
fn header_in(alloc: Global, word: &str) -> Result<HeaderText, Refusal>
    ensures ok { IfOk result (λ text. header_in word.now ≡ Some text) }
    ensures err { IfErr result (λ r. (r ≡ Refusal.NoMemory) ⊎ ((r ≡ Refusal.BadLine) × (header_in word.now ≡ None))) }
{
    if word == "none" {
        return Ok(HeaderText::new(Vec::new(alloc)));
    }
    let bytes = words::hex_bytes(alloc, word.as_bytes())?;
    Ok(HeaderText::new(bytes))
}

/// One to 32 keys.
fn members_in(alloc: Global, args: &[&str]) -> Result<Members, Refusal>
    ensures ok { IfOk result (λ m. members_in (map (λ w. w.now) args.now) ≡ Some m) }
    ensures err { IfErr result (λ r. (r ≡ Refusal.NoMemory) ⊎ ((r ≡ Refusal.BadLine) × (members_in (map (λ w. w.now) args.now) ≡ None))) }
{
    if args.is_empty() || args.len() > MEMBER_LIMIT {
        return Err(Refusal::BadLine);
    }
    Ok(Members::new(keys_in(alloc, args)?))
}

/// The keys that the words are.
fn keys_in(alloc: Global, args: &[&str]) -> Result<Vec<PmuKey>, Refusal>
    ensures ok { IfOk result (λ keys. keys_in (map (λ w. w.now) args.now) ≡ Some keys.items) }
    ensures err { IfErr result (λ r. (r ≡ Refusal.NoMemory) ⊎ ((r ≡ Refusal.BadLine) × (keys_in (map (λ w. w.now) args.now) ≡ None))) }
{
    let mut keys = Vec::with_capacity(alloc, args.len())?;
    'words: for word in args {
        let Some(key) = words::key(word) else {
            return Err(Refusal::BadLine);
        };
        keys.push(key)?;
    }
    Ok(keys)
}
