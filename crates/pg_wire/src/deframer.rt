//! A stream of bytes, cut into frames as it comes (C37.118.2, 6.2).

ghost use Rattle.std.specs.Prelude.{◌≡◌, ℕ, ◌+◌, ◌-◌, ◌<◌, ◌≤◌, ◌↔◌, List, [], ◌++◌, length, take, drop, IfOk, IfErr, OnErr, IsTrue, Option, Some, None};
ghost use Rattle.pg_wire.specs.Frame.{IsWhole, break_of, size_of, skip_of};
ghost use Rattle.pg_wire.specs.Stream.{fresh, fed, ShowsStream};
ghost use Rattle.pg_wire.specs.NextFrame.{IsNextFrame};
ghost use Rattle.pg_wire.specs.Reads.{Gave, given_by};

use crate::checksum::check;
use crate::refusal::Refusal;
use std::alloc::Global;
use std::io;
use std::io::Read;
use std::marker::Model;

/// The most bytes that a deframer holds, and the most that FRAMESIZE can say.
pub const CAPACITY: usize = 65_535;

/// A buffer that cuts a stream into frames. It takes its memory when it is made, and none later.
///
/// A stream breaks where a frame's first byte is not 0xAA (`BadFirst`), its second has bit 7 set or type 6 or 7
/// (`BadSecond`), or FRAMESIZE is under 16 (`ShortSize`), in this order and as soon as these bytes are there.
/// Once broken, a deframer holds nothing, drops what it is fed and answers the same break until a reset.
#[derive(Drop)]
pub struct Deframer {
    /// `CAPACITY` bytes, so that a reader can write behind those that are held.
    bytes: Vec<u8>,
    /// Where the bytes that are held begin.
    start: usize,
    /// Where they end.
    end: usize,
    broken: Option<Refusal>,
}

impl Model for Deframer {
    ghost use Rattle.std.specs.Prelude.{◌≡◌, ◌-◌, ◌≤◌, take, drop, vec_len, OnSome};
    ghost use Rattle.pg_wire.specs.Stream.{Deframing};

    ghost Value = { Deframing };

    ghost view = { λ d. record { held = take (d.end - d.start) (drop d.start d.bytes.items); broken = d.broken } };

    ghost invariant = { λ d. (d.start ≤ d.end) × (d.end ≤ 65535) × (vec_len d.bytes ≡ 65535) × OnSome d.broken (d.start ≡ d.end) };
}

impl Deframer {
    ghost use Rattle.std.specs.Borrow.{sem};
    ghost use Rattle.pg_wire.specs.Taking.{GivesNext, TakesNext};

    /// A deframer of an empty stream, with room for `CAPACITY` bytes. The one refusal is `NoMemory`.
    pub fn new(alloc: Global) -> Result<Deframer, Refusal>
        ensures state { IfOk result (λ d. d ≡ fresh) }
        ensures shows { IfOk result (λ d. ShowsStream d [] []) }
        ensures memory { IfErr result (λ refusal. refusal ≡ Refusal.NoMemory) }
    {
        Ok(Deframer {
            bytes: vec![in alloc; 0; CAPACITY]?,
            start: 0,
            end: 0,
            broken: None,
        })
    }

    /// How many more bytes there is room for: `CAPACITY` less the bytes that are held.
    pub fn room(&self) -> usize
        ensures { result + length self.now.held ≡ 65535 }
    {
        CAPACITY - (self.end - self.start)
    }

    /// Takes the next piece of the stream, which is no longer than `room` says. A broken deframer drops it.
    ///
    /// Bytes of less than a frame are moved to the front only where the piece does not fit behind them.
    pub fn feed(&mut self, piece: &[u8])
        requires { length self.old.held + length piece.now ≤ 65535 }
        ensures state { self.new ≡ fed self.old piece.now }
        // Whatever stream it was fed before, it is fed the piece after it.
        ensures shows { (stream : List ℕ) (frames : List (List ℕ)) → ShowsStream self.old stream frames → ShowsStream self.new (stream ++ piece.now) frames }
    {
        if self.broken.is_some() {
            return;
        }
        let held = self.end - self.start;
        self.start = make_room(&mut self.bytes, self.start, self.end, piece.len());
        let at = self.start + held;
        put_at(&mut self.bytes, at, piece);
        self.end = at + piece.len();
    }

    /// Reads once, at most `most` bytes and no more than `room` says, straight behind the bytes that are held: the next piece of
    /// the stream. A broken deframer drops what it reads. It returns how many bytes came, 0 only where the reader has ended, or the
    /// reader's error, and then nothing has changed.
    ///
    /// Bytes of less than a frame are moved to the front only where so many do not fit behind them.
    pub fn read_from<R: Read>(&mut self, reader: &mut R, most: usize) -> io::Result<usize>
        requires some { 0 < most }
        requires room { length self.old.held < 65535 }
        ensures small { IfOk result (λ n. n ≤ most) }
        ensures read { (piece : List ℕ) × Gave (R.remaining reader.old) (R.remaining reader.new) result piece × (self.new ≡ fed self.old piece)
            × ((stream : List ℕ) (frames : List (List ℕ)) → ShowsStream self.old stream frames → ShowsStream self.new (stream ++ piece) frames) }
        ensures err { OnErr result (self.new ≡ self.old) }
    {
        let held = self.end - self.start;
        let size = most.min(CAPACITY - held);
        self.start = make_room(&mut self.bytes, self.start, self.end, size);
        self.end = self.start + held;
        let read = read_at(reader, &mut self.bytes, self.end, size)?;
        if self.broken.is_some() {
            return Ok(read);
        }
        self.end += read;
        Ok(read)
    }

    /// What comes next of the stream: a frame, or that one was skipped, that it broke, or that more bytes have to come.
    ///
    /// The frame stays where it is; it is gone from what the deframer holds.
    pub fn next(&mut self) -> Taken<'_>
        ensures* after { sem 𝓛 (GivesNext self.entry result) }
    {
        self.take()
    }

    /// One step of `next`.
    fn take(&mut self) -> Taken<'_>
        ensures* after { sem 𝓛 (TakesNext self.entry result) }
    {
        if let Some(refusal) = self.broken {
            return Taken::Broken(refusal);
        }
        match next_frame(&self.bytes[self.start..self.end]) {
            NextFrame::Partial => Taken::More,
            NextFrame::Break(refusal) => {
                self.start = 0;
                self.end = 0;
                self.broken = Some(refusal);
                Taken::Broken(refusal)
            }
            NextFrame::Whole(size) => {
                let start = self.start;
                self.start += size;
                let frame = &self.bytes[start..self.end][..size];
                match skip_reason(frame) {
                    None => Taken::Frame(frame),
                    Some(refusal) => Taken::Skipped(refusal),
                }
            }
        }
    }

    /// Starts anew, on an empty stream. It keeps its memory.
    pub fn reset(&mut self)
        ensures state { self.new ≡ fresh }
        ensures shows { ShowsStream self.new [] [] }
    {
        self.start = 0;
        self.end = 0;
        self.broken = None;
    }
}

/// What comes next of a stream.
#[derive(Clone, Copy)]
pub enum Taken<'a> {
    /// A whole frame with a right CHK and version 1 or 2.
    Frame(&'a [u8]),
    /// A whole frame was left out: its CHK is wrong (`BadCheck`), or else its version is neither 1 nor 2 (`BadVersion`).
    Skipped(Refusal),
    /// No whole frame is held, and none is broken: more bytes have to come.
    More,
    /// No frame can come until a reset, since the stream broke: `BadFirst`, `BadSecond` or `ShortSize`.
    Broken(Refusal),
}

/// What stands where a frame is to begin: a whole one of this size, a part of one, or a break.
#[derive(Clone, Copy)]
enum NextFrame {
    Whole(usize),
    Partial,
    Break(Refusal),
}

/// Moves the bytes from start to end to the front, where so many more do not fit behind them: where they begin now.
fn make_room(bytes: &mut [u8], start: usize, end: usize, more: usize) -> usize
    requires order { start ≤ end }
    requires within { end ≤ length bytes.old }
    requires room { end - start + more ≤ length bytes.old }
    ensures fits { result + (end - start) + more ≤ length bytes.old }
    ensures held { take (end - start) (drop result bytes.new) ≡ take (end - start) (drop start bytes.old) }
{
    if start < end && more <= bytes.len() - end {
        return start;
    }
    bytes.copy_within(start..end, 0);
    0
}

/// Writes a piece from `at` on.
fn put_at(bytes: &mut [u8], at: usize, piece: &[u8])
    requires { at + length piece.now ≤ length bytes.old }
    ensures { take (at + length piece.now) bytes.new ≡ take at bytes.old ++ piece.now }
{
    bytes[at..at + piece.len()].copy_from_slice(piece);
}

/// Reads once, into `size` bytes from `at` on.
fn read_at<R: Read>(reader: &mut R, bytes: &mut [u8], at: usize, size: usize) -> io::Result<usize>
    requires within { at + size ≤ length bytes.old }
    requires some { 0 < size }
    ensures small { IfOk result (λ n. n ≤ size) }
    ensures front { take at bytes.new ≡ take at bytes.old }
    ensures read { (piece : List ℕ) × Gave (R.remaining reader.old) (R.remaining reader.new) result piece × (take (at + given_by result) bytes.new ≡ take at bytes.old ++ piece) }
{
    reader.read(&mut bytes[at..at + size])
}

/// The break that shows at a frame's place.
fn break_at(bytes: &[u8]) -> Option<Refusal>
    ensures { result ≡ break_of bytes.now }
{
    if bytes.len() > 0 && bytes[0] != 0xAA {
        return Some(Refusal::BadFirst);
    }
    if bytes.len() > 1 && bytes[1] >= 0x60 {
        return Some(Refusal::BadSecond);
    }
    if bytes.len() > 3 && size_at(bytes) < 16 {
        return Some(Refusal::ShortSize);
    }
    None
}

/// The length that a frame says that it has.
fn size_at(bytes: &[u8]) -> usize
    requires { 4 ≤ length bytes.now }
    ensures { result ≡ size_of bytes.now }
{
    256 * usize::from(bytes[2]) + usize::from(bytes[3])
}

/// What stands at a frame's place.
fn next_frame(bytes: &[u8]) -> NextFrame
    ensures { IsNextFrame bytes.now result }
{
    if let Some(refusal) = break_at(bytes) {
        return NextFrame::Break(refusal);
    }
    if bytes.len() < 4 {
        return NextFrame::Partial;
    }
    let size = size_at(bytes);
    if bytes.len() < size {
        NextFrame::Partial
    } else {
        NextFrame::Whole(size)
    }
}

/// Why a whole frame is skipped, if it is.
fn skip_reason(frame: &[u8]) -> Option<Refusal>
    requires { IsWhole frame.now }
    ensures { result ≡ skip_of frame.now }
{
    let end = frame.len() - 2;
    let sent = 256 * u16::from(frame[end]) + u16::from(frame[end + 1]);
    if sent != check(&frame[..end]) {
        return Some(Refusal::BadCheck);
    }
    match frame[1] % 16 {
        1 | 2 => None,
        _ => Some(Refusal::BadVersion),
    }
}

/// Whether the bytes are one frame, with a right CHK and version 1 or 2, and nothing else.
pub fn is_frame(bytes: &[u8]) -> bool
    ensures { IsTrue result ↔ (IsWhole bytes.now × (skip_of bytes.now ≡ None)) }
{
    matches!(next_frame(bytes), NextFrame::Whole(size) if size == bytes.len() && skip_reason(bytes).is_none())
}
