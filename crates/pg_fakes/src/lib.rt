//! For tests: a reader and a writer over memory that can fail or block at one call; a gate that keeps the events posted to it; edits as text;
//! and a function that takes all memory.
#![tactic(auto)]

ghost use Rattle.std.specs.Prelude.{◌≡◌, ◌≤◌, length, drop, Some};

mod lines;

pub use crate::lines::edit_line;
use pg_gateway::{Event, Gate, Reply};
use pg_ring::Drained;
use std::alloc::Global;
use std::io;
use std::io::{ErrorKind, Read, Write};

/// The pieces that memory is taken in, at most.
const PIECES: usize = 40_000;

/// Takes all memory that there is, down to the last byte, until the pieces that it answers are dropped. None where there is no memory for
/// the list of them, or they are more than 40,000.
pub fn all_memory(alloc: Global) -> Option<Vec<Vec<u8>>> {
    let mut held = match Vec::with_capacity(alloc, PIECES) {
        Ok(held) => held,
        Err(_) => return None,
    };
    let mut size: usize = 1 << 46;
    for _ in 0..PIECES {
        if size == 0 {
            return Some(held);
        }
        match Vec::with_capacity(alloc, size) {
            Ok(piece) => {
                if held.push(piece).is_err() {
                    return None;
                }
            }
            Err(_) => size /= 2,
        }
    }
    None
}

/// A reader over bytes, of at most `most` at a read (0 counts as 1). Its call number `fails_at`, from 1 on, gives an error of
/// this kind and takes nothing; 0 is no call.
#[derive(Drop)]
pub struct FakeReader<'a> {
    /// The bytes that were not read yet.
    pub left: &'a [u8],
    /// The most bytes of one read.
    pub most: usize,
    /// How many reads there were.
    pub calls: u32,
    /// The read that fails.
    pub fails_at: u32,
    /// How it fails.
    pub kind: ErrorKind,
}

impl Read for FakeReader<'_> {
    ghost remaining = { λ t. Some t.left.now };

    fn read(&mut self, buf: &mut [u8]) -> io::Result<usize> {
        self.calls = self.calls.saturating_add(1);
        if self.calls == self.fails_at {
            return Err(io::Error::from(self.kind));
        }
        let room = buf.len().min(self.most.max(1));
        self.left.read(&mut buf[..room])
    }
}

/// A writer that takes at most `most` bytes at a write. Its call number `fails_at`, from 1 on, gives an error of this kind and
/// takes nothing; 0 is no call.
#[derive(Drop)]
pub struct FakeWriter {
    /// What was written.
    pub taken: Vec<u8>,
    /// The most bytes of one write.
    pub most: usize,
    /// How many writes there were.
    pub calls: u32,
    /// The write that fails.
    pub fails_at: u32,
    /// How it fails.
    pub kind: ErrorKind,
}

impl Write for FakeWriter {
    ghost contents = { λ s. Some s.taken.items };

    fn write(&mut self, buf: &[u8]) -> io::Result<usize> {
        self.calls = self.calls.saturating_add(1);
        if self.calls == self.fails_at {
            return Err(io::Error::from(self.kind));
        }
        let room = buf.len().min(self.most);
        self.taken.write(&buf[..room])
    }

    fn flush(&mut self) -> io::Result<()> {
        Ok(())
    }
}

/// A gate that keeps what it was posted, in order, and answers as plainly as can be: each drain with the next of its chunks, as
/// much of it as the buffer has room for, and all else with `Done` and no frames. It says nothing to proofs, since there may be
/// no memory for what it keeps.
#[derive(Drop)]
pub struct FakeGate<'a> {
    /// Where its memory comes from.
    pub alloc: Global,
    /// What was posted, each drain without its buffer.
    pub calls: Vec<Event>,
    /// What the drains hand out, in turn.
    pub chunks: &'a [&'a [u8]],
    /// How many drains there were.
    pub drains: usize,
    /// There was no memory for something that was posted, and it is not among the calls.
    pub is_full: bool,
}

impl FakeGate<'_> {
    fn keep(&mut self, event: Event) {
        if self.calls.push(event).is_err() {
            self.is_full = true;
        }
    }
}

/// Copies as much of a chunk into a buffer as there is room for: how many bytes.
fn hand(chunk: &[u8], buffer: &mut [u8]) -> usize
    ensures within { result ≤ length buffer.old }
    ensures past { drop result buffer.new ≡ drop result buffer.old }
{
    let size = chunk.len().min(buffer.len());
    buffer[..size].copy_from_slice(&chunk[..size]);
    size
}

impl Gate for FakeGate<'_> {
    ghost frames = { λ _ _ e. absurd (cc e) };

    ghost stays = { λ _. tt };

    ghost joins = { λ _ _ _ _ _. tt };

    fn post(&mut self, event: Event) -> Reply {
        match event {
            Event::Drain(sub, mut buf) => {
                let len = match self.chunks.get(self.drains) {
                    Some(chunk) => hand(chunk, &mut buf),
                    None => 0,
                };
                self.drains = self.drains.saturating_add(1);
                self.keep(Event::Drain(sub, Vec::new(self.alloc)));
                Reply::Drained {
                    buf,
                    out: Ok(Drained {
                        len,
                        begun: usize::from(len > 0),
                        gap: 0,
                    }),
                }
            }
            other => {
                self.keep(other);
                Reply::Done { made: 0, kept: 0 }
            }
        }
    }
}
