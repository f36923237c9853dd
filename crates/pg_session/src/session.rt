//! A subscriber's bytes, cut into commands as they come.

ghost use Rattle.std.specs.Prelude.{◌≡◌, ℕ, ◌+◌, ◌≤◌, ◌<◌, List, [], ◌++◌, length, take, drop, vec_len, IfOk, IfErr, OnErr};
ghost use Rattle.pg_wire.specs.Reads.{Gave};
ghost use Rattle.pg_session.specs.Commands.{Hearing, Item, item_read, with_session_item, next_of, unheard, heard, ShowsHearing, GivesCommand, Holds};

use crate::pending::Pending;
use pg_audit::PmuStats;
use pg_command::{Command, read_command};
use pg_wire::{Deframer, Refusal, SubId, Taken};
use std::alloc::Global;
use std::io;
use std::io::Read;
use std::marker::Model;

/// The bytes that a drain hands out at most.
const DRAIN_BYTES: usize = 16_384;

/// What comes next of a subscriber's bytes.
#[derive(Clone, Copy)]
pub enum Next {
    /// A command (C37.118.2, 6.6).
    Cmd(Command),
    /// A frame was ignored: its CHK is wrong (`BadCheck`), its version is neither 1 nor 2 (`BadVersion`), it is no command
    /// (`WrongType`), or a command of another length (`BadLength`).
    Ignored(Refusal),
    /// No whole frame is held, and none is broken: more bytes have to come.
    More,
    /// Nothing comes any more, since the bytes broke: `BadFirst`, `BadSecond` or `ShortSize`.
    Broken(Refusal),
}

/// What a subscriber sends, from its connection on. It takes its memory when it is made, and none later.
#[derive(Drop)]
pub struct Session {
    sub: SubId,
    deframer: Deframer,
    stats: PmuStats,
    alloc: Global,
    pending: Pending,
}

impl Model for Session {
    ghost use Rattle.pg_session.specs.Commands.{Hearing};
    ghost use Rattle.pg_session.specs.Pendings.{kept_of, left_of};

    ghost Value = { Hearing };

    ghost view = { λ s. record { sub = s.sub; bytes = s.deframer; stats = s.stats; buffer = kept_of s.pending; left = left_of s.pending } };

    ghost use Rattle.pg_wire.specs.Held.{IsHeld};

    ghost invariant = { λ s. IsHeld s.deframer };
}

impl Session {
    /// A session of this subscriber that was fed nothing. The one refusal is `NoMemory`.
    pub fn new(alloc: Global, sub: SubId) -> Result<Session, Refusal>
        ensures state { IfOk result (λ s. s ≡ unheard sub) }
        ensures shows { IfOk result (λ s. ShowsHearing s [] []) }
        ensures memory { IfErr result (λ refusal. refusal ≡ Refusal.NoMemory) }
    {
        Ok(Session {
            sub,
            deframer: Deframer::new(alloc)?,
            stats: PmuStats::new(),
            alloc,
            pending: Pending::none(vec![in alloc; 0; DRAIN_BYTES]?),
        })
    }

    /// Whose session it is.
    pub fn sub(&self) -> SubId
        ensures value { result ≡ self.now.sub }
    {
        self.sub
    }

    /// Gives out the buffer that it keeps for drains, of 16,384 bytes, so that no drain takes memory. Until one is
    /// put back it keeps an empty one, and nothing is left to write.
    pub fn take_buffer(&mut self) -> Vec<u8>
        ensures buffer { vec_len result ≡ self.old.buffer }
        ensures state { self.new ≡ record self.old { buffer = 0; left = [] } }
    {
        self.pending.take(self.alloc)
    }

    /// Puts a buffer for drains in its place. Nothing is left to write.
    pub fn put_buffer(&mut self, buffer: Vec<u8>)
        ensures state { self.new ≡ record self.old { buffer = vec_len buffer; left = [] } }
    {
        self.pending = Pending::none(buffer);
    }

    /// Puts a buffer for drains in its place, whose first `size` bytes are left to write.
    pub fn put_drained(&mut self, buffer: Vec<u8>, size: usize)
        requires { size ≤ length buffer.items }
        ensures state { self.new ≡ record self.old { buffer = vec_len buffer; left = take size buffer.items } }
    {
        self.pending = Pending::of(buffer, size);
    }

    /// What is left to write of what a drain handed out.
    pub fn left(&self) -> &[u8]
        ensures value { result.now ≡ self.now.left }
    {
        self.pending.left()
    }

    /// So many bytes of what is left were written.
    pub fn send(&mut self, size: usize)
        requires { size ≤ length self.old.left }
        ensures state { self.new ≡ record self.old { left = drop size self.old.left } }
    {
        self.pending.send(size);
    }

    /// How many more bytes there is room for: 65,535 less the bytes that are held.
    pub fn room(&self) -> usize
        ensures value { result + length self.now.bytes.held ≡ 65535 }
    {
        self.deframer.room()
    }

    /// Takes the next piece of the subscriber's bytes, which is no longer than `room` says. Behind a break it is dropped.
    pub fn feed(&mut self, piece: &[u8])
        requires { length self.old.bytes.held + length piece.now ≤ 65535 }
        ensures state { self.new ≡ heard self.old piece.now }
        // Whatever stream it was fed before, it is fed the piece after it.
        ensures shows { (stream : List ℕ) (given : List Item) → ShowsHearing self.old stream given → ShowsHearing self.new (stream ++ piece.now) given }
    {
        self.deframer.feed(piece);
    }

    /// Reads once, at most `most` bytes and no more than `room` says: the next piece of the subscriber's bytes. Behind a break it is
    /// dropped. It returns how many bytes came, 0 only where the reader has ended, or the reader's error, and then nothing has
    /// changed.
    pub fn read_from<R: Read>(&mut self, reader: &mut R, most: usize) -> io::Result<usize>
        requires some { 0 < most }
        requires room { length self.old.bytes.held < 65535 }
        ensures small { IfOk result (λ n. n ≤ most) }
        ensures read { (piece : List ℕ) × Gave (R.remaining reader.old) (R.remaining reader.new) result piece × (self.new ≡ heard self.old piece)
            × ((stream : List ℕ) (given : List Item) → ShowsHearing self.old stream given → ShowsHearing self.new (stream ++ piece) given) }
        ensures same { self.new ≡ record self.old { bytes = self.new.bytes } }
        ensures err { OnErr result (self.new ≡ self.old) }
    {
        self.deframer.read_from(reader, most)
    }

    /// The next command, as soon as its frame is whole, or why a frame was ignored. Commands and ignored frames are counted.
    pub fn next_command(&mut self) -> Next
        ensures gives { GivesCommand self.old result self.new }
        ensures holds { Holds self.old result self.new }
        ensures same { self.new.sub ≡ self.old.sub }
        ensures buffer { self.new.buffer ≡ self.old.buffer }
        ensures left { self.new.left ≡ self.old.left }
    {
        match self.deframer.next() {
            Taken::Frame(frame) => {
                let read = read_command(frame);
                self.count(read)
            }
            Taken::Skipped(refusal) => self.count(Err(refusal)),
            Taken::More => Next::More,
            Taken::Broken(refusal) => Next::Broken(refusal),
        }
    }

    /// Counts a command, or a frame that was ignored.
    fn count(&mut self, read: Result<Command, Refusal>) -> Next
        ensures answer { result ≡ next_of (item_read read) }
        ensures counted { self.new ≡ record self.old { stats = with_session_item self.old.stats (item_read read) } }
    {
        match read {
            Ok(command) => {
                self.stats.count_taken();
                Next::Cmd(command)
            }
            Err(refusal) => {
                self.stats.count_refusal(refusal);
                Next::Ignored(refusal)
            }
        }
    }

    /// What it counted: the commands that it gave, and the frames that it ignored by their reason.
    pub fn stats(&self) -> &PmuStats
        ensures value { result.now ≡ self.now.stats }
    {
        &self.stats
    }
}
