//! Where threads that record hand their records over, and where the writer takes them.

ghost use Rattle.pg_recorder.specs.Answering.{IsOrEmptied};

use crate::prelude::Prelude;
use pg_record::{Tape, TapedCalls};
use pg_wire::Refusal;
use std::alloc::{AllocError, Global};
use std::mem;
use std::sync::atomic::{AtomicBool, AtomicU64, Ordering};
use std::sync::{Arc, Mutex, Wait};

/// How many calls a thread keeps at most, and how many bytes of their bodies. As many it may have handed over that are not written yet.
const MOST_CALLS: usize = 32_768;

const MOST_BYTES: usize = 4_194_304;

/// From how many calls on, and how many bytes of their bodies, a thread hands them over before the end of its round, and the writer does not wait.
pub(crate) const MANY_CALLS: usize = 2_048;

pub(crate) const MANY_BYTES: usize = 65_536;

/// Calls that were handed over.
#[derive(Drop)]
pub struct Handed {
    /// The calls.
    pub calls: TapedCalls,
    /// When the first of them was begun: milliseconds since 1970-01-01 00:00 UTC.
    pub start: u64,
}

/// The place where one thread hands its records over. It holds calls, or room for the next ones.
#[derive(Drop)]
pub struct TapeSlot {
    alloc: Global,
    handed: Mutex<Handed>,
    // Whether calls wait to be written, so that a thread sees that without a lock.
    is_full: AtomicBool,
    // Whether the thread has many calls to be written.
    has_many: AtomicBool,
    // The last calls of the thread, where others still waited when it ended.
    last: Mutex<Option<Handed>>,
    missed: AtomicU64,
    unspelled: AtomicU64,
}

impl TapeSlot {
    /// A slot without calls.
    fn new(alloc: Global) -> Result<TapeSlot, AllocError> {
        let calls = TapedCalls::with_capacity(alloc, MOST_CALLS, MOST_BYTES)?;
        Ok(TapeSlot {
            alloc,
            handed: Mutex::new(Handed { calls, start: 0 }),
            is_full: AtomicBool::new(false),
            has_many: AtomicBool::new(false),
            last: Mutex::new(None),
            missed: AtomicU64::new(0),
            unspelled: AtomicU64::new(0),
        })
    }

    /// Hands the calls of a tape over, where those that were handed over last were taken, and returns whether it did.
    pub(crate) fn hand_over<R: Wait>(&self, rt: &R, tape: &mut Tape, start: u64) -> bool
        ensures { IsOrEmptied tape.old tape.new }
    {
        if tape.calls() >= MANY_CALLS || tape.bytes() >= MANY_BYTES {
            self.has_many.store(true, Ordering::SeqCst);
        }
        if self.is_full.load(Ordering::SeqCst) {
            return false;
        }
        let mut handed = self.handed.lock(rt);
        let spare = mem::replace(&mut handed.calls, TapedCalls::none(self.alloc));
        handed.calls = tape.take(spare);
        handed.start = start;
        drop(handed);
        self.is_full.store(true, Ordering::SeqCst);
        true
    }

    /// Keeps how many records of the thread found no room so far.
    pub(crate) fn keep_missed(&self, missed: u64) {
        self.missed.store(missed, Ordering::SeqCst);
    }

    /// Hands the last calls of the thread over, which has ended.
    pub(crate) fn end<R: Wait>(&self, rt: &R, tape: &mut Tape, start: u64) {
        if tape.is_empty() || self.hand_over(rt, tape, start) {
            return;
        }
        let calls = tape.take(TapedCalls::none(self.alloc));
        *self.last.lock(rt) = Some(Handed { calls, start });
    }

    /// Takes the last calls of a thread that has ended, where they waited behind others.
    pub fn take_last<R: Wait>(&self, rt: &R) -> Option<Handed> {
        self.last.lock(rt).take()
    }

    /// Exchanges what was handed over for this room for the next calls; `None` where nothing was handed over, and then the room is as it was.
    pub fn take<R: Wait>(&self, rt: &R, room: &mut TapedCalls) -> Option<Handed> {
        self.has_many.store(false, Ordering::SeqCst);
        if !self.is_full.load(Ordering::SeqCst) {
            return None;
        }
        let empty = mem::replace(room, TapedCalls::none(self.alloc));
        let mut handed = self.handed.lock(rt);
        let calls = mem::replace(&mut handed.calls, empty);
        let start = handed.start;
        drop(handed);
        self.is_full.store(false, Ordering::SeqCst);
        Some(Handed { calls, start })
    }

    /// Whether the thread has so many calls to be written that it may have no room soon.
    pub(crate) fn has_many(&self) -> bool {
        self.has_many.load(Ordering::SeqCst)
    }

    /// How many records found no room so far.
    pub fn missed(&self) -> u64 {
        self.missed.load(Ordering::SeqCst)
    }

    /// One more call of the thread is one that no line of a script says. (The thread alone counts here.)
    pub(crate) fn count_unspelled(&self) {
        add(&self.unspelled, 1);
    }

    /// How many calls of the thread no line of a script says.
    pub fn unspelled(&self) -> u64 {
        self.unspelled.load(Ordering::SeqCst)
    }
}

/// What the threads of a service share to record their calls: a slot for each of them, and the tapes that were not given to one.
#[derive(Drop)]
pub struct Recorder {
    alloc: Global,
    slots: Vec<Arc<TapeSlot>>,
    tapes: Mutex<Vec<Tape>>,
    // What was set up by the calls that the writer took. (The writer alone locks it.)
    pub(crate) prelude: Mutex<Prelude>,
    // The bytes that were written, and those that could not be.
    written: AtomicU64,
    unwritten: AtomicU64,
    // How many calls were missed when it was reported last.
    reported: AtomicU64,
}

impl Recorder {
    /// A recorder for so many threads.
    ///
    /// # Errors
    ///
    /// `NoMemory`.
    pub fn new(alloc: Global, threads: usize) -> Result<Recorder, Refusal> {
        let mut slots = Vec::with_capacity(alloc, threads)?;
        let mut tapes = Vec::with_capacity(alloc, threads)?;
        for _ in 0..threads {
            slots.push(Arc::new(alloc, TapeSlot::new(alloc)?)?)?;
            tapes.push(Tape::new(alloc, MOST_CALLS, MOST_BYTES)?)?;
        }
        Ok(Recorder {
            alloc,
            slots,
            tapes: Mutex::new(tapes),
            prelude: Mutex::new(Prelude::new(alloc)),
            written: AtomicU64::new(0),
            unwritten: AtomicU64::new(0),
            reported: AtomicU64::new(0),
        })
    }

    /// Room for as many calls as a thread keeps.
    pub(crate) fn room(&self) -> Result<TapedCalls, AllocError> {
        TapedCalls::with_capacity(self.alloc, MOST_CALLS, MOST_BYTES)
    }

    /// The slots of the threads, each at its number.
    pub fn slots(&self) -> &[Arc<TapeSlot>] {
        &self.slots
    }

    /// The tape of one more thread, and its slot; `None` once each is given.
    pub(crate) fn give<R: Wait>(&self, rt: &R) -> Option<(Tape, Arc<TapeSlot>)> {
        let mut tapes = self.tapes.lock(rt);
        let tape = tapes.pop()?;
        let slot = self.slots.get(tapes.len())?;
        Some((tape, slot.clone().ok()?))
    }

    /// Where threads take memory for the lines of edits.
    pub(crate) fn alloc(&self) -> Global {
        self.alloc
    }

    /// How many records found no room so far, of all threads.
    pub fn missed(&self) -> u64 {
        let mut missed: u64 = 0;
        for slot in &self.slots {
            missed = missed.saturating_add(slot.missed());
        }
        missed
    }

    /// How many records found no room since this was asked last. (One writer after the other asks.)
    pub(crate) fn newly_missed(&self) -> u64 {
        let missed = self.missed();
        let reported = self.reported.swap(missed, Ordering::SeqCst);
        missed.saturating_sub(reported)
    }

    /// How many calls no line of a script says, of all threads.
    pub fn unspelled(&self) -> u64 {
        let mut unspelled: u64 = 0;
        for slot in &self.slots {
            unspelled = unspelled.saturating_add(slot.unspelled());
        }
        unspelled
    }

    /// So many bytes more were written. (The writer alone counts here.)
    pub(crate) fn count_written(&self, bytes: u64) {
        add(&self.written, bytes);
    }

    /// So many bytes more could not be written. (The writer alone counts here.)
    pub(crate) fn count_unwritten(&self, bytes: usize) {
        add(&self.unwritten, bytes as u64);
    }

    /// How many bytes were written.
    pub fn written(&self) -> u64 {
        self.written.load(Ordering::SeqCst)
    }

    /// How many bytes could not be written.
    pub fn unwritten(&self) -> u64 {
        self.unwritten.load(Ordering::SeqCst)
    }
}

/// Adds to a counter to which one thread adds.
fn add(counter: &AtomicU64, more: u64) {
    let count = counter.load(Ordering::SeqCst);
    counter.store(count.saturating_add(more), Ordering::SeqCst);
}
