//! The places that a worker serves in a turn, and how long it waits before.

use crate::poller::{LONGEST_WAIT_MS, Poller, sooner};
use pg_log::{Journal, LogEvent};
use std::alloc::{AllocError, Global};
use std::mem;
use std::rt::Clock;
use std::time::{Duration, Instant};

/// The reads of one turn of a connection.
pub const READS: u32 = 16;

/// The places, of sources or of ports, that a worker serves in this turn and in the next, and when something is due at one of them.
#[derive(Drop)]
pub struct ReadyQueue {
    // Those that are served in the next turn, and those of this one.
    ready: Vec<usize>,
    serving: Vec<usize>,
    /// When something is due, or before; None where nothing is.
    pub due: Option<Instant>,
    /// Until when nobody is served, but where the worker is woken; None where those that are ready are.
    pub held: Option<Instant>,
    /// The clock, as it was read last.
    pub now: Instant,
}

impl ReadyQueue {
    /// Nothing is to be served, and nothing is due.
    pub fn new(alloc: Global, now: Instant) -> ReadyQueue {
        ReadyQueue {
            ready: Vec::new(alloc),
            serving: Vec::new(alloc),
            due: None,
            held: None,
            now,
        }
    }

    /// There is room for so many places, each once.
    ///
    /// # Errors
    ///
    /// There is no memory for it.
    pub fn reserve(&mut self, places: usize) -> Result<(), AllocError> {
        self.ready.reserve(places)?;
        self.serving.reserve(places)
    }

    /// Adds a place that is not among those that are ready, and returns whether there was room.
    pub fn add(&mut self, place: usize) -> bool {
        self.ready.push(place).is_ok()
    }

    /// Waits for what comes first: a socket that is ready, a wake, or what is due. Then reads the clock: where it can't be read, it is
    /// as late as it was.
    pub fn wait<R: Clock>(&mut self, rt: &R, waiting: &mut Poller, journal: &Journal) {
        waiting.wait(rt, journal, self.timers());
        match Instant::now(rt) {
            Ok(now) => self.now = now,
            Err(_) => journal.note(LogEvent::ClockFault),
        }
    }

    /// How long a turn waits at most.
    fn timers(&self) -> Duration {
        if !self.ready.is_empty() && self.held.is_none() {
            return Duration::ZERO;
        }
        let most = Duration::from_millis(LONGEST_WAIT_MS);
        match sooner(self.due, self.held) {
            Some(due) => most.min(due.saturating_duration_since(self.now)),
            None => most,
        }
    }

    /// Whether something is due by now.
    pub fn is_due(&self) -> bool {
        self.due.is_some_and(|due| due <= self.now)
    }

    /// Something is due at this time, or nothing is.
    pub fn expect(&mut self, due: Option<Instant>) {
        self.due = sooner(self.due, due);
    }

    /// Those that are ready are served from now on; one that is added while they are waits for the next turn.
    pub fn begin(&mut self) {
        self.serving.clear();
        mem::swap(&mut self.ready, &mut self.serving);
    }

    /// Those of this turn from this one on are served in the next one, before those that were added meanwhile.
    pub fn put_off(&mut self, from: usize) {
        let mut kept = 0;
        for at in from..self.serving.len() {
            if let Some(place) = self.serving.get(at).copied() {
                if let Some(free) = self.serving.get_mut(kept) {
                    *free = place;
                    kept = kept.saturating_add(1);
                }
            }
        }
        self.serving.truncate(kept);
        for at in 0..self.ready.len() {
            if let Some(place) = self.ready.get(at).copied() {
                // There is room for each place once.
                let _ = self.serving.push(place);
            }
        }
        mem::swap(&mut self.ready, &mut self.serving);
        self.serving.clear();
    }

    /// How many are served in this turn.
    pub fn served(&self) -> usize {
        self.serving.len()
    }

    /// Those that are served in this turn, one after another.
    pub fn serving(&self, at: usize) -> Option<usize> {
        self.serving.get(at).copied()
    }
}
