//! Which sockets are ready.

use crate::mail::WAKE;
use mio::{Events, Poll, Token};
use pg_log::{Journal, LogEvent};
use std::alloc::Global;
use std::io::ErrorKind;
use std::net::Net;
use std::rt::Clock;
use std::time::{Duration, Instant};
use std::{io, thread};

/// How many sockets one wait reports. The others come at the next one.
const EVENTS: usize = 256;

/// How long a turn waits at most, so that no worker misses that it is to stop.
pub const LONGEST_WAIT_MS: u64 = 1_000;

/// How long a worker rests where the system can't wait.
const FAULT_MS: u64 = 100;

/// What a worker waits with.
#[derive(Drop)]
pub struct Poller {
    poll: Poll,
    events: Events<Global>,
    named: Vec<usize>,
    // Those of them that have failed, or whose peers send no more.
    ended: Vec<usize>,
    is_woken: bool,
}

impl Poller {
    /// A wait that names no socket yet.
    ///
    /// # Errors
    ///
    /// That of the system, where it can't wait for sockets, and `OutOfMemory`.
    pub fn new<R: Net>(rt: &R, alloc: Global) -> io::Result<Poller> {
        Ok(Poller {
            poll: Poll::new(rt)?,
            events: Events::with_capacity(alloc, EVENTS)?,
            named: Vec::with_capacity(alloc, EVENTS)?,
            ended: Vec::with_capacity(alloc, EVENTS)?,
            is_woken: false,
        })
    }

    /// What sockets are registered with.
    pub fn poll(&self) -> &Poll {
        &self.poll
    }

    /// Waits until a socket is ready or the worker is woken, so long at most. Where the system can't
    /// wait, that is noted, and nothing is ready for a while.
    pub fn wait<R: Clock>(&mut self, rt: &R, journal: &Journal, most: Duration) {
        self.named.clear();
        self.ended.clear();
        self.is_woken = false;
        match self.poll.poll(&mut self.events, Some(most)) {
            Ok(()) => {}
            Err(error) if error.kind() == ErrorKind::Interrupted => return,
            Err(_) => {
                journal.note(LogEvent::PollFault);
                thread::sleep(rt, Duration::from_millis(FAULT_MS));
                return;
            }
        }
        for event in self.events.iter() {
            match event.token() {
                WAKE => self.is_woken = true,
                // There is room for as many as one wait reports.
                Token(place) => {
                    let _ = self.named.push(place);
                    if event.is_read_closed() || event.is_error() {
                        let _ = self.ended.push(place);
                    }
                }
            }
        }
    }

    /// Whether the last wait was ended by a wake.
    pub fn is_woken(&self) -> bool {
        self.is_woken
    }

    /// The sockets that the last wait named.
    pub fn named(&self) -> &[usize] {
        &self.named
    }

    /// Those of them that have failed, or whose peers send no more. What was sent before may still be read.
    pub fn ended(&self) -> &[usize] {
        &self.ended
    }
}

/// The sooner of two times; None is never.
pub fn sooner(one: Option<Instant>, other: Option<Instant>) -> Option<Instant> {
    match (one, other) {
        (Some(one), Some(other)) => Some(one.min(other)),
        (one, None) => one,
        (None, other) => other,
    }
}
