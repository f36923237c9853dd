//! Whether standard error takes a line.

use mio::unix::SourceFd;
use mio::{Events, Interest, Poll, Token};
use std::alloc::Global;
use std::io;
use std::net::Net;
use std::time::Duration;

/// Standard error.
const STANDARD_ERROR: i32 = 2;

/// Returns whether standard error takes a line at once: a pipe that nobody reads, or a terminal that is held, would keep
/// that writes there for ever. A file takes each.
#[derive(Drop)]
pub(crate) struct StderrPoll {
    poll: Poll,
    events: Events<Global>,
    is_waited_for: bool,
}

impl StderrPoll {
    /// Standard error.
    ///
    /// # Errors
    ///
    /// That of the system, where it can't wait, and `OutOfMemory`.
    pub(crate) fn new<R: Net>(rt: &R, alloc: Global) -> io::Result<StderrPoll> {
        let poll = Poll::new(rt)?;
        let events = Events::with_capacity(alloc, 1)?;
        let mut out = SourceFd(&STANDARD_ERROR);
        // What can't be waited for, as a file, takes each line.
        let registered = poll
            .registry()
            .register(&mut out, Token(0), Interest::WRITABLE);
        Ok(StderrPoll {
            poll,
            events,
            is_waited_for: registered.is_ok(),
        })
    }

    /// Whether a line is taken at once.
    pub(crate) fn takes_a_line(&mut self) -> bool {
        if !self.is_waited_for {
            return true;
        }
        // Anew each time, since one event stands for all lines that are taken.
        let mut out = SourceFd(&STANDARD_ERROR);
        let registered = self
            .poll
            .registry()
            .reregister(&mut out, Token(0), Interest::WRITABLE);
        if registered.is_err() {
            return false;
        }
        match self.poll.poll(&mut self.events, Some(Duration::ZERO)) {
            Ok(()) => !self.events.is_empty(),
            Err(_) => false,
        }
    }
}
