//! Whether standard output or standard error takes bytes.

use mio::unix::SourceFd;
use mio::{Events, Interest, Poll, Token};
use std::alloc::Global;
use std::io;
use std::net::Net;
use std::time::Duration;

/// Standard output.
pub const STANDARD_OUTPUT: i32 = 1;

/// Standard error.
pub const STANDARD_ERROR: i32 = 2;

/// What is known of a descriptor that is written to.
#[derive(Clone, Copy, PartialEq, Eq)]
pub enum OutputState {
    /// It takes a piece at once: of a pipe at least 4,096 bytes (PIPE_BUF).
    Ready,
    /// It takes nothing now.
    Full,
    /// Nobody reads it any more.
    Ended,
}

/// Waits for one descriptor that is written to. A pipe that nobody reads, or a terminal that is held, would keep that writes there for
/// ever. A file takes each write.
#[derive(Drop)]
pub struct OutputPoll {
    descriptor: i32,
    poll: Poll,
    events: Events<Global>,
    is_waited_for: bool,
}

impl OutputPoll {
    /// Of this descriptor.
    ///
    /// # Errors
    ///
    /// That of the system, where it can't wait, and `OutOfMemory`.
    pub fn new<R: Net>(rt: &R, alloc: Global, descriptor: i32) -> io::Result<OutputPoll> {
        let poll = Poll::new(rt)?;
        let events = Events::with_capacity(alloc, 1)?;
        let mut out = SourceFd(&descriptor);
        // What can't be waited for, as a file, takes each write.
        let registered = poll
            .registry()
            .register(&mut out, Token(0), Interest::WRITABLE);
        Ok(OutputPoll {
            descriptor,
            poll,
            events,
            is_waited_for: registered.is_ok(),
        })
    }

    /// Whether it takes a piece at once. It waits so long at most until it does.
    ///
    /// # Errors
    ///
    /// That of the system, where it can't wait.
    pub fn state(&mut self, longest: Duration) -> io::Result<OutputState> {
        if !self.is_waited_for {
            return Ok(OutputState::Ready);
        }
        // Anew each time, since one event stands for all pieces that are taken.
        let mut out = SourceFd(&self.descriptor);
        self.poll
            .registry()
            .reregister(&mut out, Token(0), Interest::WRITABLE)?;
        self.poll.poll(&mut self.events, Some(longest))?;
        let mut state = OutputState::Full;
        for event in self.events.iter() {
            state = if event.is_error() || event.is_write_closed() {
                OutputState::Ended
            } else {
                OutputState::Ready
            };
        }
        Ok(state)
    }
}
