//! Standard input, which is read only while the service runs.

use mio::unix::SourceFd;
use mio::{Events, Interest, Poll, Token};
use std::alloc::Global;
use std::io;
use std::io::{ErrorKind, Read, StdinLock};
use std::net::Net;
use std::sync::atomic::{AtomicBool, Ordering};
use std::time::Duration;

/// Standard input.
const STANDARD_INPUT: i32 = 0;

/// How long is waited for a line before it is looked whether the service has ended, in milliseconds.
const LOOK_MS: u64 = 500;

/// Standard input, which ends where all workers are to end, so that nobody has to type a line for that. Where it can't be waited for,
/// as a file, it is read at once.
#[derive(Drop)]
pub(crate) struct StoppableStdin<'a> {
    input: StdinLock<'static>,
    stop: &'a AtomicBool,
    poll: Poll,
    events: Events<Global>,
    is_waited_for: bool,
}

impl<'a> StoppableStdin<'a> {
    /// Standard input, until all workers are to end.
    pub(crate) fn new<R: Net + Input<Reader = StdinLock<'static>>>(
        rt: &R,
        alloc: Global,
        stop: &'a AtomicBool,
    ) -> io::Result<StoppableStdin<'a>> {
        let poll = Poll::new(rt)?;
        let mut input = SourceFd(&STANDARD_INPUT);
        let registered = poll
            .registry()
            .register(&mut input, Token(0), Interest::READABLE);
        Ok(StoppableStdin {
            input: rt.reader(),
            stop,
            poll,
            events: Events::with_capacity(alloc, 1)?,
            is_waited_for: registered.is_ok(),
        })
    }

    /// Waits until something is there to be read, and returns whether it is: else all workers are to end.
    fn waits(&mut self) -> io::Result<bool> {
        if !self.is_waited_for {
            return Ok(!self.stop.load(Ordering::SeqCst));
        }
        for _ in 0..u64::MAX {
            if self.stop.load(Ordering::SeqCst) {
                return Ok(false);
            }
            // Anew each time, since one event stands for all that waits.
            let mut input = SourceFd(&STANDARD_INPUT);
            self.poll
                .registry()
                .reregister(&mut input, Token(0), Interest::READABLE)?;
            match self
                .poll
                .poll(&mut self.events, Some(Duration::from_millis(LOOK_MS)))
            {
                Ok(()) => {}
                Err(error) if error.kind() == ErrorKind::Interrupted => continue,
                Err(error) => return Err(error),
            }
            if !self.events.is_empty() {
                return Ok(true);
            }
        }
        Ok(false)
    }
}

impl Read for StoppableStdin<'_> {
    fn read(&mut self, buf: &mut [u8]) -> io::Result<usize> {
        if self.waits()? {
            self.input.read(buf)
        } else {
            Ok(0)
        }
    }
}
