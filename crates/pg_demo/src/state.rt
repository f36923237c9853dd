//! What the threads of a demo share.

use crate::fault::Fault;
use pg_console::ServiceHandle;
use pg_tools::{DemoVerdict, ExpectedStreams};
use std::mem;
use std::sync::atomic::{AtomicBool, Ordering};
use std::sync::{Mutex, Wait};
use std::time::Instant;

/// What the threads of a demo share.
#[derive(Drop)]
pub struct DemoState<'a> {
    /// The gateway's workers, and whether all are to end.
    pub service: ServiceHandle<'a>,
    /// When the demo started.
    pub start: Instant,
    /// Whether the subscribers may connect.
    pub is_open: AtomicBool,
    /// Whether the streams of the first and of the second subscriber are on.
    pub are_on: [AtomicBool; 2],
    /// Whether a line was typed that changes what comes, so that nothing is compared any more.
    pub is_changed: AtomicBool,
    /// The data frames that the subscribers have to receive.
    pub expected: Mutex<ExpectedStreams>,
    /// What the demo came to, once that is known.
    pub outcome: Mutex<Option<Result<DemoVerdict, Fault>>>,
}

impl<'a> DemoState<'a> {
    /// Nothing has events.
    pub fn new(
        service: ServiceHandle<'a>,
        start: Instant,
        expected: ExpectedStreams,
    ) -> DemoState<'a> {
        DemoState {
            service,
            start,
            is_open: AtomicBool::new(false),
            are_on: [AtomicBool::new(false), AtomicBool::new(false)],
            is_changed: AtomicBool::new(false),
            expected: Mutex::new(expected),
            outcome: Mutex::new(None),
        }
    }

    /// Ends the demo with this. Where it has ended already that stays, unless it was good and this is not.
    pub fn end<R: Wait>(&self, rt: &R, outcome: Result<DemoVerdict, Fault>) {
        {
            let mut kept = self.outcome.lock(rt);
            let is_open = match &*kept {
                None => true,
                Some(Ok(before)) => before.is_good() && !is_good(&outcome),
                Some(Err(_)) => false,
            };
            if is_open {
                *kept = Some(outcome);
            }
        }
        self.service.stop.store(true, Ordering::SeqCst);
        self.service.wake_all();
    }

    /// What the demo came to, once all have ended.
    pub fn take_outcome<R: Wait>(&self, rt: &R) -> Result<DemoVerdict, Fault> {
        match mem::replace(&mut *self.outcome.lock(rt), None) {
            Some(outcome) => outcome,
            None => Ok(DemoVerdict::Ended),
        }
    }

    /// Whether all are to end.
    pub fn is_over(&self) -> bool {
        self.service.is_over()
    }
}

/// Whether nothing was wrong.
fn is_good(outcome: &Result<DemoVerdict, Fault>) -> bool {
    matches!(outcome, Ok(verdict) if verdict.is_good())
}
