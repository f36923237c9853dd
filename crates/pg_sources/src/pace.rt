//! How far the sources of a worker may be ahead of the subscribers' workers.

use pg_limits::Credit;
use pg_service::{Mailbox, PortOrder, WorkerHandles};
use std::alloc::Global;
use std::time::{Duration, Instant};

/// How many events may make frames where nobody has said.
const ROOM: u32 = 16;

/// How long it is waited at most that frames are handed out, in milliseconds: a worker that has ended, or that the machine gives
/// no time, holds no source longer.
const HOLD_MS: u64 = 100;

/// How far the sources of a worker may be ahead of those that hand their frames out: a ring that holds them all drops none
/// but where its subscriber's socket takes none. What was made up to a mark is handed out once each worker that serves subscribers has ended
/// a turn that it began behind the mark.
#[derive(Drop)]
pub(crate) struct Pace {
    credit: Credit,
    // The turns that are waited for, in the order of the workers, if some are.
    turns: Vec<usize>,
    is_marked: bool,
    // Whether frames were made since the workers were woken.
    is_owed: bool,
}

impl Pace {
    /// No frame is out.
    pub(crate) fn new(alloc: Global) -> Pace {
        Pace {
            credit: Credit::new(ROOM),
            turns: Vec::new(alloc),
            is_marked: false,
            is_owed: false,
        }
    }

    /// From now on so many events may make frames.
    pub(crate) fn resize(&mut self, events: u32) {
        self.credit.resize(events);
    }

    /// How many more events may make frames by now.
    pub(crate) fn left(&self) -> u32 {
        self.credit.left()
    }

    /// So many events made frames. Where half of all have, the workers that hand them out are woken.
    pub(crate) fn spend(&mut self, events: u64, handles: &WorkerHandles<'_>) {
        self.credit.spend(u32::try_from(events).unwrap_or(u32::MAX));
        self.is_owed = true;
        if !self.credit.is_half_free() {
            self.wake(handles);
        }
    }

    /// Wakes the workers where frames were made since they were woken.
    pub(crate) fn wake(&mut self, handles: &WorkerHandles<'_>) {
        if self.is_owed {
            self.is_owed = false;
            self.settle(handles);
            handles.wake_ports();
        }
    }

    /// Counts what was handed out, and sets the mark anew.
    fn settle(&mut self, handles: &WorkerHandles<'_>) {
        if self.is_marked && self.is_handed_out(handles.ports) {
            self.credit.confirm();
            self.is_marked = false;
        }
        if !self.is_marked && self.credit.has_spent() {
            self.turns.clear();
            for mailbox in handles.ports {
                // A worker for which there is no memory is not waited for.
                let _ = self.turns.push(mailbox.next_turn());
            }
            self.credit.mark();
            self.is_marked = true;
            handles.wake_ports();
        }
    }

    /// Whether the workers have handed out what was made before the mark.
    fn is_handed_out(&self, ports: &[Mailbox<PortOrder>]) -> bool {
        for (mailbox, turn) in ports.iter().zip(self.turns.iter()) {
            if !mailbox.has_ended(*turn) {
                return false;
            }
        }
        true
    }

    /// Whether sources are held by now, and until when at most.
    pub(crate) fn hold(
        &mut self,
        held: Option<Instant>,
        now: Instant,
        handles: &WorkerHandles<'_>,
    ) -> Option<Instant> {
        if held.is_none() && self.left() > 0 {
            return None;
        }
        for mailbox in handles.ports {
            mailbox.wait_for_end();
        }
        self.settle(handles);
        if self.credit.is_half_free() {
            return None;
        }
        let until = match held {
            Some(until) => until,
            None => now.checked_add(Duration::from_millis(HOLD_MS))?,
        };
        if until > now {
            return Some(until);
        }
        self.credit.mark();
        self.credit.confirm();
        self.is_marked = false;
        None
    }
}
