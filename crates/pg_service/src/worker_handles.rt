//! What workers that make frames share with others.

use crate::mail::{Mailbox, PortOrder};
use crate::resolver::{Lookup, Resolver};
use crate::status_collector::StatusCollector;
use pg_log::{Journal, LogEvent};
use std::sync::Wait;

/// What a worker that calls sources shares with others: the workers of subscribers, which it wakes where frames were made, and the resolver.
#[derive(Clone, Copy)]
pub struct WorkerHandles<'a> {
    /// The mailboxes of the workers that serve subscribers.
    pub ports: &'a [Mailbox<PortOrder>],
    /// The names that wait to be looked up.
    pub resolver: &'a Resolver,
    /// Where events are logged and counted.
    pub journal: &'a Journal,
    /// Where workers report how their sources and ports stand.
    pub collector: &'a StatusCollector,
}

impl WorkerHandles<'_> {
    /// Has a name looked up, and returns whether there was memory for it. Where there was none, that is noted.
    pub fn look_up<R: Wait>(&self, rt: &R, lookup: Lookup) -> bool {
        let is_asked = self.resolver.ask(rt, self.journal, lookup);
        if !is_asked {
            self.journal.note(LogEvent::MailFault);
        }
        is_asked
    }

    /// Wakes all workers that serve subscribers.
    pub fn wake_ports(&self) {
        for mailbox in self.ports {
            mailbox.wake(self.journal);
        }
    }
}
