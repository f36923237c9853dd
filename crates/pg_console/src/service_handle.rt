//! The workers that an operator's lines concern.

use crate::reloads::Reloads;
use mio::net::TcpListener as PortListener;
use pg_gateway::Edit;
use pg_log::{Detail, Entry, LogEvent, Subject};
use pg_recorder::Recorder;
use pg_service::{
    ConnectionRules, Dial, Directory, FollowUp, Mailbox, PortOrder, Reports, SourceOrder,
    WorkerHandles,
};
use pg_wire::{PmuId, PmuKey, Refusal, StreamId, SubId};
use std::alloc::Global;
use std::net::SocketAddr;
use std::rt::Clock;
use std::sync::atomic::{AtomicBool, Ordering};
use std::sync::{Mutex, Wait};

/// The workers that an operator's edits concern.
#[derive(Clone, Copy)]
pub struct ServiceHandle<'a> {
    /// The mailboxes of the workers that call sources.
    pub sources: &'a [Mailbox<SourceOrder>],
    /// The workers that serve subscribers, the journal and the board.
    pub handles: WorkerHandles<'a>,
    /// The gateway's name.
    pub name: &'a str,
    /// Milliseconds from tick to tick.
    pub tick_ms: u16,
    /// The PMUs and subscribers that are registered, and which worker has which source or subscriber.
    pub directory: &'a Mutex<Directory>,
    /// The mailbox of the admin worker, which serves the control socket and the page, if there is one.
    pub admin: Option<&'a Mailbox<()>>,
    /// The reloads that clients of the control socket ask for, where that is open.
    pub reloads: Option<&'a Reloads>,
    /// What the workers record their calls by, if they do.
    pub recorder: Option<&'a Recorder>,
    /// Set where all workers are to end.
    pub stop: &'a AtomicBool,
}

impl ServiceHandle<'_> {
    /// Counts this event.
    pub(crate) fn note(&self, event: LogEvent) {
        self.handles.journal.note(event);
    }

    /// Whether all workers are to end.
    pub fn is_over(&self) -> bool {
        self.stop.load(Ordering::SeqCst)
    }

    /// Ends all workers, and logs that.
    pub(crate) fn end<R: Wait + Clock>(&self, rt: &R) {
        let journal = self.handles.journal;
        journal.log(
            rt,
            Entry::new(LogEvent::Quit, Subject::Nobody, Detail::Nothing),
        );
        self.stop.store(true, Ordering::SeqCst);
        self.wake_all();
    }

    /// Wakes all workers that have a mailbox, so that they see whether they are to end.
    pub fn wake_all(&self) {
        let journal = self.handles.journal;
        for mailbox in self.sources {
            mailbox.wake(journal);
        }
        self.handles.wake_ports();
        self.handles.resolver.wake(journal);
        self.wake_admin();
        if let Some(reloads) = self.reloads {
            reloads.wake(journal);
        }
    }

    /// Wakes the admin worker, if there is one.
    pub fn wake_admin(&self) {
        if let Some(mailbox) = self.admin {
            mailbox.wake(self.handles.journal);
        }
    }

    /// Says to the workers that call sources how many of their events may make frames before those that were made are handed out: a
    /// quarter less than what fills a ring, which is left for ticks, and one at least.
    pub fn tell_room<R: Wait>(&self, rt: &R) {
        let directory = self.directory.lock(rt);
        let room = directory.room();
        drop(directory);
        let workers = u32::try_from(self.sources.len()).unwrap_or(u32::MAX).max(1);
        let events = ((room - room / 4) / workers).max(1);
        for mailbox in self.sources {
            mailbox.send(rt, self.handles.journal, SourceOrder::Room(events));
        }
    }

    /// Gives workers what an edit asks of them.
    pub(crate) fn tell<R: Wait>(&self, rt: &R, after: FollowUp) {
        match after {
            FollowUp::Nothing => {}
            FollowUp::Renew(source) => {
                for mailbox in self.sources {
                    mailbox.send(rt, self.handles.journal, SourceOrder::Renew(source));
                }
            }
            FollowUp::Rest(source) => {
                for mailbox in self.sources {
                    mailbox.send(rt, self.handles.journal, SourceOrder::Rest(source));
                }
            }
            FollowUp::HangUp(sub) => self.hang_up(rt, sub),
        }
    }

    /// What the workers report of their sources and ports. Once all are to end nobody is asked, as none need answer then: each line that
    /// lies there yet would wait a second for it.
    pub fn ask<R: Wait + Clock>(&self, rt: &R, alloc: Global) -> Reports {
        let WorkerHandles {
            ports,
            journal,
            collector,
            ..
        } = self.handles;
        if self.is_over() {
            return collector.ask(rt, alloc, &[], &[], journal);
        }
        collector.ask(rt, alloc, self.sources, ports, journal)
    }

    /// The edits by which a subscriber has what it has, as far as they were done by now: how it was added, its grants and its streams. None
    /// where it is not there.
    ///
    /// # Errors
    ///
    /// `NoMemory`.
    pub fn edits_of<R: Wait>(
        &self,
        rt: &R,
        alloc: Global,
        sub: SubId,
    ) -> Result<Vec<Edit>, Refusal> {
        let directory = self.directory.lock(rt);
        directory.in_force.of(alloc, sub)
    }

    /// The same of each subscriber, in the order of their numbers.
    pub(crate) fn edits_by_subscriber<R: Wait>(
        &self,
        rt: &R,
        alloc: Global,
    ) -> Result<Vec<Vec<Edit>>, Refusal> {
        let mut subs = Vec::new(alloc);
        let mut found = Vec::new(alloc);
        let directory = self.directory.lock(rt);
        subs.extend_from_slice(directory.subscribers())?;
        subs.sort_unstable_by_key(|it| it.get());
        for sub in subs {
            found.push(directory.in_force.of(alloc, sub)?)?;
        }
        Ok(found)
    }

    /// The registered PMUs, in no order.
    ///
    /// # Errors
    ///
    /// `NoMemory`.
    pub fn registered<R: Wait>(&self, rt: &R, alloc: Global) -> Result<Vec<PmuKey>, Refusal> {
        let directory = self.directory.lock(rt);
        Ok(directory.pmus().to_vec(alloc)?)
    }

    /// The source is called no longer.
    pub fn undial<R: Wait>(&self, rt: &R, source: PmuId) {
        for mailbox in self.sources {
            mailbox.send(rt, self.handles.journal, SourceOrder::Undial(source));
        }
    }

    /// The source is called from now on, by its worker.
    pub fn dial<R: Wait>(&self, rt: &R, dial: Dial) {
        let mut directory = self.directory.lock(rt);
        let place = directory
            .callers
            .worker_of(dial.source.get(), self.sources.len());
        drop(directory);
        match mailbox_at(self.sources, place) {
            Some(mailbox) => {
                mailbox.send(rt, self.handles.journal, SourceOrder::Dial(dial));
            }
            None => self.note(LogEvent::MailFault),
        }
    }

    /// The subscriber's port is closed, and the subscriber that connected is hung up.
    pub fn close<R: Wait>(&self, rt: &R, sub: SubId) {
        for mailbox in self.handles.ports {
            mailbox.send(rt, self.handles.journal, PortOrder::Close(sub));
        }
    }

    /// The subscriber's port is served from now on, by its worker and by these rules.
    pub fn open<R: Wait>(
        &self,
        rt: &R,
        sub: SubId,
        rules: ConnectionRules,
        listener: PortListener,
    ) {
        let order = PortOrder::Open {
            sub,
            rules,
            listener,
        };
        self.send_to_server(rt, sub, order);
    }

    /// The subscriber's port can't be bound now: its worker tries it again later.
    pub fn bind_later<R: Wait>(
        &self,
        rt: &R,
        sub: SubId,
        rules: ConnectionRules,
        address: SocketAddr,
    ) {
        let order = PortOrder::Bind {
            sub,
            rules,
            address,
        };
        self.send_to_server(rt, sub, order);
    }

    /// Sends this order to the worker that serves the subscriber.
    fn send_to_server<R: Wait>(&self, rt: &R, sub: SubId, order: PortOrder) {
        let WorkerHandles { ports, journal, .. } = self.handles;
        let mut directory = self.directory.lock(rt);
        let place = directory.servers.worker_of(sub.get(), ports.len());
        drop(directory);
        match mailbox_at(ports, place) {
            Some(mailbox) => mailbox.send(rt, journal, order),
            None => self.note(LogEvent::MailFault),
        }
    }

    /// The ports that could not be bound are tried again.
    pub fn bind_again<R: Wait>(&self, rt: &R) {
        for mailbox in self.handles.ports {
            mailbox.send(rt, self.handles.journal, PortOrder::BindAgain);
        }
    }

    /// A stream of the subscriber goes on, which was on and is defined anew.
    pub fn resume<R: Wait>(&self, rt: &R, sub: SubId, stream: StreamId) {
        for mailbox in self.handles.ports {
            mailbox.send(rt, self.handles.journal, PortOrder::Resume(sub, stream));
        }
    }

    /// The subscriber that connected is hung up.
    pub fn hang_up<R: Wait>(&self, rt: &R, sub: SubId) {
        for mailbox in self.handles.ports {
            mailbox.send(rt, self.handles.journal, PortOrder::HangUp(sub));
        }
    }
}

/// The mailbox at this place, if there was memory to find it.
fn mailbox_at<O: Drop>(boxes: &[Mailbox<O>], place: Result<usize, Refusal>) -> Option<&Mailbox<O>> {
    match place {
        Ok(place) => boxes.get(place),
        Err(_) => None,
    }
}
