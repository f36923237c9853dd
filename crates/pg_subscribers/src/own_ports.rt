//! The ports of a worker, apart from its gate.

use crate::connection::CloseReason;
use crate::port::{Port, closed_event, listening};
use mio::Interest;
use mio::net::TcpListener;
use pg_gateway::{Event, Gate, Reply};
use pg_log::{Detail, Entry, Journal, LogEvent, Subject};
use pg_service::{
    ConnectionRules, Mailbox, MeteredGate, Poller, PortOrder, PortReport, ReadyQueue, SourceOrder,
    StatusCollector, sooner,
};
use pg_status::Histogram;
use pg_wire::{StreamId, SubId};
use std::alloc::{AllocError, Global};
use std::net::{Net, SocketAddr};
use std::rt::Clock;
use std::sync::Wait;
use std::time::{Duration, Instant};
use std::{io, mem};

/// How soon it is tried again to bind a port, in milliseconds.
const BIND_MS: u64 = 30_000;

/// A port that could not be bound, and when it is tried again.
#[derive(Drop)]
struct Unbound {
    sub: SubId,
    rules: ConnectionRules,
    address: SocketAddr,
    retry: Instant,
}

impl Unbound {
    /// How it stands.
    fn report(&self) -> PortReport {
        PortReport {
            sub: self.sub,
            address: None,
            unbound: Some(self.address),
            peer: None,
            since: Duration::ZERO,
            frames: 0,
            gaps: 0,
        }
    }
}

/// The ports of a worker, and what it serves them with but for its gate.
#[derive(Drop)]
pub(crate) struct OwnPorts<'a, R: Wait + Net + Clock> {
    pub(crate) rt: &'a R,
    alloc: Global,
    pub(crate) waiting: Poller,
    mailbox: &'a Mailbox<PortOrder>,
    // Those that may wait until it has handed out what they made.
    sources: &'a [Mailbox<SourceOrder>],
    pub(crate) journal: &'a Journal,
    collector: &'a StatusCollector,
    ports: Vec<Option<Port>>,
    // The ports that could not be bound.
    unbound: Vec<Unbound>,
    // The subscribers that are asked about, and then those of them for which something waits; room for each port.
    asked: Vec<SubId>,
    // How old the data frames were that its ports handed out.
    ages: Histogram,
    // How often the table of connections was read when it was looked at last.
    reads: u64,
    // The places of ports that are served, and when a subscriber is waited for no longer.
    pub(crate) queue: ReadyQueue,
}

impl<'a, R: Wait + Net + Clock> OwnPorts<'a, R> {
    /// No ports.
    pub(crate) fn new(
        rt: &'a R,
        alloc: Global,
        waiting: Poller,
        mailbox: &'a Mailbox<PortOrder>,
        sources: &'a [Mailbox<SourceOrder>],
        journal: &'a Journal,
        collector: &'a StatusCollector,
        now: Instant,
    ) -> OwnPorts<'a, R> {
        OwnPorts {
            rt,
            alloc,
            waiting,
            mailbox,
            sources,
            journal,
            collector,
            ports: Vec::new(alloc),
            unbound: Vec::new(alloc),
            asked: Vec::new(alloc),
            ages: Histogram::new(),
            reads: 0,
            queue: ReadyQueue::new(alloc, now),
        }
    }

    /// Serves this port too.
    ///
    /// # Errors
    ///
    /// That of the system, where the port can't be waited for, and `OutOfMemory`.
    pub(crate) fn open(&mut self, mut port: Port) -> io::Result<()> {
        let free = self.ports.iter().position(|it| it.is_none());
        let place = free.unwrap_or(self.ports.len());
        self.make_room()?;
        self.listen_at(place, &mut port)?;
        port.since = Some(self.queue.now);
        match self.ports.get_mut(place) {
            Some(free) => *free = Some(port),
            None => self.ports.push(Some(port))?,
        }
        Ok(())
    }

    /// Makes room for one port more.
    fn make_room(&mut self) -> Result<(), AllocError> {
        let most = self.ports.len() + 1;
        self.queue.reserve(most)?;
        self.asked.try_reserve(most)?;
        self.ports.try_reserve(1)
    }

    /// Waits for the connections of this port, which stands at this place.
    fn listen_at(&mut self, place: usize, port: &mut Port) -> io::Result<()> {
        self.waiting.poll().registry().register(
            &mut port.acceptor.listener,
            listening(place),
            Interest::READABLE,
        )
    }

    /// Serves this port in this turn.
    fn mark(&mut self, place: usize, asks: bool) {
        if let Some(Some(port)) = self.ports.get_mut(place) {
            if asks {
                port.acceptor.timer.named();
            }
            // There is room for each port once.
            if !port.is_ready && self.queue.add(place) {
                port.is_ready = true;
            }
        }
    }

    /// Serves those in this turn whose sockets the last wait named.
    pub(crate) fn mark_named(&mut self) {
        for at in 0..self.waiting.named().len() {
            if let Some(named) = self.waiting.named().get(at).copied() {
                self.mark(named / 2, named % 2 == 0);
            }
        }
    }

    /// Carries out its orders.
    fn carry_out_all<G: Gate>(&mut self, gate: &mut MeteredGate<G>) {
        for order in self.mailbox.take(self.rt, self.alloc) {
            self.carry_out(gate, order);
        }
    }

    fn carry_out<G: Gate>(&mut self, gate: &mut MeteredGate<G>, order: PortOrder) {
        match order {
            PortOrder::Open {
                sub,
                rules,
                listener,
            } => {
                self.forget_unbound(sub);
                self.open_and_log(Port::new(sub, rules, listener));
            }
            PortOrder::Bind {
                sub,
                rules,
                address,
            } => self.bind_later(sub, rules, address),
            PortOrder::BindAgain => self.bind_all(true),
            PortOrder::Close(sub) => {
                self.forget_unbound(sub);
                self.close(gate, sub);
            }
            PortOrder::HangUp(sub) => self.hang_up(gate, sub),
            PortOrder::Resume(sub, stream) => self.resume(sub, stream),
            PortOrder::Report(asking) => self.report(asking),
        }
    }

    /// The port of this subscriber is not to be bound any more.
    fn forget_unbound(&mut self, sub: SubId) {
        self.unbound.retain(|port| port.sub != sub);
    }

    /// Tries later to bind this port. Where there is no memory for it, that is noted.
    fn bind_later(&mut self, sub: SubId, rules: ConnectionRules, address: SocketAddr) {
        self.forget_unbound(sub);
        let now = self.queue.now;
        let retry = now
            .checked_add(Duration::from_millis(BIND_MS))
            .unwrap_or(now);
        let port = Unbound {
            sub,
            rules,
            address,
            retry,
        };
        if self.unbound.push(port).is_err() {
            self.journal.note(LogEvent::MailFault);
        }
        self.queue.expect(Some(retry));
    }

    /// Tries to bind the ports for which it is time, or all of them.
    fn bind_all(&mut self, is_all: bool) {
        let unbound = mem::replace(&mut self.unbound, Vec::new(self.alloc));
        for port in unbound {
            let is_due = is_all || port.retry <= self.queue.now;
            self.bind(port, is_due);
        }
    }

    /// Tries to bind this port if it is time, and keeps it for later else.
    fn bind(&mut self, port: Unbound, is_due: bool) {
        if !is_due {
            if self.unbound.push(port).is_err() {
                self.journal.note(LogEvent::MailFault);
            }
            return;
        }
        let Unbound {
            sub,
            rules,
            address,
            ..
        } = port;
        match TcpListener::bind(self.rt, address) {
            Ok(listener) => self.open_and_log(Port::new(sub, rules, listener)),
            Err(_) => self.bind_later(sub, rules, address),
        }
    }

    /// Reports how its ports stand.
    fn report(&self, asking: u64) {
        let mut reports = Vec::new(self.alloc);
        for port in self.ports.iter().flatten() {
            if reports.push(port.report(self.queue.now)).is_err() {
                self.journal.note(LogEvent::MailFault);
            }
        }
        for port in &self.unbound {
            if reports.push(port.report()).is_err() {
                self.journal.note(LogEvent::MailFault);
            }
        }
        self.collector
            .report_ports(self.rt, self.journal, asking, reports, &self.ages);
    }

    /// Serves this port too, and writes it to the log.
    fn open_and_log(&mut self, port: Port) {
        let subject = Subject::Subscriber(port.sub());
        let detail = match port.address() {
            Ok(address) => Detail::At(address),
            Err(_) => Detail::Nothing,
        };
        let (event, detail) = match self.open(port) {
            Ok(()) => (LogEvent::Listening, detail),
            Err(error) => (LogEvent::NotServed, Detail::of_error(&error)),
        };
        self.journal
            .log(self.rt, Entry::new(event, subject, detail));
    }

    /// Serves the subscriber's port no longer, and hangs up the subscriber that connected there.
    fn close<G: Gate>(&mut self, gate: &mut MeteredGate<G>, sub: SubId) {
        self.hang_up(gate, sub);
        let mut is_closed = false;
        for port in self.ports.iter_mut() {
            if port.as_ref().is_some_and(|it| it.is_of(sub)) {
                *port = None;
                is_closed = true;
            }
        }
        if is_closed {
            let subject = Subject::Subscriber(sub);
            let entry = Entry::new(LogEvent::Unlistened, subject, Detail::Nothing);
            self.journal.log(self.rt, entry);
        }
    }

    /// Hangs up the subscriber that connected as this subscriber.
    fn hang_up<G: Gate>(&mut self, gate: &mut MeteredGate<G>, sub: SubId) {
        for port in self.ports.iter_mut().flatten() {
            if port.is_of(sub) && port.endpoint.hang_up(gate) {
                port.part(self.queue.now);
                let entry = port.entry(LogEvent::HungUp, Detail::Nothing);
                self.journal.log(self.rt, entry);
            }
        }
    }

    /// A stream of this subscriber goes on, if it is connected.
    fn resume(&mut self, sub: SubId, stream: StreamId) {
        for place in 0..self.ports.len() {
            let Some(Some(port)) = self.ports.get_mut(place) else {
                continue;
            };
            if port.is_of(sub) && port.stream.is_some() {
                port.known.resume(stream.get());
                self.mark(place, false);
            }
        }
    }

    /// Binds ports that could not be bound, hangs up those that are waited for no longer, has it tried again to accept, and finds out when something is due next.
    pub(crate) fn do_due<G: Gate>(&mut self, gate: &mut MeteredGate<G>) {
        self.bind_all(false);
        let mut next = None;
        for port in &self.unbound {
            next = sooner(next, Some(port.retry));
        }
        for place in 0..self.ports.len() {
            let Some(Some(port)) = self.ports.get_mut(place) else {
                continue;
            };
            if let Some(timeout) = port.endpoint.expire(gate, self.queue.now) {
                port.part(self.queue.now);
                let entry = port.entry(
                    closed_event(CloseReason::Timeout(timeout)),
                    Detail::Nothing,
                );
                self.journal.log(self.rt, entry);
            }
            port.look_at_streams(self.rt, gate, self.journal, self.queue.now);
            let accepts = port.acceptor.timer.is_due(self.queue.now);
            next = sooner(next, port.due(self.queue.now));
            if accepts {
                self.mark(place, false);
            }
        }
        self.queue.due = next;
    }

    /// Is due no later than this port, and serves it again where it has more to do.
    fn after(&mut self, place: usize, is_more: bool) {
        if is_more {
            self.mark(place, false);
        }
        if let Some(Some(port)) = self.ports.get_mut(place) {
            if mem::replace(&mut port.has_written, false) {
                self.collector.connections().ask();
            }
            let due = port.due(self.queue.now);
            self.queue.expect(due);
        }
    }

    /// Looks whether bytes that were sent are not acknowledged, where the table of connections was read since.
    fn look_at_connections(&mut self) {
        let connections = self.collector.connections();
        let reads = connections.reads();
        if reads == self.reads {
            return;
        }
        self.reads = reads;
        for port in self.ports.iter_mut().flatten() {
            if port.look(self.rt, connections, self.queue.now) {
                connections.ask();
            }
            let due = port.due(self.queue.now);
            self.queue.expect(due);
        }
    }

    /// Serves the port at this place: the subscriber that connected, and then one that wants to.
    fn serve<G: Gate>(&mut self, gate: &mut MeteredGate<G>, place: usize) {
        let Some(Some(port)) = self.ports.get_mut(place) else {
            return;
        };
        port.is_ready = false;
        let mut is_more = port.serve(
            self.rt,
            gate,
            self.collector.layout_changes(),
            self.journal,
            &mut self.ages,
            self.queue.now,
        );
        if port.acceptor.timer.is_due(self.queue.now) {
            is_more |= port.accept(
                self.rt,
                self.alloc,
                self.waiting.poll(),
                place,
                gate,
                self.collector.layout_changes(),
                self.journal,
                self.queue.now,
            );
        }
        self.after(place, is_more);
    }

    /// Serves those that are ready. Those that have more to do are served again in the next turn.
    pub(crate) fn serve_ready<G: Gate>(&mut self, gate: &mut MeteredGate<G>) {
        self.queue.begin();
        for at in 0..self.queue.served() {
            if let Some(place) = self.queue.serving(at) {
                self.serve(gate, place);
            }
            // So a subscriber that sends much delays what others are handed by its own turn at most.
            if self.mailbox.is_pending() {
                self.pass(gate);
            }
        }
    }

    /// Carries out its orders, and hands out what waits.
    pub(crate) fn pass<G: Gate>(&mut self, gate: &mut MeteredGate<G>) {
        self.carry_out_all(gate);
        self.look_at_connections();
        self.hand_out_all(gate);
        self.report_end();
    }

    /// Asks for which of those that have connected something waits.
    fn ask_who_waits<G: Gate>(&mut self, gate: &mut MeteredGate<G>) {
        let mut asked = mem::replace(&mut self.asked, Vec::new(self.alloc));
        asked.clear();
        for port in self.ports.iter().flatten() {
            if port.stream.is_some() {
                // There is room for each port.
                let _ = asked.push(port.sub());
            }
        }
        if let Reply::Waiting(waiting) = gate.post(Event::WhoWaits(asked)) {
            self.asked = waiting;
        }
    }

    /// Reports to those that wait for it that all that waited was handed out, but what sockets did not take.
    fn report_end(&self) {
        if self.mailbox.end_turn() {
            for mailbox in self.sources {
                mailbox.wake(self.journal);
            }
        }
    }

    /// Hands out what waits to those that have connected. One call asks for which of them something waits, in the order of the ports.
    fn hand_out_all<G: Gate>(&mut self, gate: &mut MeteredGate<G>) {
        self.ask_who_waits(gate);
        let mut next = 0;
        for place in 0..self.ports.len() {
            let Some(Some(port)) = self.ports.get_mut(place) else {
                continue;
            };
            if !self.asked.get(next).is_some_and(|sub| port.is_of(*sub)) {
                continue;
            }
            next += 1;
            let is_more = port.hand_out(
                self.rt,
                gate,
                self.collector.layout_changes(),
                self.journal,
                &mut self.ages,
                self.queue.now,
            );
            self.after(place, is_more);
        }
    }
}
