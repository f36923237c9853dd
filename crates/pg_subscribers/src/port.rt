//! A subscriber's port: its listener, and the connection of the subscriber.

ghost use Rattle.std.specs.Prelude.{◌≡◌, None, option_map, true};
ghost use Rattle.std.specs.Duration.{as_nanos};
ghost use Rattle.pg_service.specs.Posts.{OwnOnly};

use crate::commands::{Posted, post_config, post_resume};
use crate::connection::{CloseReason, FULL, ServeResult};
use crate::endpoint::{Admission, SubscriberEndpoint};
use crate::late_watch::LateWatch;
use crate::latency::{LatencyMeter, LatencyWriter};
use crate::standings::{Standings, ask_standings};
use mio::net::{TcpListener, TcpStream};
use mio::{Interest, Poll, Token};
use pg_gateway::Gate;
use pg_limits::{
    AlwaysBlocked, Budget, CountingIo, FoundStream, HeldWriter, KnownLayouts, LayoutChanges,
    STREAMS, ServedOnce, Switches, Timeout, Unacknowledged,
};
use pg_log::{Detail, Entry, Journal, LogEvent, Subject};
use pg_service::{
    ACCEPTED, Acceptor, ConnectionRules, Connections, GateStats, MeteredGate, PortReport, READS,
    ended, sooner,
};
use pg_status::Histogram;
use pg_wire::{Refusal, SubId};
use std::alloc::Global;
use std::io;
use std::marker::Model;
use std::net::{IpAddr, Ipv4Addr, SocketAddr};
use std::rt::Clock;
use std::sync::Wait;
use std::time::{Duration, Instant};

/// How often a subscriber is served in one turn at most, where what was drained is held back. What is held behind that is written in the next
/// turn.
const PASSES: u32 = 64;

/// The port of a subscriber, where it connects, with its connection if there is one.
#[derive(Drop)]
pub struct Port {
    pub(crate) endpoint: SubscriberEndpoint,
    pub(crate) acceptor: Acceptor<TcpListener>,
    pub(crate) stream: Option<TcpStream>,
    pub(crate) is_ready: bool,
    // From where the subscriber that connected came, and since when somebody or nobody has; None before the port is served.
    peer: Option<SocketAddr>,
    pub(crate) since: Option<Instant>,
    // The frames that were dropped before those that were handed out.
    gaps: u64,
    // What goes out to the subscriber that connected.
    stamps: LatencyMeter,
    // What the subscriber that connected knows of the layouts of its streams, and how many changes were done before its streams were asked
    // about; None where they are to be asked about again.
    pub(crate) known: KnownLayouts,
    settled: Option<usize>,
    // The bytes that its socket took in the connection that stands, by now and when the table of connections was looked at last; whether it
    // took some since; and since when none of them is acknowledged.
    written: u64,
    looked: u64,
    pub(crate) has_written: bool,
    unacknowledged: Unacknowledged,
    // Whether its streams get late data alone.
    late: LateWatch,
}

/// How the subscriber that connected is served.
#[derive(Clone, Copy, PartialEq, Eq)]
enum Way {
    /// Its socket is ready.
    Serve,
    /// Something waits for it.
    HandOut,
    /// What was held back is written, and what waits behind.
    GoOn,
}

/// What is left to do for the subscriber that connected once it was served.
#[derive(Clone, Copy, PartialEq, Eq)]
struct Passed {
    // Whether more is to be done in the next turn.
    is_more: bool,
    // Whether it is served again in this turn.
    goes_on: bool,
}

impl Passed {
    /// Nothing is left to do.
    fn nothing() -> Passed {
        Passed {
            is_more: false,
            goes_on: false,
        }
    }
}

impl Model for Port {
    ghost use Rattle.pg_subscribers.specs.Endpoints.{EndpointState};

    ghost Value = { EndpointState };

    ghost view = { λ p. p.endpoint };
}

impl Port {
    /// The port of this subscriber at this listener. Nobody has connected.
    pub fn new(sub: SubId, rules: ConnectionRules, listener: TcpListener) -> Port
        ensures sub { result.sub ≡ sub }
        ensures allow { result.allow ≡ option_map (λ v. v.items) rules.allow.networks }
        ensures takeover { result.takeover ≡ rules.takeover }
        ensures stall { result.stall ≡ option_map as_nanos rules.stall }
        ensures idle { result.idle ≡ option_map as_nanos rules.idle }
        ensures change { result.change ≡ rules.change }
        ensures nobody { result.connection ≡ None }
    {
        Port {
            endpoint: SubscriberEndpoint::new(sub, rules),
            acceptor: Acceptor::new(listener),
            stream: None,
            is_ready: false,
            peer: None,
            since: None,
            gaps: 0,
            stamps: LatencyMeter::new(),
            known: KnownLayouts::new(),
            settled: None,
            written: 0,
            looked: 0,
            has_written: false,
            unacknowledged: Unacknowledged::new(),
            late: LateWatch::new(),
        }
    }

    /// Whose it is.
    pub fn sub(&self) -> SubId
        ensures { result ≡ self.now.sub }
    {
        self.endpoint.sub()
    }

    /// Whether it is this subscriber's.
    pub(crate) fn is_of(&self, sub: SubId) -> bool
        ensures { result ≡ true → self.now.sub ≡ sub }
    {
        self.endpoint.sub() == sub
    }

    /// Where it listens.
    ///
    /// # Errors
    ///
    /// That of the system, where it doesn't say.
    pub fn address(&self) -> io::Result<SocketAddr> {
        self.acceptor.listener.local_addr()
    }
}

impl Port {
    /// When something is to be done for it though its sockets stay silent.
    pub(crate) fn due(&self, now: Instant) -> Option<Instant> {
        let hang_up = in_future(now, self.endpoint.left(now));
        let accepts = in_future(now, self.acceptor.timer.left(now));
        sooner(sooner(hang_up, accepts), self.late.due())
    }

    /// Its connection is closed.
    pub(crate) fn part(&mut self, now: Instant)
        ensures { self.new ≡ self.old }
    {
        self.stream = None;
        self.peer = None;
        self.since = Some(now);
        self.stamps.restart();
        self.known = KnownLayouts::new();
        self.settled = None;
        self.written = 0;
        self.looked = 0;
        self.unacknowledged = Unacknowledged::new();
        self.late = LateWatch::new();
    }

    /// Looks in the table of connections whether bytes that were sent are not acknowledged, and returns whether some are not. What was written
    /// since the last look counts from the next one on, as some of it may have been written behind the table.
    pub(crate) fn look<R: Wait>(&mut self, rt: &R, connections: &Connections, now: Instant) -> bool
        ensures sub { self.new.sub ≡ self.old.sub }
    {
        let (Some(peer), Ok(address)) = (self.peer, self.address()) else {
            return false;
        };
        let queue = connections.unacknowledged(rt, address.port(), peer);
        self.unacknowledged.look(self.looked, queue, now);
        self.looked = self.written;
        self.endpoint.acknowledged(self.unacknowledged.since());
        queue > 0
    }

    /// How it stands.
    pub(crate) fn report(&self, now: Instant) -> PortReport {
        let since = match self.since {
            Some(since) => now.saturating_duration_since(since),
            None => Duration::ZERO,
        };
        PortReport {
            sub: self.endpoint.sub(),
            address: self.address().ok(),
            unbound: None,
            peer: self.peer,
            since,
            frames: self.stamps.frames(),
            gaps: self.gaps,
        }
    }

    /// Serves the subscriber that connected, and returns whether more is to be done.
    pub(crate) fn serve<R: Wait + Clock, G: Gate>(
        &mut self,
        rt: &R,
        gate: &mut MeteredGate<G>,
        changes: &LayoutChanges,
        journal: &Journal,
        ages: &mut Histogram,
        now: Instant,
    ) -> bool
        ensures sub { self.new.sub ≡ self.old.sub }
        // It posts of its own subscriber alone.
        ensures own { OwnOnly self.old.sub (G.posts gate.old.gate) (G.posts gate.new.gate) }
    {
        self.serve_all(rt, gate, changes, journal, ages, now, Way::Serve)
    }

    /// Hands out what waits for the subscriber that connected, and returns whether more is to be done.
    pub(crate) fn hand_out<R: Wait + Clock, G: Gate>(
        &mut self,
        rt: &R,
        gate: &mut MeteredGate<G>,
        changes: &LayoutChanges,
        journal: &Journal,
        ages: &mut Histogram,
        now: Instant,
    ) -> bool
        ensures sub { self.new.sub ≡ self.old.sub }
        // It posts of its own subscriber alone.
        ensures own { OwnOnly self.old.sub (G.posts gate.old.gate) (G.posts gate.new.gate) }
    {
        self.serve_all(rt, gate, changes, journal, ages, now, Way::HandOut)
    }

    /// Serves the subscriber that connected, again and again while what was drained is held back, and returns whether more is to be done.
    #[tactic(auto, using(crate::proofs::Own::own_nil, crate::proofs::Own::own_more, crate::proofs::Own::own_as))]
    fn serve_all<R: Wait + Clock, G: Gate>(
        &mut self,
        rt: &R,
        gate: &mut MeteredGate<G>,
        changes: &LayoutChanges,
        journal: &Journal,
        ages: &mut Histogram,
        now: Instant,
        first: Way,
    ) -> bool
        ensures sub { self.new.sub ≡ self.old.sub }
        // It posts of its own subscriber alone.
        ensures own { OwnOnly self.old.sub (G.posts gate.old.gate) (G.posts gate.new.gate) }
    {
        let mut way = first;
        let mut is_more = false;
        'passes: for _ in 0..PASSES {
            let passed = self.pass(rt, gate, changes, journal, ages, now, way);
            is_more = is_more || passed.is_more;
            if !passed.goes_on {
                return is_more;
            }
            way = Way::GoOn;
        }
        true
    }

    /// Serves the subscriber that connected once. Where an edit or an announcement was begun since its streams were asked about, they are asked about
    /// before a byte is written that was drained meanwhile: so no frame goes out that could be misread.
    #[tactic(auto, using(crate::proofs::Own::own_nil, crate::proofs::Own::own_more, crate::proofs::Own::own_as))]
    fn pass<R: Wait + Clock, G: Gate>(
        &mut self,
        rt: &R,
        gate: &mut MeteredGate<G>,
        changes: &LayoutChanges,
        journal: &Journal,
        ages: &mut Histogram,
        now: Instant,
        way: Way,
    ) -> Passed
        ensures sub { self.new.sub ≡ self.old.sub }
        // It posts of its own subscriber alone.
        ensures own { OwnOnly self.old.sub (G.posts gate.old.gate) (G.posts gate.new.gate) }
    {
        let settled = changes.settled();
        let Some((outcome, is_held, size)) = self.write_once(rt, gate, changes, ages, now, way)
        else {
            return Passed::nothing();
        };
        self.written = self.written.saturating_add(size);
        self.has_written = self.has_written || size > 0;
        let seen = gate.take_stats();
        self.log_seen(rt, &seen, journal);
        let is_more = self.leave(rt, outcome, journal, now);
        if self.stream.is_none() {
            return Passed::nothing();
        }
        let served = served_by(&seen);
        if let Some(stream) = self.compare(gate, changes, settled, served) {
            self.disconnect(rt, gate, journal, now, LogEvent::Misread, stream);
            return Passed::nothing();
        }
        let is_posted = self.post_due(rt, gate, journal, served.is_emptied);
        Passed {
            // Where bytes were held back its socket was not read to its end.
            is_more: is_more || (is_held && way == Way::Serve),
            goes_on: is_held || is_posted,
        }
    }

    /// Reads, drains and writes in this way, and returns also whether bytes were held back.
    #[tactic(auto, using(crate::proofs::Own::own_nil, crate::proofs::Own::own_more, crate::proofs::Own::own_as))]
    fn write_once<R: Wait + Clock, G: Gate>(
        &mut self,
        rt: &R,
        gate: &mut MeteredGate<G>,
        changes: &LayoutChanges,
        ages: &mut Histogram,
        now: Instant,
        way: Way,
    ) -> Option<(ServeResult, bool, u64)>
        ensures sub { self.new.sub ≡ self.old.sub }
        // It posts of its own subscriber alone.
        ensures own { OwnOnly self.old.sub (G.posts gate.old.gate) (G.posts gate.new.gate) }
    {
        let Some(stream) = &self.stream else {
            return None;
        };
        // What is left by now was drained before the streams were asked about last.
        let pending = self.endpoint.pending();
        let aged = LatencyWriter {
            rt,
            inner: stream,
            stamps: &mut self.stamps,
            ages,
        };
        let mut writer = CountingIo::new(HeldWriter::new(aged, changes, self.settled, pending));
        let outcome = match way {
            Way::Serve => {
                let mut reader = Budget::new(CountingIo::new(stream), READS);
                self.endpoint.serve(&mut reader, &mut writer, gate, now)
            }
            Way::HandOut => self.endpoint.hand_out(&mut writer, gate, now),
            Way::GoOn => {
                let mut reader = Budget::new(CountingIo::new(AlwaysBlocked), READS);
                self.endpoint.serve(&mut reader, &mut writer, gate, now)
            }
        };
        Some((outcome, writer.inner.is_holding, writer.moved))
    }

    /// Compares the layouts of the streams with those that the subscriber that connected knows, behind what was served; `settled` is how many
    /// changes were done before that. It returns a stream for which the subscriber that connected is to be disconnected.
    #[tactic(auto, using(crate::proofs::Own::own_nil))]
    fn compare<G: Gate>(
        &mut self,
        gate: &mut MeteredGate<G>,
        changes: &LayoutChanges,
        settled: Option<usize>,
        served: ServedOnce,
    ) -> Option<u16>
        ensures sub { self.new.sub ≡ self.old.sub }
        ensures own { OwnOnly self.old.sub (G.posts gate.old.gate) (G.posts gate.new.gate) }
    {
        self.known.drained(served.is_emptied);
        let misread = if changes.holds(self.settled) {
            self.known.note(&served);
            None
        } else {
            self.ask(gate, changes, settled, served)
        };
        if misread.is_none() {
            self.known.settle();
        }
        misread
    }

    /// Asks about the streams, behind what was served; `settled` is how many changes were done before that. It returns a stream for which
    /// the subscriber that connected is to be disconnected.
    fn ask<G: Gate>(
        &mut self,
        gate: &mut MeteredGate<G>,
        changes: &LayoutChanges,
        settled: Option<usize>,
        served: ServedOnce,
    ) -> Option<u16>
        ensures sub { self.new.sub ≡ self.old.sub }
        ensures own { OwnOnly self.old.sub (G.posts gate.old.gate) (G.posts gate.new.gate) }
    {
        let now_settled = changes.settled();
        let found = ask_standings(self.endpoint.sub(), gate);
        let mut served = served;
        served.is_quiet = changes.holds(settled);
        let judged = self
            .known
            .judge_all(&found, &served, self.endpoint.change());
        self.settled = if judged.asks_again { None } else { now_settled };
        judged.misread
    }

    /// Looks each 10 seconds at the streams of the subscriber that connected, and disconnects it where all data of one were too late for 20 seconds:
    /// once it connects again its streams begin anew.
    #[tactic(auto, using(crate::proofs::Own::own_nil, crate::proofs::Own::own_more, crate::proofs::Own::own_as))]
    pub(crate) fn look_at_streams<R: Wait + Clock, G: Gate>(
        &mut self,
        rt: &R,
        gate: &mut MeteredGate<G>,
        journal: &Journal,
        now: Instant,
    )
        ensures sub { self.new.sub ≡ self.old.sub }
        // It posts of its own subscriber alone.
        ensures own { OwnOnly self.old.sub (G.posts gate.old.gate) (G.posts gate.new.gate) }
    {
        if !self.late.is_due(now) {
            return;
        }
        self.late.begin(now);
        if let Some(stream) = self.late.look(self.endpoint.sub(), gate) {
            self.disconnect(rt, gate, journal, now, LogEvent::SetBack, stream);
        }
    }

    /// Disconnects the subscriber that connected, for this reason and by this stream.
    #[tactic(auto, using(crate::proofs::Own::own_as))]
    fn disconnect<R: Wait + Clock, G: Gate>(
        &mut self,
        rt: &R,
        gate: &mut MeteredGate<G>,
        journal: &Journal,
        now: Instant,
        event: LogEvent,
        stream: u16,
    )
        ensures sub { self.new.sub ≡ self.old.sub }
        ensures own { OwnOnly self.old.sub (G.posts gate.old.gate) (G.posts gate.new.gate) }
    {
        self.endpoint.hang_up(gate);
        self.part(now);
        journal.log(rt, self.entry(event, Detail::OfStream(stream)));
    }

    /// Posts what is due in the subscriber's name, one CFG-2 and one start at most, and returns whether something was posted.
    #[tactic(auto, using(crate::proofs::Own::own_nil, crate::proofs::Own::own_more, crate::proofs::Own::own_as))]
    fn post_due<R: Wait + Clock, G: Gate>(
        &mut self,
        rt: &R,
        gate: &mut MeteredGate<G>,
        journal: &Journal,
        is_emptied: bool,
    ) -> bool
        ensures sub { self.new.sub ≡ self.old.sub }
        ensures own { OwnOnly self.old.sub (G.posts gate.old.gate) (G.posts gate.new.gate) }
    {
        let is_posted = self.send_and_resume(rt, gate, journal, is_emptied);
        if is_posted {
            // These are no commands of the next pass: between them and it a layout may change.
            self.report_posted(rt, gate, journal);
        }
        is_posted
    }

    /// Takes what its gate saw, and reports which streams were started.
    fn report_posted<R: Wait + Clock, G: Gate>(
        &self,
        rt: &R,
        gate: &mut MeteredGate<G>,
        journal: &Journal,
    )
        ensures gate { gate.new.gate ≡ gate.old.gate }
    {
        let seen = gate.take_stats();
        self.log_switched(rt, &seen.switched, journal);
    }

    /// Has a CFG-2 sent that is owed, and where nothing waits a stream go on; returns whether something was posted.
    #[tactic(auto, using(crate::proofs::Own::own_nil, crate::proofs::Own::own_more, crate::proofs::Own::own_as))]
    fn send_and_resume<R: Wait + Clock, G: Gate>(
        &mut self,
        rt: &R,
        gate: &mut MeteredGate<G>,
        journal: &Journal,
        is_emptied: bool,
    ) -> bool
        ensures sub { self.new.sub ≡ self.old.sub }
        ensures own { OwnOnly self.old.sub (G.posts gate.old.gate) (G.posts gate.new.gate) }
    {
        let is_sent = self.send_config(rt, gate, journal);
        if !is_emptied {
            return is_sent;
        }
        let is_resumed = self.resume_next(gate);
        is_sent || is_resumed
    }

    /// Has the CFG-2 of a stream put among the replies that is owed one, and returns whether it was.
    #[tactic(auto, using(crate::proofs::Own::own_nil))]
    fn send_config<R: Wait + Clock, G: Gate>(
        &mut self,
        rt: &R,
        gate: &mut MeteredGate<G>,
        journal: &Journal,
    ) -> bool
        ensures sub { self.new.sub ≡ self.old.sub }
        ensures own { OwnOnly self.old.sub (G.posts gate.old.gate) (G.posts gate.new.gate) }
    {
        let Some(stream) = self.known.owed() else {
            return false;
        };
        let posted = post_config(self.endpoint.sub(), stream, gate);
        if posted != Posted::Later {
            self.known.paid(stream);
        }
        if posted == Posted::Done {
            journal.log(
                rt,
                self.entry(LogEvent::ConfigSent, Detail::OfStream(stream)),
            );
        }
        posted == Posted::Done
    }

    /// Has a stream go on that was defined anew, behind its CFG-2, while nothing waits; returns whether one does.
    #[tactic(auto, using(crate::proofs::Own::own_nil, crate::proofs::Own::own_more))]
    fn resume_next<G: Gate>(&mut self, gate: &mut MeteredGate<G>) -> bool
        ensures sub { self.new.sub ≡ self.old.sub }
        // It posts of its own subscriber alone.
        ensures own { OwnOnly self.old.sub (G.posts gate.old.gate) (G.posts gate.new.gate) }
    {
        let Some(stream) = self.known.resuming() else {
            return false;
        };
        let found = ask_standings(self.endpoint.sub(), gate);
        let Some(standing) = stopped_in(&found, stream) else {
            // It is there no more, or its subscriber started it meanwhile.
            self.known.give_up(stream);
            return false;
        };
        match post_resume(self.endpoint.sub(), stream, gate) {
            Posted::Done => self.known.resumed(&standing),
            Posted::Refused => self.known.give_up(stream),
            Posted::Later => {}
        }
        true
    }

    /// What is reported of it.
    pub(crate) fn entry(&self, event: LogEvent, detail: Detail) -> Entry {
        Entry::new(event, Subject::Subscriber(self.endpoint.sub()), detail)
    }

    /// Logs what happened while the subscriber that connected was served.
    fn log_seen<R: Wait + Clock>(&mut self, rt: &R, seen: &GateStats, journal: &Journal)
        ensures same { self.new ≡ self.old }
    {
        if seen.gap > 0 {
            self.gaps = self.gaps.saturating_add(seen.gap);
            let mut entry = self.entry(LogEvent::Gap, Detail::Nothing);
            entry.times = seen.gap;
            journal.log(rt, entry);
        }
        if !seen.switched.is_empty() {
            self.log_switched(rt, &seen.switched, journal);
        }
    }

    /// Logs which streams were started and stopped.
    fn log_switched<R: Wait + Clock>(&self, rt: &R, switched: &Switches, journal: &Journal) {
        for place in 0..STREAMS {
            let Some((stream, is_on)) = switched.at(place) else {
                return;
            };
            let event = if is_on {
                LogEvent::Started
            } else {
                LogEvent::Stopped
            };
            journal.log(rt, self.entry(event, Detail::Stream(stream)));
        }
    }

    /// Closes the connection where it ended, and returns whether more is to be done.
    fn leave<R: Wait + Clock>(
        &mut self,
        rt: &R,
        outcome: ServeResult,
        journal: &Journal,
        now: Instant,
    ) -> bool
        ensures same { self.new ≡ self.old }
    {
        match outcome {
            ServeResult::Waits => false,
            ServeResult::More => true,
            ServeResult::Closes(reason) => {
                self.part(now);
                let detail = match reason {
                    CloseReason::Ended(end) => ended(end),
                    CloseReason::Timeout(_) => Detail::Nothing,
                };
                journal.log(rt, self.entry(closed_event(reason), detail));
                false
            }
        }
    }

    /// Closes the connection that stood, since another takes its place.
    fn give_way<R: Wait + Clock>(&mut self, rt: &R, journal: &Journal, now: Instant)
        ensures same { self.new ≡ self.old }
    {
        let detail = match self.peer {
            Some(peer) => Detail::At(peer),
            None => Detail::Nothing,
        };
        self.part(now);
        journal.log(rt, self.entry(LogEvent::Replaced, detail));
    }

    /// Accepts a subscriber that wants to connect, and returns whether more may want to.
    pub(crate) fn accept<R: Wait + Clock, G: Gate>(
        &mut self,
        rt: &R,
        alloc: Global,
        poll: &Poll,
        place: usize,
        gate: &mut MeteredGate<G>,
        changes: &LayoutChanges,
        journal: &Journal,
        now: Instant,
    ) -> bool {
        for _ in 0..ACCEPTED {
            let outcome = self.acceptor.listener.accept();
            match self.acceptor.accepted(outcome, now) {
                Ok(Some((stream, address))) => {
                    self.admit(
                        rt, alloc, poll, place, gate, changes, journal, now, stream, address,
                    );
                }
                Ok(None) => return false,
                Err(error) => {
                    let detail = Detail::of_error(&error);
                    journal.log(rt, self.entry(LogEvent::NotAccepted, detail));
                    return false;
                }
            }
        }
        true
    }

    /// Lets a connection in, or closes it.
    fn admit<R: Wait + Clock, G: Gate>(
        &mut self,
        rt: &R,
        alloc: Global,
        poll: &Poll,
        place: usize,
        gate: &mut MeteredGate<G>,
        changes: &LayoutChanges,
        journal: &Journal,
        now: Instant,
        mut stream: TcpStream,
        address: SocketAddr,
    ) {
        match self.endpoint.admit(alloc, gate, host_of(address), now) {
            Admission::Accepted { replaced } => {
                if replaced {
                    self.give_way(rt, journal, now);
                }
                self.part(now);
                let both = Interest::READABLE | Interest::WRITABLE;
                let token = connected(place);
                if let Err(error) = poll.registry().register(&mut stream, token, both) {
                    self.endpoint.hang_up(gate);
                    let detail = Detail::of_error(&error);
                    journal.log(rt, self.entry(LogEvent::SocketFault, detail));
                    return;
                }
                if let Err(error) = stream.set_nodelay(true) {
                    let detail = Detail::of_error(&error);
                    journal.log(rt, self.entry(LogEvent::NoDelayFault, detail));
                }
                self.stream = Some(stream);
                self.peer = Some(address);
                self.late.begin(now);
                self.ask(gate, changes, None, ServedOnce::nothing());
                journal.log(rt, self.entry(LogEvent::Connected, Detail::At(address)));
            }
            Admission::Forbidden => {
                journal.log(rt, self.entry(LogEvent::Foreign, Detail::At(address)));
            }
            Admission::Refused { refusal, replaced } => {
                if replaced {
                    self.give_way(rt, journal, now);
                }
                let detail = match (refusal, self.peer) {
                    (Refusal::Busy, Some(peer)) => Detail::Between(address, peer),
                    _ => Detail::Because(refusal),
                };
                journal.log(rt, self.entry(LogEvent::Refused, detail));
            }
        }
    }
}

/// What happened while a subscriber was served, by what its gate saw.
fn served_by(seen: &GateStats) -> ServedOnce {
    ServedOnce {
        configured: seen.configured,
        switched: seen.switched,
        // It is found out behind the question.
        is_quiet: false,
        is_emptied: seen.drains > 0 && seen.handed < FULL,
    }
}

/// The stream of this number among these, where it is there and off.
fn stopped_in(found: &Standings, stream: u16) -> Option<FoundStream> {
    for standing in found.iter().flatten() {
        if standing.stream == stream && !standing.is_on {
            return Some(*standing);
        }
    }
    None
}

/// The token of a port's listener, and of its connection.
pub(crate) fn listening(place: usize) -> Token {
    Token(place.saturating_mul(2))
}

fn connected(place: usize) -> Token {
    Token(place.saturating_mul(2).saturating_add(1))
}

/// The entry of the log when a connection is closed.
pub(crate) fn closed_event(reason: CloseReason) -> LogEvent {
    match reason {
        CloseReason::Ended(_) => LogEvent::SubscriberEnded,
        CloseReason::Timeout(Timeout::Stalled) => LogEvent::Stalled,
        CloseReason::Timeout(Timeout::Unacknowledged) => LogEvent::Unacknowledged,
        CloseReason::Timeout(Timeout::Idle) => LogEvent::Idle,
    }
}

/// The host of an address. One that is not of four numbers is that of no network but the whole.
fn host_of(address: SocketAddr) -> Ipv4Addr {
    match address.ip() {
        IpAddr::V4(host) => host,
        IpAddr::V6(_) => Ipv4Addr::UNSPECIFIED,
    }
}

/// The time that is so far from now, where it is not for ever.
fn in_future(now: Instant, left: Option<Duration>) -> Option<Instant> {
    now.checked_add(left?)
}
