//! The sources of a worker, apart from its gate.

ghost use Rattle.std.specs.Prelude.{◌≡◌, IfSome, Some, option_map, slice_get};

use crate::measures::Measures;
use crate::pace::Pace;
use crate::source::{SourceConnection, Turn};
use crate::source_entry::SourceEntry;
use crate::source_worker::SourceGate;
use pg_limits::{Action, Clocks, Phase, reference};
use pg_log::{Detail, Entry, LogEvent, Subject};
use pg_recorder::CallRecords;
use pg_service::{
    Dial, GateStats, Mailbox, Poller, READS, ReadyQueue, SourceOrder, Targets, WorkerHandles,
    ended, sooner,
};
use pg_shared::Named;
use pg_wire::{PmuId, Refusal};
use std::alloc::Global;
use std::net::{Net, SocketAddr};
use std::rt::Clock;
use std::sync::Wait;
use std::time::{Duration, Instant, SystemTime};

/// How long the times of all sources are held for their newest, in milliseconds.
const TIMES_MS: u64 = 10;

/// How soon it is looked at the clocks of all sources once more, in milliseconds.
const CLOCKS_MS: u64 = 1_000;

/// The place of this source, if it is one of these.
fn place_of(sources: &[SourceEntry], id: PmuId) -> Option<usize>
    // It is a place of its own.
    ensures own { IfSome result (λ at. option_map (λ s. s.connection.link.source) (slice_get sources.now at) ≡ Some id) }
{
    sources.iter().position(|it| it.connection.source() == id)
}

/// The sources of a worker, and what it serves them with but for its gate.
#[derive(Drop)]
pub(crate) struct OwnSources<'a, R: Wait + Net + Clock> {
    pub(crate) rt: &'a R,
    alloc: Global,
    pub(crate) waiting: Poller,
    number: usize,
    mailbox: &'a Mailbox<SourceOrder>,
    pub(crate) handles: WorkerHandles<'a>,
    pub(crate) sources: Vec<SourceEntry>,
    // The places of sources that are served, and when a source is waited for no longer.
    pub(crate) queue: ReadyQueue,
    // How far its sources may be ahead of those that hand their frames out.
    pub(crate) pace: Pace,
    pub(crate) clock: u64,
    // What the times of measurements may be ahead of, and the clock when the times of all sources were looked at last; those of its own
    // sources, and of all.
    pub(crate) reference: u64,
    referred: u64,
    own_times: Vec<u64>,
    times: Vec<u64>,
    // How often a source was dialed.
    dials: u64,
    // How the clocks of its sources stand, and when it was looked at them last.
    clocks: Clocks,
    pub(crate) looked: Instant,
}

impl<'a, R: Wait + Net + Clock> OwnSources<'a, R> {
    /// No sources, of a worker that has this number among those of its kind.
    pub(crate) fn new(
        rt: &'a R,
        alloc: Global,
        waiting: Poller,
        number: usize,
        mailbox: &'a Mailbox<SourceOrder>,
        handles: WorkerHandles<'a>,
        now: Instant,
    ) -> OwnSources<'a, R> {
        OwnSources {
            rt,
            alloc,
            waiting,
            number,
            mailbox,
            handles,
            sources: Vec::new(alloc),
            queue: ReadyQueue::new(alloc, now),
            pace: Pace::new(alloc),
            clock: 0,
            reference: 0,
            referred: 0,
            own_times: Vec::new(alloc),
            times: Vec::new(alloc),
            dials: 0,
            clocks: Clocks::none(),
            looked: now,
        }
    }

    /// Calls this source too.
    ///
    /// # Errors
    ///
    /// `NoMemory`.
    pub(crate) fn dial(&mut self, measures: &mut Measures, dial: Dial) -> Result<(), Refusal> {
        self.make_room()?;
        let (source, prefer_first) = (dial.source, dial.prefer_first);
        let (connection, targets) = dialled(self.alloc, dial, self.queue.now)?;
        self.queue.due = Some(self.queue.now);
        self.dials = self.dials.wrapping_add(1);
        let number = self.dials;
        if let Some(old) = self.source_mut(source) {
            old.dial_again(connection, targets, prefer_first, number);
            return Ok(());
        }
        // Each source has its measures at its own place.
        measures.add_source()?;
        self.sources.push(SourceEntry::new(connection, targets, prefer_first, number))?;
        Ok(())
    }

    /// Makes room for one source more.
    fn make_room(&mut self) -> Result<(), Refusal> {
        let most = self.sources.len() + 1;
        self.queue.reserve(most)?;
        self.own_times.try_reserve(most)?;
        self.sources.try_reserve(1)?;
        Ok(())
    }

    /// Counts this event.
    pub(crate) fn note(&self, event: LogEvent) {
        self.handles.journal.note(event);
    }

    /// Reads this machine's clock. Where it can't be read, it is as late as it was.
    pub(crate) fn read_clock(&mut self) {
        match clock_ms(self.rt) {
            Some(clock) => self.clock = clock,
            None => self.note(LogEvent::ClockFault),
        }
    }

    /// Finds out what the times of measurements may be ahead of: this machine's clock, and the times of all sources, which are looked at a
    /// hundred times a second at most.
    pub(crate) fn find_reference(&mut self) {
        self.reference = self.reference.max(self.clock);
        let is_looked = self.referred.saturating_add(TIMES_MS) > self.clock;
        if is_looked && self.clock >= self.referred {
            return;
        }
        self.own_times.clear();
        for source in &self.sources {
            if let (Phase::Up, Some(time)) = (source.connection.plan().phase(), source.newest) {
                // There is room for each source.
                let _ = self.own_times.push(time);
            }
        }
        let WorkerHandles {
            journal,
            collector,
            ..
        } = self.handles;
        collector.exchange_times(
            self.rt,
            journal,
            self.number,
            &self.own_times,
            &mut self.times,
        );
        self.reference = reference(self.clock, &self.times);
        self.referred = self.clock;
    }

    /// Serves this source in this turn.
    pub(crate) fn mark(&mut self, place: usize) {
        if let Some(source) = self.sources.get_mut(place) {
            // There is room for each source once.
            if !source.is_ready && self.queue.add(place) {
                source.is_ready = true;
            }
        }
    }

    /// Serves those in this turn whose sockets the last wait named.
    pub(crate) fn mark_named(&mut self) {
        for at in 0..self.waiting.named().len() {
            if let Some(place) = self.waiting.named().get(at).copied() {
                self.mark(place);
            }
        }
        for at in 0..self.waiting.ended().len() {
            if let Some(place) = self.waiting.ended().get(at).copied() {
                if let Some(source) = self.sources.get_mut(place) {
                    source.is_ending = true;
                }
            }
        }
    }

    /// This source, if it is one of its own.
    fn source_mut(&mut self, id: PmuId) -> Option<&mut SourceEntry> {
        let place = place_of(&self.sources, id)?;
        self.sources.get_mut(place)
    }

    /// Carries out its orders.
    pub(crate) fn carry_out_all(&mut self, measures: &mut Measures) {
        for order in self.mailbox.take(self.rt, self.alloc) {
            self.carry_out(measures, order);
        }
    }

    fn carry_out(&mut self, measures: &mut Measures, order: SourceOrder) {
        match order {
            SourceOrder::Dial(dial) => {
                if self.dial(measures, dial).is_err() {
                    self.note(LogEvent::MailFault);
                }
            }
            SourceOrder::Undial(id) => self.undial(id),
            SourceOrder::Renew(id) => {
                let now = self.queue.now;
                if let Some(source) = self.source_mut(id) {
                    source.renew(now);
                    self.queue.due = Some(now);
                }
            }
            SourceOrder::Rest(id) => {
                if let Some(source) = self.source_mut(id) {
                    source.rest();
                }
            }
            SourceOrder::Found {
                source,
                dial,
                place,
                addresses,
            } => self.connect_found(source, dial, place, addresses),
            SourceOrder::Report(asking) => self.report(measures, asking),
            SourceOrder::Room(events) => self.pace.resize(events),
        }
    }

    /// This source is called no longer.
    fn undial(&mut self, id: PmuId) {
        let Some(source) = self.source_mut(id) else {
            return;
        };
        source.rest();
        if !source.targets.is_empty() {
            source.targets.clear();
            let entry = source.entry(LogEvent::Undialed, Detail::Nothing);
            self.handles.journal.log(self.rt, entry);
        }
    }

    /// Reports how its sources stand. One that it calls no longer may be another worker's by now, and is left out.
    fn report(&self, measures: &Measures, asking: u64) {
        let mut reports = Vec::new(self.alloc);
        let second = self.clock / 1_000;
        for (place, source) in self.sources.iter().enumerate() {
            let (false, Some(quality)) = (source.targets.is_empty(), measures.of(place)) else {
                continue;
            };
            let is_reported = match source.report(self.alloc, self.queue.now, quality, second) {
                Ok(report) => reports.push(report).is_ok(),
                Err(_) => false,
            };
            if !is_reported {
                self.note(LogEvent::MailFault);
            }
        }
        let WorkerHandles {
            journal,
            collector,
            ..
        } = self.handles;
        collector.report_sources(self.rt, journal, asking, reports);
    }

    /// A name of a source was looked up: the source is called there, if its call waits for the address. It is passed over where the source was
    /// dialed anew meanwhile.
    fn connect_found(&mut self, id: PmuId, dial: u64, target: usize, addresses: Vec<SocketAddr>) {
        let Some(place) = place_of(&self.sources, id) else {
            return;
        };
        let Some(source) = self.sources.get_mut(place) else {
            return;
        };
        if source.dial != dial {
            return;
        }
        let is_found = !addresses.is_empty();
        let is_awaited = source.awaits_address_of(target);
        source.found(target, addresses);
        let address = source.targets.address(source.connection.plan().at());
        let entry = match address {
            Some(address) if is_found && is_awaited => source.connect(
                self.rt,
                self.waiting.poll(),
                place,
                address,
                self.queue.now,
            ),
            _ if is_found => return,
            _ => {
                if is_awaited {
                    source.connection.ended(self.queue.now);
                }
                source.entry(LogEvent::NoAddress, Detail::Nothing)
            }
        };
        self.queue.due = Some(self.queue.now);
        self.handles.journal.log(self.rt, entry);
    }

    /// Does what is due by now, and finds out when something is due next.
    pub(crate) fn do_due(&mut self, measures: &mut Measures) {
        let mut next = None;
        let mut clocks = Clocks::none();
        for place in 0..self.sources.len() {
            let due = self.do_due_of(measures, place);
            next = sooner(next, due);
            if let Some(source) = self.sources.get(place) {
                if source.connection.plan().phase() == Phase::Up {
                    clocks.add(source.off);
                }
            }
        }
        self.queue.due = next;
        self.log_clocks(clocks);
    }

    /// Does what is due by now of the source at this place, and returns when something is due next.
    fn do_due_of(&mut self, measures: &mut Measures, place: usize) -> Option<Instant> {
        let due = self.sources.get(place)?.connection.due(self.queue.now);
        if let Some(entry) = self.act(place, due) {
            self.handles.journal.log(self.rt, entry);
        }
        if due == Action::Ask {
            // Its commands are written where it is served.
            self.mark(place);
        }
        self.do_trial_of(measures, place);
        let source = self.sources.get(place)?;
        let next = match source.connection.plan().left(self.queue.now) {
            Some(left) => self.queue.now.checked_add(left),
            None => None,
        };
        sooner(next, source.trial_due())
    }

    /// Does this with the source at this place, and returns what is logged of it.
    fn act(&mut self, place: usize, action: Action) -> Option<Entry> {
        let source = self.sources.get_mut(place)?;
        match action {
            Action::Nothing => None,
            Action::Call => source.call(
                self.rt,
                self.alloc,
                self.waiting.poll(),
                self.number,
                place,
                self.handles,
                self.queue.now,
            ),
            Action::GiveUp => {
                let event = if source.awaits_address() {
                    LogEvent::NotFound
                } else {
                    LogEvent::GivenUp
                };
                source.end(self.queue.now);
                Some(source.entry(event, Detail::Nothing))
            }
            Action::Silent => {
                source.end(self.queue.now);
                Some(source.entry(LogEvent::Silent, Detail::Nothing))
            }
            Action::Ask => {
                source.connection.ask_again();
                Some(source.entry(LogEvent::AskedAgain, Detail::Nothing))
            }
        }
    }

    /// Tries the first address of the source at this place, where this is due. Where it announces, its connection is served from now on.
    fn do_trial_of(&mut self, measures: &mut Measures, place: usize) {
        let Some(source) = self.sources.get_mut(place) else {
            return;
        };
        let tried = source.do_trial(
            self.rt,
            self.alloc,
            self.waiting.poll(),
            self.number,
            place,
            self.handles,
            self.queue.now,
        );
        let Some(entry) = tried else {
            return;
        };
        if entry.event == LogEvent::FirstPreferred {
            measures.connect(place);
            self.mark(place);
        }
        self.handles.journal.log(self.rt, entry);
    }

    /// Puts up at the board how the clocks of its sources stand, and reports where this machine's clock is probably the wrong one.
    fn log_clocks(&mut self, clocks: Clocks) {
        let WorkerHandles {
            journal,
            collector,
            ..
        } = self.handles;
        if clocks != self.clocks {
            self.clocks = clocks;
            collector.put_up(self.rt, journal, self.number, clocks);
        }
        if clocks.has_refused() {
            if let Some(off) = collector.clocks(self.rt).wrong_by() {
                journal.log(
                    self.rt,
                    Entry::new(LogEvent::WrongClock, Subject::Nobody, Detail::Off(off)),
                );
            }
        }
        self.looked = self.queue.now;
    }

    /// Ends the call of the source at this place, where it is called: it is connected, or was not reached.
    pub(crate) fn finish_call(&mut self, measures: &mut Measures, place: usize) {
        let Some(source) = self.sources.get_mut(place) else {
            return;
        };
        if source.connection.plan().phase() != Phase::Calling {
            return;
        }
        if let Some(entry) = source.finish_call(self.queue.now) {
            self.handles.journal.log(self.rt, entry);
        }
        if let Phase::Up = source.connection.plan().phase() {
            measures.connect(place);
        }
        self.queue.due = Some(self.queue.now);
    }

    /// Reads of the source at this place, and posts what came.
    pub(crate) fn read_in<N: Named, T: CallRecords>(
        &mut self,
        gate: &mut SourceGate<'a, R, N, T>,
        place: usize,
    ) {
        self.finish_call(&mut gate.measures, place);
        let Some(source) = self.sources.get_mut(place) else {
            return;
        };
        source.is_ready = false;
        for _ in 0..READS {
            let events = self.pace.left();
            if events == 0 {
                break;
            }
            match self.read_once(gate, place, events) {
                Some(Turn::More) => {}
                _ => return,
            }
        }
        self.mark(place);
    }

    /// Reads of the source at this place once, where it is connected, and posts what came: of so many events at most.
    fn read_once<N: Named, T: CallRecords>(
        &mut self,
        gate: &mut SourceGate<'a, R, N, T>,
        place: usize,
        events: u32,
    ) -> Option<Turn> {
        // A turn may take long: the clock is read again before each read, so that no measurement is ahead of an old time.
        let clock = clock_ms(self.rt).unwrap_or(self.clock);
        gate.measures.serve(place, clock);
        let reference = self.reference.max(clock);
        let source = self.sources.get_mut(place)?;
        let (turn, seen) = source.serve(gate, events, self.queue.now, clock, reference)?;
        if seen.makers > 0 {
            self.pace.spend(seen.makers, &self.handles);
        }
        self.note_read(gate, place, &seen, clock);
        if let Turn::Ended(end) = turn {
            let entry = self
                .sources
                .get(place)?
                .entry(LogEvent::SourceEnded, ended(end));
            self.queue.due = Some(self.queue.now);
            self.handles.journal.log(self.rt, entry);
        }
        Some(turn)
    }

    /// Keeps and logs what was seen at this time where the source at this place was read.
    fn note_read<N: Named, T: CallRecords>(
        &mut self,
        gate: &mut SourceGate<'a, R, N, T>,
        place: usize,
        seen: &GateStats,
        clock: u64,
    ) {
        let Some(source) = self.sources.get_mut(place) else {
            return;
        };
        let is_other = source.note_seen(seen, clock, self.queue.now);
        source.log_seen(self.rt, &mut gate.gate, self.handles.journal, seen);
        let records = &mut gate.gate.gate.gate;
        source.log_ignored(self.rt, records, self.handles.journal);
        if seen.far > 0 {
            records.note_ignored(source.connection.source(), Refusal::FarClock, seen.far);
        }
        if gate.measures.take_shortage() {
            self.handles.journal.note(LogEvent::MailFault);
        }
        if is_other {
            // It is looked at the clocks of all sources, a second after the last time at the earliest.
            let soon = self.looked.checked_add(Duration::from_millis(CLOCKS_MS));
            self.queue.expect(soon);
        }
    }

    /// Wakes those that hand out the frames made.
    pub(crate) fn wake(&mut self) {
        self.pace.wake(&self.handles);
    }

    /// Finds out whether its sources are held, since as many frames are out as may be.
    pub(crate) fn hold(&mut self) {
        self.queue.held = self
            .pace
            .hold(self.queue.held, self.queue.now, &self.handles);
    }
}

/// This machine's clock: milliseconds since 1970-01-01 00:00 UTC, as far as it is known.
pub fn clock_ms<R: Clock>(rt: &R) -> Option<u64> {
    let now = SystemTime::now(rt).ok()?;
    let since = now.duration_since(SystemTime::UNIX_EPOCH).ok()?;
    u64::try_from(since.as_millis()).ok()
}

/// The connection of a source that is to be dialled, and its addresses.
fn dialled(
    alloc: Global,
    dial: Dial,
    now: Instant,
) -> Result<(SourceConnection, Targets), Refusal> {
    let targets = Targets::new(alloc, dial.addresses)?;
    let connection = SourceConnection::new(alloc, dial.source, dial.silence, dial.guards, now)?;
    Ok((connection, targets))
}
