//! A source, with the connection to it.

use crate::quality_gate::QualityGate;
use crate::source::{SourceConnection, Turn};
use crate::trial::{Trial, Tried};
use mio::net::TcpStream;
use mio::{Interest, Poll, Token};
use pg_audit::PmuStats;
use pg_config::SourceConfig;
use pg_gateway::Gate;
use pg_limits::{Budget, Phase, Portion, StopAfterShortRead};
use pg_log::{ConfigChange, Detail, Entry, Journal, LogEvent, MOST_PMUS, Subject};
use pg_quality::{PmuQuality, PmuSummary, SourceQuality};
use pg_recorder::{CallRecords, WorkerGate};
use pg_service::{
    Address, GateStats, LinkState, Lookup, MeteredGate, SourceReport, Targets, WorkerHandles, ended,
};
use pg_shared::Named;
use pg_wire::Refusal;
use std::alloc::{AllocError, Global};
use std::io::ErrorKind;
use std::net::{Net, SocketAddr};
use std::rt::Clock;
use std::sync::{Arc, Wait};
use std::time::{Duration, Instant};

/// The bytes of the shortest data frame: one PMU without phasors, analogs and digitals (C37.118.2, 6.3).
const SHORTEST: usize = 22;

/// How often the first address is tried, where another one is connected to and the first is to be gone back to, in seconds.
const TRIALS_SECONDS: u64 = 60;

/// How often a trial is looked at, in milliseconds.
const TRIAL_MS: u64 = 100;

/// A source with its connection, if there is one.
#[derive(Drop)]
pub(crate) struct SourceEntry {
    pub(crate) connection: SourceConnection,
    // Its addresses, and whether the first of them is gone back to.
    pub(crate) targets: Targets,
    prefer_first: bool,
    // The number of its last dial.
    pub(crate) dial: u64,
    // Where it was called last.
    called: Option<SocketAddr>,
    stream: Option<TcpStream>,
    // A trial of its first address, and when the next one is begun, or this one is looked at.
    trial: Option<Trial>,
    trial_at: Option<Instant>,
    pub(crate) is_ready: bool,
    // Whether its connection has failed or it sends no more: then it is read until it has ended.
    pub(crate) is_ending: bool,
    // Whether it has announced a configuration since it was called, and the last one that it announced.
    has_announced: bool,
    // Whether it has sent a data frame that counts since it was called.
    has_measured: bool,
    config: Option<Arc<SourceConfig>>,
    // The bytes of its data frames, as of the last one; the shortest there is before one came.
    size: usize,
    // What its link had counted at its last entry in the log.
    reported: PmuStats,
    // The measurements that were too far from the clock, when the last event came that was not, and the last data frame.
    far: u64,
    event_at: Option<Instant>,
    data_at: Option<Instant>,
    // By how many milliseconds its last measurement was ahead of the clock, where it was refused for that.
    pub(crate) off: Option<i64>,
    // The time of its last measurement in its connection, in milliseconds since 1970-01-01 00:00 UTC.
    pub(crate) newest: Option<u64>,
}

impl SourceEntry {
    /// A source that is to be connected to at these addresses, which has this number of a dial. The first address is gone back to where it is
    /// preferred.
    pub(crate) fn new(
        mut connection: SourceConnection,
        targets: Targets,
        prefer_first: bool,
        dial: u64,
    ) -> SourceEntry {
        connection.set_addresses(targets.count(), 0);
        SourceEntry {
            connection,
            targets,
            prefer_first,
            dial,
            called: None,
            stream: None,
            trial: None,
            trial_at: None,
            is_ready: false,
            is_ending: false,
            has_announced: false,
            has_measured: false,
            config: None,
            size: SHORTEST,
            reported: PmuStats::new(),
            far: 0,
            event_at: None,
            data_at: None,
            off: None,
            newest: None,
        }
    }

    /// From now on it is connected to at these addresses. Its last configuration stays, to find out what a new one changes.
    pub(crate) fn dial_again(
        &mut self,
        connection: SourceConnection,
        targets: Targets,
        prefer_first: bool,
        dial: u64,
    ) {
        self.connection = connection;
        self.connection.set_addresses(targets.count(), 0);
        self.targets = targets;
        self.prefer_first = prefer_first;
        self.dial = dial;
        self.close();
        self.reported = PmuStats::new();
        self.far = 0;
        self.event_at = None;
        self.data_at = None;
        self.off = None;
        self.newest = None;
    }

    /// What is reported of it.
    pub(crate) fn entry(&self, event: LogEvent, detail: Detail) -> Entry {
        Entry::new(event, Subject::Source(self.connection.source()), detail)
    }

    /// How it stands, with these measures of its data, in this second of this machine's clock.
    pub(crate) fn report(
        &self,
        alloc: Global,
        now: Instant,
        quality: &SourceQuality,
        second: u64,
    ) -> Result<SourceReport, AllocError> {
        let address = self.address_text(alloc)?;
        let reach = match self.connection.plan().phase() {
            Phase::Up if self.has_measured => LinkState::Up,
            Phase::Up => LinkState::Connected,
            Phase::Calling => LinkState::Calling,
            Phase::Resting => match self.connection.plan().left(now) {
                Some(left) => LinkState::Pause(left),
                None => LinkState::Rests,
            },
        };
        Ok(SourceReport {
            source: self.connection.source(),
            address,
            reach,
            counts: *self.connection.link().stats(),
            far: self.far,
            last: past(now, self.event_at),
            last_data: past(now, self.data_at),
            quality: quality.summary(second),
            delays: quality.delays().last_minute(second),
            pmus: summaries_of(alloc, quality.pmus())?,
        })
    }

    /// The address that is called, or is to be called next: a name as its setup has it, unless several of its addresses are called.
    fn address_text(&self, alloc: Global) -> Result<Option<String>, AllocError> {
        let Some((place, _)) = self.targets.place(self.connection.plan().at()) else {
            return Ok(None);
        };
        let Some(target) = self.targets.target(place) else {
            return Ok(None);
        };
        let text = match (&target.address, self.called) {
            (Address::Known(address), _) => format!(in alloc; "{address}")?,
            (Address::Name(_), Some(called)) if target.found.len() > 1 && self.stream.is_some() => {
                format!(in alloc; "{called}")?
            }
            (Address::Name(name), _) => String::from_str(alloc, name.as_str())?,
        };
        Ok(Some(text))
    }

    /// Keeps when it sent data and how far its clock is off, and returns whether its data are refused for that from now on, or no longer.
    pub(crate) fn note_seen(&mut self, seen: &GateStats, clock: u64, now: Instant) -> bool {
        if seen.rate.is_some() || seen.measured > seen.far {
            self.event_at = Some(now);
        }
        if seen.measured > seen.far {
            self.data_at = Some(now);
        }
        self.has_measured |= seen.measured > seen.far;
        self.far = self.far.saturating_add(seen.far);
        let was_off = self.off.is_some();
        if seen.measured > 0 {
            self.newest = Some(seen.last.millis());
            self.off = match seen.far_at {
                Some(stamp) => Some(stamp.ahead_of(clock)),
                None => None,
            };
        }
        self.off.is_some() != was_off
    }

    /// Logs what happened while it was served.
    pub(crate) fn log_seen<R: Wait + Clock, G: Gate>(
        &mut self,
        rt: &R,
        gate: &mut MeteredGate<G>,
        journal: &Journal,
        seen: &GateStats,
    ) {
        if let Some(config) = gate.take_announced() {
            self.log_config(rt, config, journal);
        }
        if let (Some(off), true) = (self.off, seen.far > 0) {
            let mut entry = self.entry(LogEvent::FarMeasurement, Detail::Off(off));
            entry.times = seen.far;
            journal.log(rt, entry);
        }
    }

    /// Logs a configuration that was announced, if it is the first one of its connection or another than the last.
    fn log_config<R: Wait + Clock>(
        &mut self,
        rt: &R,
        config: Arc<SourceConfig>,
        journal: &Journal,
    ) {
        let change = match &self.config {
            Some(last) => Some(ConfigChange::between(last, &config)),
            None => None,
        };
        if !self.has_announced {
            self.has_announced = true;
            let detail = Detail::Config(rate_of(&config), pmus_of(&config));
            journal.log(rt, self.entry(LogEvent::Announced, detail));
        }
        if let Some(change) = change {
            if !change.is_nothing() {
                journal.log(
                    rt,
                    self.entry(LogEvent::Reconfigured, Detail::Differs(change)),
                );
            }
        }
        self.config = Some(config);
    }

    /// Logs and records for which reasons its frames were ignored since this was done last.
    pub(crate) fn log_ignored<R: Wait + Clock, N: Named, T: CallRecords>(
        &mut self,
        rt: &R,
        gate: &mut WorkerGate<'_, R, N, T>,
        journal: &Journal,
    ) {
        let counted = *self.connection.link().stats();
        if counted.by_reason == self.reported.by_reason {
            return;
        }
        for reason in Refusal::ALL {
            let at = usize::from(reason.number());
            let (Some(new), Some(old)) = (
                counted.by_reason.get(at),
                self.reported.by_reason.get(at),
            ) else {
                continue;
            };
            let times = new.saturating_sub(*old);
            if times > 0 {
                let mut entry = self.entry(LogEvent::Ignored, Detail::Because(reason));
                entry.times = times;
                journal.log(rt, entry);
                gate.note_ignored(self.connection.source(), reason, times);
            }
        }
        self.reported = counted;
    }

    /// Serves its connection, if it stands, by one read, in which no more than so many data frames end.
    pub(crate) fn serve<G: Gate>(
        &mut self,
        gate: &mut QualityGate<MeteredGate<G>>,
        events: u32,
        now: Instant,
        clock: u64,
        reference: u64,
    ) -> Option<(Turn, GateStats)> {
        let Phase::Up = self.connection.plan().phase() else {
            return None;
        };
        let stream = self.stream.as_ref()?;
        let most = self.size.saturating_mul(events as usize);
        let reader = Portion::new(StopAfterShortRead::new(stream, self.is_ending), most);
        let mut budget = Budget::new(reader, 1);
        let mut writer = stream;
        let (turn, seen) = self
            .connection
            .serve(&mut budget, &mut writer, gate, now, clock, reference);
        if budget.reader.reader.has_read {
            self.connection.received(now);
        }
        if seen.size > 0 {
            self.size = seen.size;
        } else if seen.rate.is_some() {
            self.size = SHORTEST;
        }
        match turn {
            Turn::More if budget.reader.reader.has_stopped => Some((Turn::Waits, seen)),
            Turn::Ended(_) => {
                self.close();
                Some((turn, seen))
            }
            _ => Some((turn, seen)),
        }
    }

    /// Whether its call waits for an address of this target.
    pub(crate) fn awaits_address_of(&self, place: usize) -> bool {
        let called = self.targets.place(self.connection.plan().at());
        self.awaits_address() && called.map(|it| it.0) == Some(place)
    }

    /// Whether its call waits for an address.
    pub(crate) fn awaits_address(&self) -> bool {
        self.stream.is_none() && self.connection.plan().phase() == Phase::Calling
    }

    /// Begins a call of the address whose turn it is. A name is looked up for it; where its addresses were found before, one of these is called
    /// meanwhile.
    pub(crate) fn call<R: Net + Wait>(
        &mut self,
        rt: &R,
        alloc: Global,
        poll: &Poll,
        worker: usize,
        place: usize,
        handles: WorkerHandles<'_>,
        now: Instant,
    ) -> Option<Entry> {
        let at = self.connection.plan().at();
        let Some((target, _)) = self.targets.place(at) else {
            self.connection.rest();
            return None;
        };
        if self.look_up(rt, alloc, worker, target, handles).is_err() {
            self.connection.ended(now);
            let detail = Detail::System(ErrorKind::OutOfMemory);
            return Some(self.entry(LogEvent::NotMade, detail));
        }
        match self.targets.address(at) {
            Some(address) => Some(self.connect(rt, poll, place, address, now)),
            None => {
                self.connection.sought(now);
                None
            }
        }
    }

    /// Has the name of this target looked up, if it is one, unless it is being looked up.
    fn look_up<R: Wait>(
        &mut self,
        rt: &R,
        alloc: Global,
        worker: usize,
        place: usize,
        handles: WorkerHandles<'_>,
    ) -> Result<(), AllocError> {
        let source = self.connection.source();
        let Some(target) = self.targets.target_mut(place) else {
            return Ok(());
        };
        let (Address::Name(name), false) = (&target.address, target.is_looked_up) else {
            return Ok(());
        };
        let lookup = Lookup {
            worker,
            source,
            dial: self.dial,
            place,
            name: String::from_str(alloc, name.as_str())?,
        };
        target.is_looked_up = handles.look_up(rt, lookup);
        Ok(())
    }

    /// The name of this target was looked up.
    pub(crate) fn found(&mut self, place: usize, addresses: Vec<SocketAddr>) {
        let at = self.connection.plan().at();
        let at = self.targets.found(place, addresses, at);
        self.connection.set_addresses(self.targets.count(), at);
    }

    /// Begins a connection to this address.
    pub(crate) fn connect<R: Net>(
        &mut self,
        rt: &R,
        poll: &Poll,
        place: usize,
        address: SocketAddr,
        now: Instant,
    ) -> Entry {
        let both = Interest::READABLE | Interest::WRITABLE;
        self.begin(address);
        let mut stream = match TcpStream::connect(rt, address) {
            Ok(stream) => stream,
            Err(error) => {
                self.connection.ended(now);
                let detail = Detail::of_call(Some(address), &error);
                return self.entry(LogEvent::NotMade, detail);
            }
        };
        if let Err(error) = poll.registry().register(&mut stream, Token(place), both) {
            self.connection.ended(now);
            return self.entry(LogEvent::SocketFault, Detail::of_error(&error));
        }
        self.stream = Some(stream);
        self.connection.called(now);
        self.entry(LogEvent::Called, Detail::At(address))
    }

    /// Nothing is known yet of the connection to this address.
    fn begin(&mut self, address: SocketAddr) {
        self.has_announced = false;
        self.has_measured = false;
        self.newest = None;
        self.called = Some(address);
        self.is_ending = false;
        self.size = SHORTEST;
    }

    /// When the next trial of its first address is begun, or the one that runs is looked at.
    pub(crate) fn trial_due(&self) -> Option<Instant> {
        if self.is_to_go_back() {
            self.trial_at
        } else {
            None
        }
    }

    /// Whether its first target is to be gone back to: another one is connected to.
    fn is_to_go_back(&self) -> bool {
        if !self.prefer_first || self.connection.plan().phase() != Phase::Up {
            return false;
        }
        match self.targets.place(self.connection.plan().at()) {
            Some((place, _)) => place > 0,
            None => false,
        }
    }

    /// Begins a trial of its first address, or looks at the one that runs, where this is due.
    pub(crate) fn do_trial<R: Net + Wait>(
        &mut self,
        rt: &R,
        alloc: Global,
        poll: &Poll,
        worker: usize,
        place: usize,
        handles: WorkerHandles<'_>,
        now: Instant,
    ) -> Option<Entry> {
        let due = self.trial_due()?;
        if due > now {
            return None;
        }
        let Some(mut trial) = self.trial.take() else {
            return self.begin_trial(rt, alloc, worker, handles, now);
        };
        match trial.step(now) {
            Tried::Waits => {
                self.trial = Some(trial);
                self.trial_at = now.checked_add(Duration::from_millis(TRIAL_MS));
                None
            }
            Tried::Announced => Some(self.go_back(poll, place, trial, now)),
            Tried::Failed(detail) => Some(self.not_back(LogEvent::FirstNotMade, detail, now)),
            Tried::Silent => Some(self.not_back(LogEvent::FirstSilent, Detail::Nothing, now)),
        }
    }

    /// Begins a trial of its first address. A name is looked up; where its addresses were found before, the first of these is tried meanwhile.
    fn begin_trial<R: Net + Wait>(
        &mut self,
        rt: &R,
        alloc: Global,
        worker: usize,
        handles: WorkerHandles<'_>,
        now: Instant,
    ) -> Option<Entry> {
        self.trial_at = now.checked_add(Duration::from_secs(TRIALS_SECONDS));
        if self.look_up(rt, alloc, worker, 0, handles).is_err() {
            let detail = Detail::System(ErrorKind::OutOfMemory);
            return Some(self.not_back(LogEvent::FirstNotMade, detail, now));
        }
        let address = self.targets.address(0)?;
        match Trial::begin(rt, alloc, self.connection.source(), address, now) {
            Ok(trial) => {
                self.trial = Some(trial);
                self.trial_at = now.checked_add(Duration::from_millis(TRIAL_MS));
                None
            }
            Err(detail) => Some(self.not_back(LogEvent::FirstNotMade, detail, now)),
        }
    }

    /// The trial failed: the next one comes in a minute.
    fn not_back(&mut self, event: LogEvent, detail: Detail, now: Instant) -> Entry {
        self.trial_at = now.checked_add(Duration::from_secs(TRIALS_SECONDS));
        self.entry(event, detail)
    }

    /// The connection of the trial takes the place of the one that stands.
    fn go_back(&mut self, poll: &Poll, place: usize, trial: Trial, now: Instant) -> Entry {
        let both = Interest::READABLE | Interest::WRITABLE;
        let (address, mut stream) = trial.into_parts();
        let mut ready = stream.set_nodelay(true);
        if ready.is_ok() {
            ready = poll.registry().register(&mut stream, Token(place), both);
        }
        if let Err(error) = ready {
            return self.not_back(LogEvent::FirstNotMade, Detail::of_error(&error), now);
        }
        self.begin(address);
        self.stream = Some(stream);
        self.connection.first_made(now);
        self.entry(LogEvent::FirstPreferred, Detail::At(address))
    }

    /// Closes its sockets.
    fn close(&mut self) {
        self.stream = None;
        self.trial = None;
        self.trial_at = None;
    }

    /// Finds out whether the connection that was begun is made by now, or has failed.
    pub(crate) fn finish_call(&mut self, now: Instant) -> Option<Entry> {
        let Some(stream) = &self.stream else {
            return None;
        };
        let failed = match stream.take_error() {
            Ok(None) => None,
            Ok(Some(error)) | Err(error) => Some(Detail::of_call(self.called, &error)),
        };
        if let Some(detail) = failed {
            self.end(now);
            return Some(self.entry(LogEvent::NotMade, detail));
        }
        if stream.peer_addr().is_err() {
            return None;
        }
        let option = stream.set_nodelay(true);
        self.connection.made(now);
        self.trial_at = now.checked_add(Duration::from_secs(TRIALS_SECONDS));
        Some(match option {
            Ok(()) => self.entry(LogEvent::Made, Detail::Nothing),
            Err(error) => self.entry(LogEvent::NoDelayFault, Detail::of_error(&error)),
        })
    }

    /// Ends the connection, or the call.
    pub(crate) fn end(&mut self, now: Instant) {
        self.close();
        self.connection.ended(now);
    }

    /// Ends the connection, and calls no more.
    pub(crate) fn rest(&mut self) {
        self.close();
        self.connection.rest();
    }

    /// Ends the connection, and calls anew.
    pub(crate) fn renew(&mut self, now: Instant) {
        self.close();
        self.connection.renew(now);
    }
}

/// How good the blocks of these PMUs are.
fn summaries_of(alloc: Global, pmus: &[PmuQuality]) -> Result<Vec<PmuSummary>, AllocError> {
    let mut summaries = Vec::with_capacity(alloc, pmus.len())?;
    for pmu in pmus {
        summaries.push(pmu.summary())?;
    }
    Ok(summaries)
}

/// DATA_RATE of a configuration.
fn rate_of(config: &SourceConfig) -> i16 {
    match config.parts.first() {
        Some(part) => part.rate,
        None => 0,
    }
}

/// The IDCODEs of the PMUs of a configuration in their order, 0 behind the last.
fn pmus_of(config: &SourceConfig) -> [u16; MOST_PMUS] {
    let mut pmus = [0; MOST_PMUS];
    for (place, part) in pmus.iter_mut().zip(config.parts.iter()) {
        *place = part.id();
    }
    pmus
}

/// How long it is past, if it was.
fn past(now: Instant, at: Option<Instant>) -> Option<Duration> {
    match at {
        Some(at) => Some(now.saturating_duration_since(at)),
        None => None,
    }
}
