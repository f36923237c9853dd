//! The workers that connect to sources.

ghost use Rattle.std.specs.Prelude.{◌≡◌};

use crate::counted_announcements::CountedAnnouncements;
use crate::measures::Measures;
use crate::own_sources::OwnSources;
use crate::quality_gate::QualityGate;
use pg_gateway::{Event, Gate, Reply};
use pg_log::{Detail, Entry, LogEvent, MOST_PMUS, Subject};
use pg_quality::PmuChanges;
use pg_recorder::{CallRecords, WorkerGate};
use pg_service::{Dial, Mailbox, MeteredGate, Poller, SourceOrder, WorkerHandles};
use pg_shared::{Named, Work};
use pg_wire::{PmuId, PmuKey, Refusal};
use std::alloc::Global;
use std::marker::Model;
use std::net::Net;
use std::rt::Clock;
use std::sync::Wait;
use std::time::Instant;

/// The gate of a worker: what it posts is measured, announcements are counted, and calls are recorded.
pub(crate) type SourceGate<'a, R, N, T> = QualityGate<
    MeteredGate<CountedAnnouncements<'a, WorkerGate<'a, R, N, T>>>,
>;

/// A worker that calls sources and serves their connections. A turn waits until a socket is ready, it is woken, or
/// one of its sources is waited for no longer; then it serves those alone.
#[derive(Drop)]
pub struct SourceWorker<'a, R: Wait + Net + Clock, N: Named, T: CallRecords> {
    gate: SourceGate<'a, R, N, T>,
    own: OwnSources<'a, R>,
}

impl<'a, R: Wait + Net + Clock, N: Named, T: CallRecords> Model for SourceWorker<'a, R, N, T> {
    ghost use Rattle.pg_gateway.specs.declared.event.Event.{Event};
    ghost use Rattle.pg_gateway.specs.declared.event.Reply.{Reply};
    ghost use Rattle.pg_turn.specs.Known.{Known};

    ghost Value = { Known Event Reply };

    // It is seen as the seat of its gate.
    ghost view = { λ w. w.gate.gate.gate.gate.seat };
}

impl<'a, R: Wait + Net + Clock, N: Named, T: CallRecords> SourceWorker<'a, R, N, T> {
    /// A worker without sources, which has this number among those of its kind.
    pub fn new(
        rt: &'a R,
        alloc: Global,
        gate: WorkerGate<'a, R, N, T>,
        waiting: Poller,
        number: usize,
        mailbox: &'a Mailbox<SourceOrder>,
        handles: WorkerHandles<'a>,
        now: Instant,
    ) -> SourceWorker<'a, R, N, T>
        ensures seat { result ≡ gate.entry.seat }
    {
        let gate = CountedAnnouncements::new(gate, handles.collector.layout_changes());
        SourceWorker {
            gate: QualityGate::new(MeteredGate::new(gate), Measures::new(alloc)),
            own: OwnSources::new(rt, alloc, waiting, number, mailbox, handles, now),
        }
    }

    /// Calls this source too.
    ///
    /// # Errors
    ///
    /// `NoMemory`.
    pub fn dial(&mut self, dial: Dial) -> Result<(), Refusal> {
        self.own.dial(&mut self.gate.measures, dial)
    }

    /// Its gate. All its sockets are closed.
    pub fn into_gate(self) -> WorkerGate<'a, R, N, T>
        // With its own seat.
        ensures seat { result.seat ≡ self.entry }
    {
        let SourceWorker { gate, .. } = self;
        gate.into_inner().into_inner().into_inner()
    }

    /// Serves the source at this place, whose socket is ready or whose reads were used up, and wakes those that hand out the frames made.
    fn serve(&mut self, place: usize) {
        self.own.read_in(&mut self.gate, place);
        if self.gate.measures.take_second() {
            self.log_quality(place);
        }
        self.own.wake();
    }

    /// Logs what changed of the data of the source at this place, which was served, from the second before.
    fn log_quality(&mut self, place: usize) {
        let Some(source) = self.own.sources.get(place) else {
            return;
        };
        let id = source.connection.source();
        if let Some((is_short, came)) = self.gate.measures.judge() {
            let event = if is_short {
                LogEvent::Incomplete
            } else {
                LogEvent::Complete
            };
            let entry = Entry::new(event, Subject::Source(id), Detail::Came(came));
            self.own.handles.journal.log(self.own.rt, entry);
        }
        for at in 0..MOST_PMUS {
            let Some((pmu, changes)) = self.gate.measures.look(at) else {
                break;
            };
            self.log_changes(id, pmu, changes);
        }
    }

    /// Logs what changed of the blocks of a PMU, if it is registered.
    fn log_changes(&mut self, source: PmuId, pmu: u16, changes: PmuChanges) {
        let sync = match changes.is_out_of_sync {
            Some(true) => Some(LogEvent::OutOfSync),
            Some(false) => Some(LogEvent::InSync),
            None => None,
        };
        let error = match changes.has_error {
            Some(true) => Some(LogEvent::DataError),
            Some(false) => Some(LogEvent::DataGood),
            None => None,
        };
        for event in [sync, error] {
            let Some(event) = event else {
                continue;
            };
            if self.is_registered(source, pmu) {
                let entry = Entry::new(event, Subject::Source(source), Detail::Pmu(pmu));
                self.own.handles.journal.log(self.own.rt, entry);
            }
        }
    }

    /// Whether a PMU is registered at the gateway.
    fn is_registered(&mut self, source: PmuId, pmu: u16) -> bool {
        let Some(pmu) = PmuId::new(pmu) else {
            return false;
        };
        let asked = Event::PmuStats(PmuKey { source, pmu });
        matches!(self.gate.gate.post(asked), Reply::PmuStats(_))
    }

    /// Serves those that are ready. Those whose reads are used up are served again in the next turn, and so is one that is left once as many
    /// frames are out as may be.
    fn serve_ready(&mut self) {
        self.own.queue.begin();
        for at in 0..self.own.queue.served() {
            if self.own.pace.left() == 0 {
                self.own.queue.put_off(at);
                break;
            }
            if let Some(place) = self.own.queue.serving(at) {
                self.serve(place);
            }
        }
    }
}

impl<R: Wait + Net + Clock, N: Named, T: CallRecords> Work for SourceWorker<'_, R, N, T> {
    fn turn(&mut self) -> bool {
        let own = &mut self.own;
        own.queue
            .wait(own.rt, &mut own.waiting, own.handles.journal);
        self.gate.gate.gate.gate.begin_round();
        self.own.read_clock();
        self.own.find_reference();
        if self.own.waiting.is_woken() {
            self.own.carry_out_all(&mut self.gate.measures);
        }
        self.own.mark_named();
        if self.own.queue.is_due() {
            self.own.do_due(&mut self.gate.measures);
        }
        self.own.hold();
        if self.own.queue.held.is_none() {
            self.serve_ready();
            self.own.hold();
        }
        self.gate.gate.gate.gate.end_round();
        true
    }
}
