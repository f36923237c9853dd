//! The worker that does the reloads that clients of the control socket ask for.

ghost use Rattle.std.specs.Prelude.{◌≡◌};

use crate::reloading::SetupManager;
use pg_console::{Console, Reloads, ServiceHandle};
use pg_log::LogEvent;
use pg_recorder::{RecordedAtOnce, WorkerGate};
use pg_service::{MeteredGate, Poller};
use pg_shared::{Named, Work};
use std::alloc::Global;
use std::marker::Model;
use std::mem;
use std::net::Net;
use std::rt::Clock;
use std::sync::Wait;
use std::time::Duration;

/// How long a turn waits at most, so that the worker does not miss that it is to stop, in milliseconds.
const LONGEST_WAIT_MS: u64 = 1_000;

/// A worker that does the reloads that clients of the control socket ask for, one in each turn, while the control socket, the page and
/// the metrics are served.
#[derive(Drop)]
pub struct ReloadWorker<'a, R: Wait + Net + Clock, N: Named> {
    rt: &'a R,
    gate: MeteredGate<WorkerGate<'a, R, N, RecordedAtOnce>>,
    waiting: Poller,
    reloads: &'a Reloads,
    console: Console<'a, Vec<u8>>,
    in_force: SetupManager<'a, R>,
}

impl<'a, R: Wait + Net + Clock, N: Named> Model for ReloadWorker<'a, R, N> {
    ghost use Rattle.pg_gateway.specs.declared.event.Event.{Event};
    ghost use Rattle.pg_gateway.specs.declared.event.Reply.{Reply};
    ghost use Rattle.pg_turn.specs.Known.{Known};

    ghost Value = { Known Event Reply };

    // It is seen as the seat of its gate.
    ghost view = { λ w. w.gate.gate.seat };
}

impl<'a, R: Wait + Net + Clock, N: Named> ReloadWorker<'a, R, N> {
    /// A worker that does these reloads, of a gateway that runs by this setup.
    pub(crate) fn new(
        rt: &'a R,
        alloc: Global,
        gate: WorkerGate<'a, R, N, RecordedAtOnce>,
        waiting: Poller,
        reloads: &'a Reloads,
        service: ServiceHandle<'a>,
        in_force: SetupManager<'a, R>,
    ) -> ReloadWorker<'a, R, N>
        ensures seat { result ≡ gate.entry.seat }
    {
        ReloadWorker {
            rt,
            gate: MeteredGate::new(gate),
            waiting,
            reloads,
            console: Console::new(alloc, Vec::new(alloc), service),
            in_force,
        }
    }

    /// Its gate.
    pub fn into_gate(self) -> WorkerGate<'a, R, N, RecordedAtOnce>
        // With its own seat.
        ensures seat { result.seat ≡ self.entry }
    {
        let ReloadWorker { gate, .. } = self;
        gate.into_inner()
    }

    /// Does the reload of this number, and leaves its answer for the worker that serves the control socket.
    fn reload(&mut self, number: u64) {
        let service = self.console.service();
        let done = self
            .in_force
            .renew(self.rt, &mut self.console, &mut self.gate);
        if done.is_err() {
            service.handles.journal.note(LogEvent::ConsoleFault);
        }
        let empty = Vec::new(self.console.alloc());
        let answer = mem::replace(self.console.out_mut(), empty);
        self.reloads.answer(self.rt, number, answer);
        service.wake_admin();
    }
}

impl<R: Wait + Net + Clock, N: Named> Work for ReloadWorker<'_, R, N> {
    fn turn(&mut self) -> bool {
        let journal = self.console.service().handles.journal;
        let most = Duration::from_millis(LONGEST_WAIT_MS);
        self.waiting.wait(self.rt, journal, most);
        if let Some(number) = self.reloads.next(self.rt, self.console.alloc()) {
            self.reload(number);
            // The next one is done in the next turn, unless all workers are to end.
            self.reloads.wake(journal);
        }
        true
    }
}
