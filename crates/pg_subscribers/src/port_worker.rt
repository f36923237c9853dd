//! The workers that serve subscribers.

ghost use Rattle.std.specs.Prelude.{◌≡◌};

use crate::own_ports::OwnPorts;
use crate::port::Port;
use pg_log::Journal;
use pg_recorder::{CallRecords, WorkerGate};
use pg_service::{Mailbox, MeteredGate, Poller, PortOrder, SourceOrder, StatusCollector};
use pg_shared::{Named, Work};
use std::alloc::Global;
use std::io;
use std::marker::Model;
use std::net::Net;
use std::rt::Clock;
use std::sync::Wait;
use std::time::Instant;

/// A worker that serves subscribers at their ports. A turn waits until a socket is ready, it is woken, or one of its
/// subscribers is waited for no longer. Where it was woken, what waits is handed out to all that have connected; then those whose sockets
/// are ready are served.
#[derive(Drop)]
pub struct PortWorker<'a, R: Wait + Net + Clock, N: Named, T: CallRecords> {
    gate: MeteredGate<WorkerGate<'a, R, N, T>>,
    own: OwnPorts<'a, R>,
}

impl<'a, R: Wait + Net + Clock, N: Named, T: CallRecords> Model for PortWorker<'a, R, N, T> {
    ghost use Rattle.pg_gateway.specs.declared.event.Event.{Event};
    ghost use Rattle.pg_gateway.specs.declared.event.Reply.{Reply};
    ghost use Rattle.pg_turn.specs.Known.{Known};

    ghost Value = { Known Event Reply };

    // It is seen as the seat of its gate.
    ghost view = { λ w. w.gate.gate.seat };
}

impl<'a, R: Wait + Net + Clock, N: Named, T: CallRecords> PortWorker<'a, R, N, T> {
    /// A worker without ports.
    pub fn new(
        rt: &'a R,
        alloc: Global,
        gate: WorkerGate<'a, R, N, T>,
        waiting: Poller,
        mailbox: &'a Mailbox<PortOrder>,
        sources: &'a [Mailbox<SourceOrder>],
        journal: &'a Journal,
        collector: &'a StatusCollector,
        now: Instant,
    ) -> PortWorker<'a, R, N, T>
        ensures seat { result ≡ gate.entry.seat }
    {
        PortWorker {
            gate: MeteredGate::new(gate),
            own: OwnPorts::new(
                rt, alloc, waiting, mailbox, sources, journal, collector, now,
            ),
        }
    }

    /// Serves this port too.
    ///
    /// # Errors
    ///
    /// That of the system, where the port can't be waited for, and `OutOfMemory`.
    pub fn open(&mut self, port: Port) -> io::Result<()> {
        self.own.open(port)
    }

    /// Its gate. All its sockets are closed.
    pub fn into_gate(self) -> WorkerGate<'a, R, N, T>
        // With its own seat.
        ensures seat { result.seat ≡ self.entry }
    {
        let PortWorker { gate, .. } = self;
        gate.into_inner()
    }
}

impl<R: Wait + Net + Clock, N: Named, T: CallRecords> Work for PortWorker<'_, R, N, T> {
    fn turn(&mut self) -> bool {
        let own = &mut self.own;
        own.queue.wait(own.rt, &mut own.waiting, own.journal);
        self.gate.gate.begin_round();
        if own.waiting.is_woken() {
            own.pass(&mut self.gate);
        }
        own.mark_named();
        if own.queue.is_due() {
            own.do_due(&mut self.gate);
        }
        own.serve_ready(&mut self.gate);
        self.gate.gate.end_round();
        true
    }
}
