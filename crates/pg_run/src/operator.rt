//! The operator, whose lines come by standard input.

ghost use Rattle.std.specs.Prelude.{◌≡◌};

use crate::reloading::SetupManager;
use crate::stoppable_stdin::StoppableStdin;
use pg_console::{Console, ServiceHandle, answer_lines};
use pg_recorder::{RecordedAtOnce, WorkerGate};
use pg_service::MeteredGate;
use pg_shared::{Named, Work};
use std::alloc::Global;
use std::io::{BufReader, BufWriter, Printer, StdinLock};
use std::marker::Model;
use std::net::Net;
use std::rt::Clock;
use std::sync::Wait;

/// Standard input, where an operator's lines come from, and standard output, where they are answered.
#[derive(Drop)]
pub(crate) struct StandardIo<'a, R: Print> {
    pub(crate) input: BufReader<StoppableStdin<'a>>,
    pub(crate) output: BufWriter<Printer<'a, R>>,
}

/// A worker that answers an operator's lines. Its one turn takes all of them.
#[derive(Drop)]
pub struct Operator<
    'a,
    R: Wait + Input<Reader = StdinLock<'static>> + Print + Net + Clock,
    N: Named,
> {
    rt: &'a R,
    gate: MeteredGate<WorkerGate<'a, R, N, RecordedAtOnce>>,
    reader: BufReader<StoppableStdin<'a>>,
    console: Console<'a, BufWriter<Printer<'a, R>>>,
    in_force: SetupManager<'a, R>,
}

impl<'a, R: Wait + Input<Reader = StdinLock<'static>> + Print + Net + Clock, N: Named> Model
    for Operator<'a, R, N> {
    ghost use Rattle.pg_gateway.specs.declared.event.Event.{Event};
    ghost use Rattle.pg_gateway.specs.declared.event.Reply.{Reply};
    ghost use Rattle.pg_turn.specs.Known.{Known};

    ghost Value = { Known Event Reply };

    // It is seen as the seat of its gate.
    ghost view = { λ w. w.gate.gate.seat };
}

impl<'a, R: Wait + Input<Reader = StdinLock<'static>> + Print + Net + Clock, N: Named> Operator<
    'a,
    R,
    N,
> {
    /// An operator with these lines, of a gateway that runs by this setup.
    pub(crate) fn new(
        rt: &'a R,
        alloc: Global,
        gate: WorkerGate<'a, R, N, RecordedAtOnce>,
        lines: StandardIo<'a, R>,
        service: ServiceHandle<'a>,
        in_force: SetupManager<'a, R>,
    ) -> Operator<'a, R, N>
        ensures seat { result ≡ gate.entry.seat }
    {
        let StandardIo { input, output } = lines;
        Operator {
            rt,
            gate: MeteredGate::new(gate),
            reader: input,
            console: Console::new(alloc, output, service),
            in_force,
        }
    }

    /// Its gate.
    pub fn into_gate(self) -> WorkerGate<'a, R, N, RecordedAtOnce>
        // With its own seat.
        ensures seat { result.seat ≡ self.entry }
    {
        let Operator { gate, .. } = self;
        gate.into_inner()
    }
}

impl<R: Wait + Input<Reader = StdinLock<'static>> + Print + Net + Clock, N: Named> Work
    for Operator<'_, R, N> {
    fn turn(&mut self) -> bool {
        answer_lines(
            self.rt,
            &mut self.console,
            &mut self.gate,
            &mut self.reader,
            &mut self.in_force,
        );
        false
    }
}
