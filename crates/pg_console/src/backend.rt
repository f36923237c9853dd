//! The answers at the control socket and for the page.

use crate::console::{Console, ServiceCommands, answer_lines, is_reload};
use crate::reloads::Reloads;
use crate::service_handle::ServiceHandle;
use crate::snapshot::seen_by;
use pg_admin::AdminBackend;
use pg_log::Journal;
use pg_recorder::{RecordedAtOnce, WorkerGate};
use pg_service::MeteredGate;
use pg_shared::Named;
use pg_status::{Answer, Histogram, LineAnswer, Snapshot};
use std::alloc::{AllocError, Global};
use std::io;
use std::io::Write;
use std::rt::Clock;
use std::sync::Wait;

/// Answers the lines of a control socket as those of an operator, and says what the service shows of itself. The line `reload` is put
/// off, where a worker of its own does it.
#[derive(Drop)]
pub struct ControlBackend<'a, R: Wait + Clock, N: Named, S: ServiceCommands + Drop> {
    rt: &'a R,
    alloc: Global,
    gate: MeteredGate<WorkerGate<'a, R, N, RecordedAtOnce>>,
    console: Console<'a, Vec<u8>>,
    steering: S,
    ages: Histogram,
}

impl<'a, R: Wait + Clock, N: Named, S: ServiceCommands + Drop> ControlBackend<'a, R, N, S> {
    /// Lines are posted at this gate; those that ask for more are done by `steering`.
    pub fn new(
        rt: &'a R,
        alloc: Global,
        gate: WorkerGate<'a, R, N, RecordedAtOnce>,
        service: ServiceHandle<'a>,
        steering: S,
    ) -> ControlBackend<'a, R, N, S> {
        ControlBackend {
            rt,
            alloc,
            gate: MeteredGate::new(gate),
            console: Console::new(alloc, Vec::new(alloc), service),
            steering,
            ages: Histogram::new(),
        }
    }

    /// Its gate.
    pub fn into_gate(self) -> WorkerGate<'a, R, N, RecordedAtOnce> {
        let ControlBackend { gate, .. } = self;
        gate.into_inner()
    }
}

impl<R: Wait + Clock, N: Named, S: ServiceCommands + Drop> Answer for ControlBackend<'_, R, N, S> {
    fn answer(&mut self, line: &[u8], owed: &mut Vec<u8>) -> io::Result<LineAnswer> {
        let service = self.console.service();
        if let (Some(reloads), true) = (service.reloads, is_reload(self.alloc, line)) {
            return put_off(self.rt, reloads, service.handles.journal, owed);
        }
        let mut reader = line;
        answer_lines(
            self.rt,
            &mut self.console,
            &mut self.gate,
            &mut reader,
            &mut self.steering,
        );
        let out = self.console.out_mut();
        owed.extend_from_slice(out.as_slice())?;
        out.clear();
        Ok(LineAnswer::Done)
    }

    fn take_answer(&mut self, number: u64, owed: &mut Vec<u8>) -> io::Result<bool> {
        let Some(reloads) = self.console.service().reloads else {
            return Ok(false);
        };
        let Some(answer) = reloads.take_answer(self.rt, number) else {
            return Ok(false);
        };
        owed.extend_from_slice(answer.as_slice())?;
        Ok(true)
    }

    fn drop_answer(&mut self, number: u64) {
        if let Some(reloads) = self.console.service().reloads {
            reloads.drop_answer(self.rt, number);
        }
    }
}

/// Asks for a reload, whose answer comes later. Where it can't wait, that is answered.
fn put_off<R: Wait>(
    rt: &R,
    reloads: &Reloads,
    journal: &Journal,
    owed: &mut Vec<u8>,
) -> io::Result<LineAnswer> {
    match reloads.ask(rt, journal) {
        Ok(number) => Ok(LineAnswer::Later(number)),
        Err(refusal) => {
            let (number, name) = (refusal.number(), refusal.name());
            writeln!(owed, "refused {number} {name}")?;
            Ok(LineAnswer::Done)
        }
    }
}

impl<R: Wait + Clock, N: Named, S: ServiceCommands + Drop> AdminBackend
    for ControlBackend<'_, R, N, S> {
    fn snapshot(&mut self) -> Result<Snapshot, AllocError> {
        let service = self.console.service();
        let (snapshot, ages) = seen_by(self.rt, self.alloc, &service, &mut self.gate)?;
        self.ages = ages;
        Ok(snapshot)
    }

    fn ages(&mut self) -> Histogram {
        self.ages
    }
}
