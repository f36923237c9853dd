//! The clock's ticks.

ghost use Rattle.std.specs.Prelude.{◌≡◌};

use pg_gateway::{Event, Gate};
use pg_log::LogEvent;
use pg_recorder::{CallRecords, WorkerGate};
use pg_service::{MeteredGate, WorkerHandles};
use pg_shared::{Named, Work};
use std::marker::Model;
use std::rt::Clock;
use std::sync::Wait;
use std::thread;
use std::time::{Duration, SystemTime};

/// A worker that posts the ticks.
#[derive(Drop)]
pub struct Ticker<'a, R: Wait + Clock, N: Named, T: CallRecords> {
    rt: &'a R,
    gate: MeteredGate<WorkerGate<'a, R, N, T>>,
    wait: Duration,
    handles: WorkerHandles<'a>,
}

impl<'a, R: Wait + Clock, N: Named, T: CallRecords> Model for Ticker<'a, R, N, T> {
    ghost use Rattle.pg_gateway.specs.declared.event.Event.{Event};
    ghost use Rattle.pg_gateway.specs.declared.event.Reply.{Reply};
    ghost use Rattle.pg_turn.specs.Known.{Known};

    ghost Value = { Known Event Reply };

    // It is seen as the seat of its gate.
    ghost view = { λ w. w.gate.gate.seat };
}

impl<'a, R: Wait + Clock, N: Named, T: CallRecords> Ticker<'a, R, N, T> {
    /// A ticker that waits so long before each tick, and wakes the subscribers' workers where a tick made frames.
    pub fn new(
        rt: &'a R,
        gate: WorkerGate<'a, R, N, T>,
        wait: Duration,
        handles: WorkerHandles<'a>,
    ) -> Ticker<'a, R, N, T>
        ensures seat { result ≡ gate.entry.seat }
    {
        Ticker {
            rt,
            gate: MeteredGate::new(gate),
            wait,
            handles,
        }
    }

    /// Its gate.
    pub fn into_gate(self) -> WorkerGate<'a, R, N, T>
        // With its own seat.
        ensures seat { result.seat ≡ self.entry }
    {
        let Ticker { gate, .. } = self;
        gate.into_inner()
    }
}

/// The current SOC: seconds since 1970-01-01 00:00 UTC (C37.118.2, 6.2). None where the clock can't be read or SOC has no such
/// number.
fn soc_now<R: Clock>(rt: &R) -> Option<u32> {
    let now = SystemTime::now(rt).ok()?;
    let since = now.duration_since(SystemTime::UNIX_EPOCH).ok()?;
    u32::try_from(since.as_secs()).ok()
}

impl<R: Wait + Clock, N: Named, T: CallRecords> Work for Ticker<'_, R, N, T> {
    /// Waits for the next tick, and posts it with the current SOC. Where the clock has none there is no tick.
    fn turn(&mut self) -> bool {
        thread::sleep(self.rt, self.wait);
        self.gate.gate.begin_round();
        match soc_now(self.rt) {
            Some(soc) => {
                self.gate.post(Event::Tick(soc));
                if self.gate.take_stats().made > 0 {
                    self.handles.wake_ports();
                }
            }
            None => self.handles.journal.note(LogEvent::ClockFault),
        }
        self.gate.gate.end_round();
        true
    }
}
