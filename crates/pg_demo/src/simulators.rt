//! Both simulated sources, in step with one another.

use crate::fault::Fault;
use crate::setup::{FIRST_STREAM, SECOND_STREAM};
use crate::state::DemoState;
use pg_shared::Work;
use pg_tools::{
    DemoFacts, DemoPhase, PhaseMachine, Simulator, SimulatorEvent, UnixTime, frame_len,
};
use std::alloc::Global;
use std::rt::Clock;
use std::sync::Wait;
use std::sync::atomic::Ordering;
use std::thread;
use std::time::Duration;

/// How long a turn waits at most, in microseconds.
const LONGEST: u64 = 5_000;

/// The least wait, in microseconds.
const SHORTEST: u64 = 200;

/// As many frames are on their way at most, half the window of a stream. Slots of a machine that is too busy for that are left
/// out by both sources, so that none is lost.
const ON_THEIR_WAY: usize = 32;

/// A worker that simulates both sources. Both send the same slots: none before both streams are on, and none while too
/// many frames are on their way.
#[derive(Drop)]
pub struct Simulators<'a, R: Wait + Clock> {
    rt: &'a R,
    alloc: Global,
    state: &'a DemoState<'a>,
    phases: PhaseMachine,
    one: Simulator,
    other: Simulator,
    events: Vec<SimulatorEvent>,
}

impl<'a, R: Wait + Clock> Simulators<'a, R> {
    /// These sources, from this phase on.
    pub fn new(
        rt: &'a R,
        alloc: Global,
        state: &'a DemoState<'a>,
        phases: PhaseMachine,
        one: Simulator,
        other: Simulator,
    ) -> Simulators<'a, R> {
        Simulators {
            rt,
            alloc,
            state,
            phases,
            one,
            other,
            events: Vec::new(alloc),
        }
    }

    /// What is known of the demo.
    fn facts(&self) -> DemoFacts {
        let [first, second] = &self.state.are_on;
        DemoFacts {
            are_connected: self.one.is_sending() && self.other.is_sending(),
            are_on: first.load(Ordering::SeqCst) && second.load(Ordering::SeqCst),
            is_drained: self.state.expected.lock(self.rt).waiting() == 0,
        }
    }

    /// A turn of both. Whether more is to be done.
    fn step(&mut self) -> Result<bool, Fault> {
        let wait = self
            .one
            .until_due(UnixTime::now(self.rt)?)
            .unwrap_or(LONGEST);
        thread::sleep(
            self.rt,
            Duration::from_micros(wait.clamp(SHORTEST, LONGEST)),
        );
        let at = UnixTime::now(self.rt)?;
        self.events.clear();
        self.one.serve_clients(at, &mut self.events)?;
        self.other.serve_clients(at, &mut self.events)?;
        let facts = self.facts();
        let millis = self.state.start.elapsed(self.rt)?.as_millis();
        let phase = self
            .phases
            .step(facts, u64::try_from(millis).unwrap_or(u64::MAX));
        if phase != DemoPhase::Connecting {
            self.state.is_open.store(true, Ordering::SeqCst);
        }
        self.send_due(at, phase == DemoPhase::Sending)?;
        if phase == DemoPhase::Over {
            let verdict = self
                .state
                .expected
                .lock(self.rt)
                .verdict(FIRST_STREAM, SECOND_STREAM);
            self.state.end(self.rt, Ok(verdict));
            return Ok(false);
        }
        Ok(true)
    }

    /// Sends the frames that are due, or skips them. What has to come is noted before a byte of it is sent.
    fn send_due(&mut self, at: UnixTime, is_sending: bool) -> Result<(), Fault> {
        let (mut one, mut other) = (Vec::new(self.alloc), Vec::new(self.alloc));
        let is_compared = !self.state.is_changed.load(Ordering::SeqCst);
        let mut expected = self.state.expected.lock(self.rt);
        if !is_sending || (is_compared && expected.waiting() >= ON_THEIR_WAY) {
            self.one.skip_due(at);
            self.other.skip_due(at);
        } else {
            self.one.due(at, &mut one)?;
            self.other.due(at, &mut other)?;
        }
        if is_compared {
            let one_len = frame_len(&self.one.settings());
            let other_len = frame_len(&self.other.settings());
            expected.expect(&one, one_len, &other, other_len)?;
        }
        drop(expected);
        self.one.send(&mut self.events)?;
        self.other.send(&mut self.events)?;
        Ok(())
    }
}

impl<R: Wait + Clock> Work for Simulators<'_, R> {
    fn turn(&mut self) -> bool {
        match self.step() {
            Ok(goes_on) => goes_on,
            Err(fault) => {
                self.state.end(self.rt, Err(fault));
                false
            }
        }
    }
}
