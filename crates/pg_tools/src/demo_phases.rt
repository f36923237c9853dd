//! The phases of a demo, apart from sockets and clocks.

/// How long the start may take, and how long the last frames, in milliseconds.
const PHASE_TIMEOUT: u64 = 40_000;

/// A phase of a demo.
#[derive(Clone, Copy, Debug, PartialEq, Eq)]
pub enum DemoPhase {
    /// The gateway connects to the sources.
    Connecting,
    /// The subscribers start their streams. No data frame is sent before both are on.
    Starting,
    /// Data frames are sent.
    Sending,
    /// No more are sent, and the last ones come.
    Draining,
    /// It is over.
    Over,
}

/// What is known of a demo.
#[derive(Clone, Copy)]
pub struct DemoFacts {
    /// Whether both sources were asked for data.
    pub are_connected: bool,
    /// Whether both streams are on.
    pub are_on: bool,
    /// Whether no frame waits for any subscriber.
    pub is_drained: bool,
}

/// The phase of a demo, and how long it lasts.
#[derive(Clone, Copy)]
pub struct PhaseMachine {
    /// For how many seconds data frames are sent; `None` without an end.
    pub seconds: Option<u32>,
    /// The phase.
    pub phase: DemoPhase,
    /// Since when, in milliseconds.
    pub since: u64,
}

impl PhaseMachine {
    /// It begins at this time, in milliseconds.
    pub fn new(seconds: Option<u32>, now: u64) -> PhaseMachine {
        PhaseMachine {
            seconds,
            phase: DemoPhase::Connecting,
            since: now,
        }
    }

    /// Goes on by what is known at this time, in milliseconds, and answers where it stands then.
    pub fn step(&mut self, facts: DemoFacts, now: u64) -> DemoPhase {
        let past = now.saturating_sub(self.since);
        let next = next_phase(self.phase, facts, past, self.seconds);
        if next != self.phase {
            self.phase = next;
            self.since = now;
        }
        next
    }
}

/// The phase behind one that has lasted so many milliseconds.
fn next_phase(phase: DemoPhase, facts: DemoFacts, past: u64, seconds: Option<u32>) -> DemoPhase {
    match phase {
        DemoPhase::Connecting if facts.are_connected => DemoPhase::Starting,
        DemoPhase::Starting if facts.are_on => DemoPhase::Sending,
        DemoPhase::Draining if facts.is_drained => DemoPhase::Over,
        DemoPhase::Connecting | DemoPhase::Starting | DemoPhase::Draining
            if past >= PHASE_TIMEOUT => DemoPhase::Over,
        DemoPhase::Sending => match seconds {
            Some(seconds) if past >= 1_000 * u64::from(seconds) => DemoPhase::Draining,
            _ => DemoPhase::Sending,
        },
        _ => phase,
    }
}
