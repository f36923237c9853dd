//! The phases of a demo: which one is next, by what is known.
use crate::tests::asserts::same;
use pg_tools::{DemoFacts as Facts, DemoPhase as Phase, PhaseMachine};
use std::test::*;

const NOTHING: Facts = Facts {
    are_connected: false,
    are_on: false,
    is_drained: true,
};

// From where, what is known, after how many milliseconds, of how many seconds: where it stands then.
#[test]
fn next_phases(rt: HostRuntime) {
    let called = Facts {
        are_connected: true,
        ..NOTHING
    };
    let on = Facts {
        are_on: true,
        ..called
    };
    let on_its_way = Facts {
        is_drained: false,
        ..on
    };
    for (from, facts, past, seconds, want) in [
        (Phase::Connecting, NOTHING, 100, Some(10), Phase::Connecting),
        (Phase::Connecting, called, 100, Some(10), Phase::Starting),
        (Phase::Connecting, NOTHING, 40_000, Some(10), Phase::Over),
        (Phase::Starting, called, 100, Some(10), Phase::Starting),
        (Phase::Starting, on, 100, Some(10), Phase::Sending),
        (Phase::Starting, called, 40_000, None, Phase::Over),
        (Phase::Sending, on, 9_999, Some(10), Phase::Sending),
        (Phase::Sending, on, 10_000, Some(10), Phase::Draining),
        (Phase::Sending, on, 1_000_000, None, Phase::Sending),
        (
            Phase::Draining,
            on_its_way,
            39_999,
            Some(10),
            Phase::Draining,
        ),
        (Phase::Draining, on_its_way, 40_000, Some(10), Phase::Over),
        (Phase::Draining, on, 0, Some(10), Phase::Over),
        (Phase::Over, on, 100_000, Some(10), Phase::Over),
    ] {
        let mut phases = PhaseMachine {
            seconds,
            phase: from,
            since: 5_000,
        };
        let at = 5_000u64.saturating_add(past);
        assert_eq!(rt; phases.step(facts, at), want, "{from:?} {past}");
        // The time counts anew where it stands elsewhere.
        let since = if want == from { 5_000 } else { at };
        same(&rt, (phases.phase, phases.since), (want, since));
    }
    same(&rt, PhaseMachine::new(None, 7).phase, Phase::Connecting);
}
