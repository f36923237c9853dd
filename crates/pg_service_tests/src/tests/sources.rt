//! The guards of the clock, over memory.
use crate::tests::asserts::same;
use crate::tests::frames::{CONFIG_7, data_at, source};
use pg_fakes::FakeGate;
use pg_gateway::{Event, Gate, Reply};
use pg_ingest::{Link, LinkEvent};
use pg_limits::{AheadGuard, Stamp};
use pg_service::{ClockCheck, Guards, MeteredGate};
use std::alloc::Global;
use std::test::*;

fn fake_gate<'a>(alloc: Global) -> FakeGate<'a> {
    FakeGate {
        alloc,
        calls: Vec::new(alloc),
        chunks: &[],
        drains: 0,
        is_full: false,
    }
}

/// A measurement that is 201 ms ahead is refused as FarClock (21), and its time is told; one that is 200 ms ahead is answered by the gate
/// inside.
#[test]
fn refused_as_far_clock(rt: HostRuntime) {
    let alloc = rt.alloc();
    let mut link = Link::new(alloc, source(&rt, 7)).expect(&rt, "memory");
    link.feed(CONFIG_7);
    assert!(&rt; matches!(link.next_event(), LinkEvent::Announce(_)));
    let mut gate = MeteredGate::new(fake_gate(alloc));
    gate.guard(ClockCheck {
        guards: Guards {
            near: None,
            ahead: Some(AheadGuard { limit: 200 }),
        },
        clock: 0,
        reference: 100_000,
    });
    for (micros, refused) in [(200_000u32, None), (201_000, Some(21u8)), (200_000, None)] {
        let bytes = data_at(&rt, alloc, 100, micros);
        assert!(&rt; bytes.len() <= link.room());
        link.feed(&bytes);
        let LinkEvent::Measure(frame) = link.next_event() else {
            panic!(rt; "no measurement");
        };
        let answer = match gate.post(Event::Measure(frame)) {
            Reply::Refused(refusal) => Some(refusal.number()),
            _ => None,
        };
        same(&rt, answer, refused);
    }
    let far = Stamp {
        soc: 100,
        frac: 201_000,
        base: 1_000_000,
    };
    same(&rt, gate.take_stats().far_at, Some(far));
    same(&rt, gate.into_inner().calls.len(), 2);
}
