//! Frames and a gateway that the tests share: source 7 with PMU 7, and subscribers 1 and 20 of unlike streams.
use pg_gateway::{Event, Gate, Gateway, Reply};
use pg_ring::{RingBytes, RingSize};
use pg_stream::{Definition, HeaderText, Members};
use pg_wire::{PmuId, PmuKey, StreamId, SubId};
use std::alloc::Global;
use std::process::Abort;
use std::time::{Duration, Instant};

/// Source 7's CFG-2: PMU 7, resolution 1,000,000, station `PMU 7`, one phasor `VA`, rate 30.
pub(crate) const CONFIG_7: &[u8] = b"\xAA\x32\0\x4A\0\x07\0\0\0\x64\0\0\0\0\0\x0F\x42\x40\0\x01\
    PMU 7           \0\x07\0\0\0\x01\0\0\0\0VA              \0\0\0\x01\0\0\0\0\0\x1E\x77\xE8";

/// Source 7's data frame: SOC 100, numerator 33,333.
pub(crate) const DATA_7: &[u8] =
    b"\xAA\x02\0\x1A\0\x07\0\0\0\x64\0\0\x82\x35\0\0\x10\0\x20\0\0\0\0\0\x7F\xA7";

/// Commands 5 and 2 for stream 101.
pub(crate) const COMMANDS_101: &[u8] = b"\xAA\x42\0\x12\0\x65\0\0\0\x64\0\0\0\0\0\x05\xCB\xF9\
    \xAA\x42\0\x12\0\x65\0\0\0\x64\0\0\0\0\0\x02\xBB\x1E";

pub(crate) fn subscriber(rt: &impl Abort, number: u16) -> SubId {
    SubId::new(number).expect(rt, "a number")
}

pub(crate) fn source(rt: &impl Abort, number: u16) -> PmuId {
    PmuId::new(number).expect(rt, "a number")
}

pub(crate) fn key(rt: &impl Abort, number: u16) -> PmuKey {
    let pmu = source(rt, number);
    PmuKey { source: pmu, pmu }
}

/// The event is done.
pub(crate) fn done(rt: &impl Abort, gate: &mut impl Gate, event: Event) {
    match gate.post(event) {
        Reply::Done { .. } => {}
        _ => panic!(rt; "not done"),
    }
}

/// A subscriber with a grant of PMU 7 and one stream of it.
pub(crate) fn add_sub(
    rt: &impl Abort,
    alloc: Global,
    gate: &mut impl Gate,
    number: u16,
    stream: u16,
) {
    add_ring(rt, alloc, gate, number, stream, 4);
}

/// The same, whose ring holds so many frames.
pub(crate) fn add_ring(
    rt: &impl Abort,
    alloc: Global,
    gate: &mut impl Gate,
    number: u16,
    stream: u16,
    ring: u16,
) {
    let sub = subscriber(rt, number);
    let ring = RingSize::new(ring).expect(rt, "a size");
    let bytes = RingBytes::new(16_777_216).expect(rt, "a size");
    let mut keys = Vec::new(alloc);
    keys.push(key(rt, 7)).expect(rt, "memory");
    let definition = Definition {
        stream: StreamId::new(stream).expect(rt, "a number"),
        rate: 30,
        base: 1_000_000,
        wait: 0,
        window: 4,
        header: HeaderText::new(Vec::new(alloc)),
        members: Members::new(keys),
    };
    done(rt, gate, Event::AddSub(sub, ring, bytes));
    done(rt, gate, Event::Grant(sub, key(rt, 7)));
    done(rt, gate, Event::Define(sub, definition));
}

/// A gateway with PMU 7, subscriber 1 with stream 101, and subscriber 20 with stream 2000.
pub(crate) fn gateway(rt: &impl Abort, alloc: Global) -> Gateway {
    let mut gate = Gateway::new(alloc).expect(rt, "memory");
    done(rt, &mut gate, Event::AddPmu(key(rt, 7)));
    add_sub(rt, alloc, &mut gate, 1, 101);
    add_sub(rt, alloc, &mut gate, 20, 2000);
    gate
}

/// So many milliseconds after a time.
pub(crate) fn after(rt: &impl Abort, start: Instant, millis: u64) -> Instant {
    start
        .checked_add(Duration::from_millis(millis))
        .expect(rt, "a time")
}

/// PMU 7's data frame of this second.
pub(crate) fn data_of(rt: &impl Abort, alloc: Global, second: u32) -> Vec<u8> {
    data_at(rt, alloc, second, 33_333)
}

/// PMU 7's data frame of this second, and so many microseconds behind it.
pub(crate) fn data_at(rt: &impl Abort, alloc: Global, second: u32, micros: u32) -> Vec<u8> {
    let mut frame = Vec::new(alloc);
    frame.extend_from_slice(&DATA_7[..6]).expect(rt, "memory");
    for word in [second, micros] {
        let bytes = word.to_be_bytes();
        frame.extend_from_slice(&bytes).expect(rt, "memory");
    }
    frame
        .extend_from_slice(&DATA_7[14..24])
        .expect(rt, "memory");
    let check = pg_wire::check(&frame).to_be_bytes();
    frame.extend_from_slice(&check).expect(rt, "memory");
    frame
}
