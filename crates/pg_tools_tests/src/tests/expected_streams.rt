//! The data frames that both subscribers have to receive of those that the demo's sources send.
use crate::tests::asserts::same;
use pg_command::write_command;
use pg_tools::{
    DemoVerdict, ExpectedStreams, Source, Stamp, UnixTime, WrongFrame, demo_settings, frame_len,
};
use pg_wire::PmuId;
use std::alloc::Global;
use std::process::Abort;
use std::test::*;

// A second in the middle of a minute.
const SOC: u32 = 1_700_000_045;

// The demo's source at this place, started, and its frames of so many microseconds.
fn frames(rt: &impl Abort, alloc: Global, place: u8, micros: u32) -> Vec<u8> {
    let settings = demo_settings(place).expect(rt, "settings");
    let start = UnixTime::new(SOC, 0);
    let mut source = Source::new(alloc, settings, start).expect(rt, "memory");
    let number = PmuId::new(settings.numbers.first).expect(rt, "a number");
    let mut out = Vec::new(alloc);
    source.feed(&write_command(number, SOC, 2));
    let event = source.next(UnixTime::new(SOC, 0), &mut out);
    assert!(rt; event.is_ok() && source.is_sending());
    source
        .due(UnixTime::new(SOC, micros), &mut out)
        .expect(rt, "memory");
    out
}

fn len_of(rt: &impl Abort, place: u8) -> u16 {
    frame_len(&demo_settings(place).expect(rt, "settings"))
}

// Ten slots of both sources are expected.
fn expecting(rt: &impl Abort, alloc: Global) -> (ExpectedStreams, Vec<u8>, Vec<u8>) {
    let mut expected = ExpectedStreams::new(alloc);
    let one = frames(rt, alloc, 0, 340_000);
    let other = frames(rt, alloc, 1, 340_000);
    expected
        .expect(&one, len_of(rt, 0), &other, len_of(rt, 1))
        .expect(rt, "memory");
    (expected, one, other)
}

// The stamp and the blocks of the frame at this place, of 38 bytes each.
fn frame_at<'a>(rt: &impl Abort, frames: &'a Vec<u8>, place: usize) -> (Stamp, &'a [u8]) {
    let mut found = frames.chunks_exact(38).skip(place);
    let frame = found.next().expect(rt, "a frame");
    same(rt, frame.len(), 38);
    let soc = u32::from_be_bytes([frame[6], frame[7], frame[8], frame[9]]);
    let frac = u32::from_be_bytes([0, frame[11], frame[12], frame[13]]);
    (Stamp { soc, frac }, &frame[14..36])
}

// Both blocks of a slot come at the first subscriber, that of the second source at the second one.
fn come(
    rt: &impl Abort,
    alloc: Global,
    expected: &mut ExpectedStreams,
    one: &Vec<u8>,
    other: &Vec<u8>,
) {
    for place in 0..10usize {
        let (stamp, left) = frame_at(rt, one, place);
        let (also, right) = frame_at(rt, other, place);
        same(rt, stamp, also);
        let mut both = Vec::from_slice(alloc, left).expect(rt, "memory");
        both.extend_from_slice(right).expect(rt, "memory");
        same(rt, expected.first.receive(stamp, &both), None);
        same(rt, expected.second.receive(stamp, right), None);
    }
}

#[test]
fn all_slots_come(rt: HostRuntime) {
    let alloc = rt.alloc();
    let (mut expected, one, other) = expecting(&rt, alloc);
    same(&rt, (one.len(), other.len()), (380, 380));
    same(&rt, expected.waiting(), 10);
    assert!(rt; matches!(expected.verdict(101, 102), DemoVerdict::Lost(101, 10, _)));
    come(&rt, alloc, &mut expected, &one, &other);
    same(&rt, expected.waiting(), 0);
    same(&rt, expected.verdict(101, 102), DemoVerdict::Whole(10, 10));
    assert!(rt; expected.verdict(101, 102).is_good());
    // One frame more at the second subscriber.
    let (stamp, block) = frame_at(&rt, &other, 9);
    expected.second.receive(stamp, block);
    same(
        &rt,
        expected.verdict(101, 102),
        DemoVerdict::Wrong(102, WrongFrame::Unsent(stamp)),
    );
    assert!(rt; !expected.verdict(101, 102).is_good());
}

// The blocks of the two sources differ, so that one in place of the other is found.
#[test]
fn exchanged_blocks(rt: HostRuntime) {
    let alloc = rt.alloc();
    let (mut expected, one, other) = expecting(&rt, alloc);
    let (stamp, left) = frame_at(&rt, &one, 0);
    let (_, right) = frame_at(&rt, &other, 0);
    assert!(rt; left != right);
    let mut both = Vec::from_slice(alloc, right).expect(&rt, "memory");
    both.extend_from_slice(left).expect(&rt, "memory");
    same(
        &rt,
        expected.first.receive(stamp, &both),
        Some(WrongFrame::Changed(stamp)),
    );
    same(
        &rt,
        expected.second.receive(stamp, left),
        Some(WrongFrame::Changed(stamp)),
    );
}

// A frame of the first slot that has a filler for the second PMU.
#[test]
fn fillers(rt: HostRuntime) {
    let alloc = rt.alloc();
    let (mut expected, one, _) = expecting(&rt, alloc);
    let (stamp, left) = frame_at(&rt, &one, 0);
    let mut both = Vec::from_slice(alloc, left).expect(&rt, "memory");
    both.extend_from_slice(&[0x80, 0]).expect(&rt, "memory");
    for _ in 0..20 {
        both.push(0).expect(&rt, "memory");
    }
    same(
        &rt,
        expected.first.receive(stamp, &both),
        Some(WrongFrame::Filler(stamp)),
    );
    same(
        &rt,
        expected.verdict(101, 102),
        DemoVerdict::Wrong(101, WrongFrame::Filler(stamp)),
    );
}

// Sources that are not in step, and none at all.
#[test]
fn out_of_step(rt: HostRuntime) {
    let alloc = rt.alloc();
    let mut expected = ExpectedStreams::new(alloc);
    same(&rt, expected.verdict(101, 102), DemoVerdict::NotBegun);
    let one = frames(&rt, alloc, 0, 340_000);
    let other = frames(&rt, alloc, 1, 300_000);
    expected
        .expect(&one, len_of(&rt, 0), &other, len_of(&rt, 1))
        .expect(&rt, "memory");
    same(&rt, expected.verdict(101, 102), DemoVerdict::OutOfStep);
}
