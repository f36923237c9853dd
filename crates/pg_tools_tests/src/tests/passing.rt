//! Data frames that are passed over.

use crate::tests::asserts::same;
use crate::tests::signals::settings;
use pg_command::write_command;
use pg_tools::{CommandEvent, Faults, Source, UnixTime};
use pg_wire::PmuId;
use std::process::Abort;
use std::test::*;

// A second in the middle of a minute.
const SOC: u32 = 1_700_000_045;

// Command 2 at the start of that second.
fn start_data(rt: &impl Abort, source: &mut Source, out: &mut Vec<u8>) {
    source.feed(&write_command(PmuId::new(7).expect(rt, "a number"), SOC, 2));
    let event = source.next(UnixTime::new(SOC, 0), out).expect(rt, "memory");
    assert!(rt; matches!(event, CommandEvent::Obeyed(_)));
}

// Frames that are passed over are those that were due, and no later ones: with the fault `late` the others still come.
#[test]
fn passed_frames(rt: HostRuntime) {
    let alloc = rt.alloc();
    let late = Faults {
        late: 1_000,
        ..Faults::NONE
    };
    let start = UnixTime::new(SOC, 0);
    let mut source = Source::new(alloc, settings(&rt, late), start).expect(&rt, "memory");
    let mut out = Vec::new(alloc);
    start_data(&rt, &mut source, &mut out);
    // At which second slots are passed over, at which they are sent, and how many were sent then. Of the slots 1 to 60 behind the start those up to 30
    // were due in second 2. Where its clock is set back nothing is sent twice.
    for (passed, sent, wanted) in [(2, 2, 0), (2, 3, 30), (1, 3, 30)] {
        source.skip_due(UnixTime::new(SOC + passed, 0));
        source
            .due(UnixTime::new(SOC + sent, 0), &mut out)
            .expect(&rt, "memory");
        same(&rt, source.counts().sent, wanted);
    }
}

// Where its clock is set back by more than a second a source goes on from there; by less it waits.
#[test]
fn clock_that_is_set_back(rt: HostRuntime) {
    let alloc = rt.alloc();
    let start = UnixTime::new(SOC, 0);
    let mut source = Source::new(alloc, settings(&rt, Faults::NONE), start).expect(&rt, "memory");
    let mut out = Vec::new(alloc);
    start_data(&rt, &mut source, &mut out);
    // At which second and microsecond, and how many frames were sent then.
    for (soc, micros, wanted) in [
        (SOC + 1, 0, 30),
        (SOC, 500_000, 30),
        (SOC + 1, 0, 30),
        (SOC + 1, 40_000, 31),
        (SOC - 3_600, 0, 31),
        (SOC - 3_600, 40_000, 32),
        (SOC - 3_599, 0, 61),
    ] {
        source
            .due(UnixTime::new(soc, micros), &mut out)
            .expect(&rt, "memory");
        same(&rt, source.counts().sent, wanted);
    }
    // So does one whose frames are passed over.
    source.skip_due(UnixTime::new(SOC - 7_200, 0));
    source
        .due(UnixTime::new(SOC - 7_199, 0), &mut out)
        .expect(&rt, "memory");
    same(&rt, source.counts().sent, 91);
}
