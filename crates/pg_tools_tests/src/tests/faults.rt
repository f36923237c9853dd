//! The frames of a source with each fault: the words of them at given seconds, computed by hand from C37.118.2.

use crate::tests::asserts::same;
use pg_command::write_command;
use pg_tools::{CommandEvent, Settings, SimulateArgs, Source, UnixTime, read_simulate_options};
use pg_wire::PmuId;
use std::alloc::Global;
use std::process::Abort;
use std::test::*;

/// When the source begins and is started: its phase is 1 of 4 seconds, 2 of 3, and 245 of 600.
const SOC: u32 = 1_700_000_045;

/// Source 7 with two PMUs, a frame a second, and the faults of these words.
fn settings(rt: &impl Abort, faults: &[&str]) -> Settings {
    let options = read_simulate_options(&SimulateArgs {
        listen: "127.0.0.1:4712",
        source: "7",
        pmus: "2",
        rate: "1",
        phasors: "3",
        analogs: "1",
        digitals: "1",
        nominal: "60",
        faults,
        clients: "1",
    });
    options.expect(rt, "options").settings
}

/// That source, which a client has sent this command.
fn commanded(rt: &impl Abort, alloc: Global, settings: Settings, command: u16) -> Source {
    let start = UnixTime::new(SOC, 0);
    let mut source = Source::new(alloc, settings, start).expect(rt, "memory");
    let number = PmuId::new(7).expect(rt, "a number");
    source.feed(&write_command(number, SOC, command));
    source
}

/// The same, whose data is on since `SOC`.
fn started(rt: &impl Abort, alloc: Global, settings: Settings) -> Source {
    let mut source = commanded(rt, alloc, settings, 2);
    let mut out = Vec::new(alloc);
    let event = source.next(UnixTime::new(SOC, 0), &mut out);
    assert!(rt; event.is_ok() && source.is_sending() && out.is_empty());
    source
}

fn byte(frame: &[u8], at: usize) -> u8 {
    frame.get(at).copied().unwrap_or(0)
}

fn word(frame: &[u8], at: usize) -> u16 {
    u16::from_be_bytes([byte(frame, at), byte(frame, at.saturating_add(1))])
}

fn long(frame: &[u8], at: usize) -> u32 {
    let (high, low) = (word(frame, at), word(frame, at.saturating_add(2)));
    u32::from(high) * 65_536 + u32::from(low)
}

/// Frames as text: how many seconds behind `SOC` they are stamped; of data frames STAT of both PMUs and the time quality; of CFG-2 the first PHUNIT,
/// ANUNIT and CFGCNT of both PMUs.
fn described(rt: &impl Abort, alloc: Global, frames: &Vec<u8>) -> String {
    let mut text = String::new(alloc);
    let mut left = frames.as_slice();
    for _ in 0..frames.len() {
        let Some(frame) = left.get(..usize::from(word(left, 2))) else {
            break;
        };
        if frame.is_empty() {
            break;
        }
        left = left.get(frame.len()..).unwrap_or(&[]);
        describe(rt, &mut text, frame);
    }
    text
}

fn describe(rt: &impl Abort, text: &mut String, frame: &[u8]) {
    let behind = long(frame, 6).wrapping_sub(SOC);
    let written = if byte(frame, 1) == 0x02 {
        let (one, other, quality) = (word(frame, 14), word(frame, 36), byte(frame, 10));
        write!(text, "+{behind} {one:04X} {other:04X} {quality:02X};")
    } else {
        let (volts, mean, count) = (long(frame, 366), long(frame, 378), word(frame, 388));
        let (also, same_mean, same_count) = (long(frame, 736), long(frame, 748), word(frame, 758));
        assert!(rt; byte(frame, 1) == 0x32 && word(frame, 2) == 764);
        assert!(rt; (volts, mean, count) == (also, same_mean, same_count));
        write!(text, "CFG-2 +{behind} {volts:08X} {mean:08X} {count:04X};")
    };
    written.expect(rt, "memory");
}

/// What a source with some faults sends when it is asked at so many seconds behind its start, each behind the one before.
type Row<'a> = (&'a [&'a str], &'a [(u32, &'a str)]);

fn check(rt: &impl Abort, alloc: Global, rows: &[Row<'_>]) {
    for (faults, asked) in rows {
        let mut source = started(rt, alloc, settings(rt, faults));
        for (seconds, wanted) in *asked {
            let mut out = Vec::new(alloc);
            let now = UnixTime::new(SOC.wrapping_add(*seconds), 0);
            source.due(now, &mut out).expect(rt, "memory");
            same(rt, described(rt, alloc, &out).as_str(), *wanted);
        }
    }
}

// STAT and time quality that are given, alone and with the bits of other faults. A clock that loses its source 2 seconds after the start is wrong by a
// microsecond after one second: code 4, within 10^-6 s, and PMU time quality 2.
#[test]
fn stat_and_time_quality(rt: HostRuntime) {
    let rows: [Row<'_>; 5] = [
        (&[], &[(1, "+1 0000 0000 00;")]),
        (
            &["stat=4a05"],
            &[(1, "+1 4A05 4A05 00;"), (2, "+2 4A05 4A05 00;")],
        ),
        (&["quality=2F"], &[(1, "+1 0000 0000 2F;")]),
        (
            &["unlock=2"],
            &[
                (1, "+1 0000 0000 00;"),
                (2, "+2 2040 2040 01;"),
                (3, "+3 2080 2080 04;"),
                (4, "+4 20C0 20C0 05;"),
                (11, "+11 20C0 20C0 05;"),
                (12, "+12 20D0 20D0 05;"),
                (13, "+13 2110 2110 06;"),
                (102, "+102 2120 2120 06;"),
                (103, "+103 2160 2160 07;"),
                (1_002, "+1002 2160 2160 07;"),
                (1_003, "+1003 21B0 21B0 08;"),
                (10_003, "+10003 21F0 21F0 09;"),
                (100_003, "+100003 21F0 21F0 0A;"),
                (1_000_003, "+1000003 21F0 21F0 0B;"),
                (10_000_003, "+10000003 21F0 21F0 0F;"),
            ],
        ),
        (
            &["unlock=0", "stat=4801", "quality=40"],
            &[(1, "+1 6881 6881 44;")],
        ),
    ];
    check(&rt, rt.alloc(), &rows);
}

// STAT bit 10 is set for a minute before each change of the configuration, or for half of the time between two where that is less.
#[test]
fn changes_are_announced(rt: HostRuntime) {
    let rows: [Row<'_>; 2] = [
        (
            &["reconfigure=4"],
            &[
                (1, "+1 0400 0400 00;"),
                (2, "+2 0400 0400 00;"),
                (3, "+3 0000 0000 00;"),
                (4, "+4 0000 0000 00;"),
                (5, "+5 0400 0400 00;"),
            ],
        ),
        (
            &["reconfigure=600"],
            &[
                (294, "+294 0000 0000 00;"),
                (295, "+295 0400 0400 00;"),
                (354, "+354 0400 0400 00;"),
                (355, "+355 0000 0000 00;"),
            ],
        ),
    ];
    check(&rt, rt.alloc(), &rows);
}

// CFG-2 comes unasked before the first data frame, and before the first one of another configuration; with `no-config` too.
#[test]
fn configurations_that_nobody_asked_for(rt: HostRuntime) {
    let rows: [Row<'_>; 2] = [
        (
            &["unasked", "no-config"],
            &[
                (0, "CFG-2 +0 000F4240 01000001 0001;"),
                (1, "+1 0000 0000 00;"),
                (2, "+2 0000 0000 00;"),
            ],
        ),
        (
            &["unasked", "reconfigure=4"],
            &[
                (0, "CFG-2 +0 001E8480 01000002 FC4C;"),
                (1, "+1 0400 0400 00;"),
                (2, "+2 0400 0400 00;"),
                (3, "CFG-2 +3 000F4240 01000001 FC4D;+3 0000 0000 00;"),
                (4, "+4 0000 0000 00;"),
                (5, "+5 0400 0400 00;"),
                (6, "+6 0400 0400 00;"),
                (7, "CFG-2 +7 001E8480 01000002 FC4E;+7 0000 0000 00;"),
            ],
        ),
    ];
    check(&rt, rt.alloc(), &rows);
}

// A source whose data is off sends CFG-2 unasked all the same, once for each configuration.
#[test]
fn configurations_while_data_is_off(rt: HostRuntime) {
    let alloc = rt.alloc();
    let settings = settings(&rt, &["unasked", "reconfigure=4"]);
    let mut source = Source::new(alloc, settings, UnixTime::new(SOC, 0)).expect(&rt, "memory");
    for (seconds, wanted) in [
        (2, "CFG-2 +2 001E8480 01000002 FC4C;"),
        (2, ""),
        (3, "CFG-2 +3 000F4240 01000001 FC4D;"),
        (6, ""),
    ] {
        let mut out = Vec::new(alloc);
        let now = UnixTime::new(SOC.wrapping_add(seconds), 0);
        source.due(now, &mut out).expect(&rt, "memory");
        same(&rt, described(&rt, alloc, &out).as_str(), wanted);
    }
}

// Frames come at each third second, with those of the seconds before it. Of a source that was held up one second of frames more than that comes; with
// `late` they are as late as it says.
#[test]
fn frames_that_are_held_back(rt: HostRuntime) {
    let rows: [Row<'_>; 2] = [
        (
            &["backlog=3"],
            &[
                (0, ""),
                (1, "+1 0000 0000 00;"),
                (2, ""),
                (3, ""),
                (4, "+2 0000 0000 00;+3 0000 0000 00;+4 0000 0000 00;"),
                (6, ""),
                (
                    12,
                    "+7 0000 0000 00;+8 0000 0000 00;+9 0000 0000 00;+10 0000 0000 00;",
                ),
            ],
        ),
        (
            &["backlog=3", "late=1000"],
            &[
                (1, ""),
                (2, "+1 0000 0000 00;"),
                (4, ""),
                (5, "+2 0000 0000 00;+3 0000 0000 00;+4 0000 0000 00;"),
            ],
        ),
    ];
    check(&rt, rt.alloc(), &rows);
    let mut source = started(&rt, rt.alloc(), settings(&rt, &["backlog=3", "late=500"]));
    let mut out = Vec::new(rt.alloc());
    for (seconds, micros) in [(0, 1_500_000), (1, 500_000), (2, 2_500_000)] {
        let now = UnixTime::new(SOC.wrapping_add(seconds), 0);
        source.due(now, &mut out).expect(&rt, "memory");
        same(&rt, source.until_due(now), Some(micros));
    }
}

// CFG-2 is that of the second in which it is asked for.
#[test]
fn a_configuration_on_command(rt: HostRuntime) {
    let alloc = rt.alloc();
    for (seconds, wanted) in [
        (2, "CFG-2 +2 001E8480 01000002 FC4C;"),
        (3, "CFG-2 +3 000F4240 01000001 FC4D;"),
    ] {
        let settings = settings(&rt, &["reconfigure=4"]);
        let mut source = commanded(&rt, alloc, settings, 5);
        let mut out = Vec::new(alloc);
        let event = source.next(UnixTime::new(SOC.wrapping_add(seconds), 0), &mut out);
        assert!(rt; matches!(event, Ok(CommandEvent::Obeyed(_))));
        same(&rt, described(&rt, alloc, &out).as_str(), wanted);
    }
}

/// The data frame of the first second of a source with these faults.
fn first_frame(rt: &impl Abort, alloc: Global, faults: &[&str]) -> Vec<u8> {
    let mut source = started(rt, alloc, settings(rt, faults));
    let mut out = Vec::new(alloc);
    let now = UnixTime::new(SOC.wrapping_add(1), 0);
    source.due(now, &mut out).expect(rt, "memory");
    same(rt, out.len(), 60);
    out
}

// In doubled units the magnitudes of PMU 8, which sends polar phasors, and its analog value are half as large; all else is the same.
#[test]
fn values_in_doubled_units(rt: HostRuntime) {
    let (plain, doubled) = (
        first_frame(&rt, rt.alloc(), &[]),
        first_frame(&rt, rt.alloc(), &["reconfigure=4"]),
    );
    for at in [38, 42, 46, 54] {
        same(&rt, word(&doubled, at), word(&plain, at) / 2);
    }
    for at in [40, 44, 48, 50, 52, 56] {
        same(&rt, word(&doubled, at), word(&plain, at));
    }
}

// Words that are no fault, and what would be right.
#[test]
fn words_that_are_no_fault(rt: HostRuntime) {
    let alloc = rt.alloc();
    for (fault, wanted) in [
        (
            "reconfigure=1",
            "--fault takes reconfigure=SECONDS, 2 to 3600",
        ),
        ("unasked=1", "--fault takes unasked without a value"),
        (
            "stat=10000",
            "--fault takes stat=HEX, 0 to FFFF in hexadecimal, as stat=4000",
        ),
        (
            "stat=+1",
            "--fault takes stat=HEX, 0 to FFFF in hexadecimal, as stat=4000",
        ),
        (
            "quality=100",
            "--fault takes quality=HEX, 0 to FF in hexadecimal, as quality=0F",
        ),
        ("unlock=3601", "--fault takes unlock=SECONDS, 0 to 3600"),
        ("backlog=0", "--fault takes backlog=SECONDS, 1 to 60"),
        (
            "noise",
            "--fault takes silence=SECONDS, drop=PERCENT, late=MS, wrong-check=PERCENT, clock=MS, no-config, reconfigure=SECONDS, unasked, stat=HEX, quality=HEX, unlock=SECONDS or backlog=SECONDS",
        ),
    ] {
        let faults = [fault];
        let read = read_simulate_options(&SimulateArgs {
            listen: "127.0.0.1:4712",
            source: "7",
            pmus: "1",
            rate: "30",
            phasors: "3",
            analogs: "1",
            digitals: "1",
            nominal: "60",
            faults: &faults,
            clients: "1",
        });
        let Err(wrong) = read else {
            assert!(rt; false, "{fault} is taken");
            continue;
        };
        let text = format!(in alloc; "{wrong}").expect(&rt, "memory");
        same(&rt, text.as_str(), wanted);
    }
}
