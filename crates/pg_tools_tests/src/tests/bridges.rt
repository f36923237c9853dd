//! The lines of `bridge` over memory: frames of a simulated source go in, and each slot has a data line or is in a gap. The times are those of
//! C37.118.2, by hand.

use crate::tests::asserts::same;
use pg_command::write_command;
use pg_tools::{
    BridgeArgs, Content, Converter, DataRate, Ending, Entry, Gap, Instants, LineQueue,
    SimulateArgs, Slots, Source, UnixTime, Why, read_bridge_options, read_simulate_options,
};
use pg_wire::PmuId;
use std::alloc::Global;
use std::ops::Range;
use std::process::Abort;
use std::test::*;

/// When the source begins: 2023-11-14 22:13:20 UTC.
const SOC: u32 = 1_700_000_000;

/// Words of `bridge` of stream 7, for so many lines.
fn words_for(keep: &str) -> BridgeArgs<'_> {
    BridgeArgs {
        address: "127.0.0.1:4712",
        stream: "7",
        format: "csv",
        name: None,
        is_keyed: false,
        repeat: "60",
        heartbeat: "10",
        silence: "5",
        keep,
    }
}

/// The instant of so many milliseconds since the start.
fn at(millis: u32) -> Instants {
    Instants {
        millis: u64::from(millis),
        time: UnixTime {
            micros: 1_000_000 * u64::from(SOC) + 1_000 * u64::from(millis),
        },
    }
}

/// A source with one PMU without channels, two frames a second.
fn source(rt: &impl Abort, alloc: Global) -> Source {
    let options = read_simulate_options(&SimulateArgs {
        listen: "127.0.0.1:4712",
        source: "7",
        pmus: "1",
        rate: "2",
        phasors: "0",
        analogs: "0",
        digitals: "0",
        nominal: "60",
        faults: &[],
        clients: "1",
    });
    let settings = options.expect(rt, "options").settings;
    Source::new(alloc, settings, UnixTime::new(SOC, 0)).expect(rt, "memory")
}

/// What the source answers to a command.
fn answered(rt: &impl Abort, alloc: Global, source: &mut Source, word: u16) -> Vec<u8> {
    let number = PmuId::new(7).expect(rt, "a number");
    source.feed(&write_command(number, SOC, word));
    let mut out = Vec::new(alloc);
    let event = source.next(UnixTime::new(SOC, 0), &mut out);
    assert!(*rt; event.is_ok());
    out
}

/// The data frames that are due so many half seconds behind the start.
fn due(rt: &impl Abort, alloc: Global, source: &mut Source, halves: u8) -> Vec<u8> {
    let mut out = Vec::new(alloc);
    let now = UnixTime::new(SOC, 0).shifted(500 * i32::from(halves));
    source.due(now, &mut out).expect(rt, "memory");
    out
}

/// The lines that wait, with a `;` behind each, and of each its type, its time behind 22:13 and what a gap says.
fn handed_out(rt: &impl Abort, alloc: Global, converter: &mut Converter<'_>) -> String {
    let mut text = String::new(alloc);
    for _ in 0..10 {
        let bytes = converter.output().expect(rt, "memory");
        let count = bytes.len();
        let lines = str::from_utf8(bytes).unwrap_or("?");
        for line in lines.split('\n') {
            describe(rt, &mut text, line);
        }
        converter.wrote(count);
        if count == 0 {
            break;
        }
    }
    text
}

fn describe(rt: &impl Abort, text: &mut String, line: &str) {
    let mut cells = line.split(',');
    let kind = cells.next().unwrap_or("");
    if kind.is_empty() {
        return;
    }
    let time = cells.next().unwrap_or("");
    let seconds = str::from_utf8(time.as_bytes().get(17..21).unwrap_or(&[])).unwrap_or("?");
    let written = if kind == "gap" {
        let slots = cells.nth(13).unwrap_or("?");
        let why = cells.next().unwrap_or("?");
        write!(text, "gap {seconds} {slots} {why};")
    } else {
        write!(text, "{kind} {seconds};")
    };
    written.expect(rt, "memory");
}

/// Its connection stands at a time, and the source's configuration comes at another.
fn connect(
    rt: &impl Abort,
    converter: &mut Converter<'_>,
    config: &[u8],
    since: u32,
    configured: u32,
) {
    converter.connect(at(since)).expect(rt, "memory");
    let ending = converter.take(config, at(configured));
    assert!(*rt; ending.is_none());
}

/// The data frames that are due at these half seconds come, each by itself.
fn take_frames(
    rt: &impl Abort,
    alloc: Global,
    converter: &mut Converter<'_>,
    source: &mut Source,
    halves: Range<u8>,
    millis: u32,
) {
    for half in halves {
        let frames = due(rt, alloc, source, half);
        assert!(*rt; !frames.is_empty());
        let ending = converter.take(&frames, at(millis));
        assert!(*rt; ending.is_none());
    }
}

/// At these times nothing is due.
fn nothing_is_due(rt: &impl Abort, converter: &mut Converter<'_>, times: &[u32]) {
    for millis in times {
        let ending = converter.tick(at(*millis)).expect(rt, "memory");
        assert!(*rt; ending.is_none());
    }
}

/// These lines are handed out.
fn hands_out(rt: &impl Abort, alloc: Global, converter: &mut Converter<'_>, wanted: &str) {
    let lines = handed_out(rt, alloc, converter);
    same(rt, lines.as_str(), wanted);
}

/// A source that was asked for its data, which it sends from now on.
fn started(rt: &impl Abort, alloc: Global) -> Source {
    let mut source = source(rt, alloc);
    let answer = answered(rt, alloc, &mut source, 2);
    assert!(*rt; answer.is_empty());
    source
}

// Frames that come one by one; then nothing for two slots; then lines that nobody takes.
#[test]
fn slots_of_a_bridge(rt: HostRuntime) {
    let alloc = rt.alloc();
    let Ok(options) = read_bridge_options(&words_for("3")) else {
        panic!(&rt; "no options");
    };
    let mut source = started(&rt, alloc);
    let config = answered(&rt, alloc, &mut source, 5);
    let mut converter = Converter::new(alloc, &options, at(0));
    connect(&rt, &mut converter, &config, 0, 0);
    take_frames(&rt, alloc, &mut converter, &mut source, 1..3, 0);
    hands_out(
        &rt,
        alloc,
        &mut converter,
        "config 20.0;data 20.5;data 21.0;",
    );
    converter.disconnect(Ending::Closed);
    let lost = due(&rt, alloc, &mut source, 4);
    assert!(rt; !lost.is_empty());
    connect(&rt, &mut converter, &config, 2_000, 2_000);
    take_frames(&rt, alloc, &mut converter, &mut source, 5..7, 2_000);
    hands_out(
        &rt,
        alloc,
        &mut converter,
        "gap 22.5 2 reconnect;data 22.5;data 23.0;",
    );
    take_frames(&rt, alloc, &mut converter, &mut source, 7..13, 2_000);
    hands_out(
        &rt,
        alloc,
        &mut converter,
        "gap 25.0 3 output;data 25.0;data 25.5;data 26.0;",
    );
    let counts = converter.counts();
    same(
        &rt,
        (counts.frames, counts.missing, counts.reconnects),
        (10, 2, 1),
    );
    same(&rt, converter.dropped(), 3);
}

// A connection that gives no frame is to be closed after `--silence`; the state and the configuration come again.
#[test]
fn times_of_a_bridge(rt: HostRuntime) {
    let alloc = rt.alloc();
    let Ok(options) = read_bridge_options(&words_for("3")) else {
        panic!(&rt; "no options");
    };
    let mut source = source(&rt, alloc);
    let config = answered(&rt, alloc, &mut source, 5);
    let mut converter = Converter::new(alloc, &options, at(0));
    connect(&rt, &mut converter, &config, 0, 1_000);
    nothing_is_due(&rt, &mut converter, &[5_999]);
    let ending = converter.tick(at(6_000)).expect(&rt, "memory");
    assert!(rt; matches!(ending, Some(Ending::Silent(5))));
    converter.disconnect(Ending::Silent(5));
    nothing_is_due(&rt, &mut converter, &[10_000, 19_999, 20_000, 61_000]);
    hands_out(
        &rt,
        alloc,
        &mut converter,
        "config 21.0;state 40.0;config 21.0;state 21.0;",
    );
}

// Times that were set back: after five seconds of such frames the slots are counted anew.
#[test]
fn times_set_back(rt: HostRuntime) {
    let alloc = rt.alloc();
    let Ok(options) = read_bridge_options(&words_for("100")) else {
        panic!(&rt; "no options");
    };
    let mut first = started(&rt, alloc);
    let config = answered(&rt, alloc, &mut first, 5);
    let mut converter = Converter::new(alloc, &options, at(0));
    connect(&rt, &mut converter, &config, 0, 0);
    // (of those that are due at once a source sends the last second)
    take_frames(&rt, alloc, &mut converter, &mut first, 4..5, 0);
    let mut second = started(&rt, alloc);
    take_frames(&rt, alloc, &mut converter, &mut second, 1..2, 1_000);
    let frames = due(&rt, alloc, &mut second, 2);
    let ending = converter.take(&frames, at(6_000));
    assert!(rt; matches!(ending, Some(Ending::SetBack)));
    converter.disconnect(Ending::SetBack);
    connect(&rt, &mut converter, &config, 7_000, 7_000);
    take_frames(&rt, alloc, &mut converter, &mut second, 3..4, 7_000);
    hands_out(
        &rt,
        alloc,
        &mut converter,
        "config 20.0;data 21.5;data 22.0;gap 21.5 0 reconnect;data 21.5;",
    );
    let counts = converter.counts();
    same(&rt, (counts.frames, counts.ignored), (3, 2));
}

fn entry(rt: &impl Abort, alloc: Global, content: Content, text: &str) -> Entry {
    Entry {
        content,
        lines: 1,
        text: String::from_str(alloc, text).expect(rt, "memory"),
    }
}

// A configuration that is dropped comes before what follows it.
#[test]
fn a_dropped_configuration(rt: HostRuntime) {
    let alloc = rt.alloc();
    let mut queue = LineQueue::new(alloc, 1);
    for (content, text) in [
        (Content::Config, "first"),
        (Content::Config, "second"),
        (Content::State, "state"),
    ] {
        let entry = entry(&rt, alloc, content, text);
        queue.push(entry).expect(&rt, "memory");
    }
    for wanted in ["second", "state"] {
        match queue.pop() {
            Some(entry) => same(&rt, entry.text.as_str(), wanted),
            None => assert!(rt; false),
        }
    }
    assert!(rt; queue.pop().is_none() && queue.is_empty());
    same(&rt, (queue.lines(), queue.dropped()), (0, 0));
}

// Slots by DATA_RATE, and the gap before each frame.
#[test]
fn slots_by_rate(rt: HostRuntime) {
    same(&rt, DataRate::new(30).slot(10, 33_333, 1_000_000), 301);
    same(&rt, DataRate::new(30).slot(10, 999_999, 1_000_000), 330);
    same(&rt, DataRate::new(-10).slot(25, 0, 1_000_000), 2);
    same(&rt, DataRate::new(0).slot(25, 5, 1_000_000), 25);
    let mut slots = Slots::begin(DataRate::new(30), 301);
    same(&rt, slots.take(301), None);
    same(&rt, slots.take(302), Some(0));
    same(&rt, slots.take(305), Some(2));
    same(&rt, slots.take(304), None);
    assert!(rt; slots.rate == DataRate::Frames(30));
    same(&rt, Why::Output.word(), "output");
    let gap = Gap {
        slots: 1,
        why: Why::Change,
    };
    same(&rt, gap.why.word(), "change");
}

/// The words of `words_for` with this value of an option.
fn words_with<'a>(option: &str, value: &'a str) -> BridgeArgs<'a> {
    let mut words = words_for("3");
    match option {
        "--format" => words.format = value,
        "--name" => words.name = Some(value),
        "--repeat" => words.repeat = value,
        "--heartbeat" => words.heartbeat = value,
        "--silence" => words.silence = value,
        "--keep" => words.keep = value,
        _ => words.stream = value,
    }
    words
}

// Values of options that are none.
#[test]
fn words_of_a_bridge(rt: HostRuntime) {
    let Ok(right) = read_bridge_options(&words_for("3")) else {
        panic!(&rt; "no options");
    };
    same(
        &rt,
        (right.keep, right.repeat, right.heartbeat),
        (3, 60, 10),
    );
    for (option, value) in [
        ("--format", "xml"),
        ("--name", "a\tb"),
        ("--repeat", "0"),
        ("--heartbeat", "86401"),
        ("--silence", ""),
        ("--keep", "1000001"),
        ("--stream", "0"),
    ] {
        match read_bridge_options(&words_with(option, value)) {
            Err(wrong) => same(&rt, wrong.option, option),
            Ok(_) => assert!(rt; false),
        }
    }
}
