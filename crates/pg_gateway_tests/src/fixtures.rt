//! What the tests share: frames by name, and lines of text that are posted at a gate.
ghost use Rattle.std.specs.Prelude.{◌≡◌};

use crate::asserts::same;
use pg_audit::Stats;
use pg_command::Command;
use pg_fakes::{FakeReader, FakeWriter, all_memory};
use pg_gateway::{Drained, Event, Gate, Gateway, MemberPlace, Reply, Standing, StreamStanding};
use pg_ingest::{Link, LinkEvent};
use pg_ring::{RingBytes, RingSize};
use pg_shared::{Seat, Shared};
use pg_stream::{Definition, HeaderText, Members};
use pg_wire::{PmuId, PmuKey, StreamId, SubId, check};
use std::alloc::Global;
use std::io::ErrorKind;
use std::process::Abort;
use std::sync::Wait;

/// Frames by name. Their words are bytes in hexadecimal; `20*11` is a byte so many times, and `CHK` the check of all before it.
const FRAMES: [(&str, &str); 20] = [
    ("nothing", ""),
    // The CFG-2 of source 7: station PMU 7, one phasor VA; and with another station, CFGCNT 9, and FNOM of 50 Hz.
    (
        "config-7",
        "AA32 004A 0007 00000064 00000000 000F4240 0001 504D552037 20*11 0007 0000 0001 0000 0000 5641 20*14 00000001 0000 0000 001E CHK",
    ),
    (
        "config-7-renamed",
        "AA32 004A 0007 00000064 00000000 000F4240 0001 504D552058 20*11 0007 0000 0001 0000 0000 5641 20*14 00000001 0000 0000 001E CHK",
    ),
    (
        "config-7-counted",
        "AA32 004A 0007 00000064 00000000 000F4240 0001 504D552037 20*11 0007 0000 0001 0000 0000 5641 20*14 00000001 0000 0009 001E CHK",
    ),
    (
        "config-7-of-50-hz",
        "AA32 004A 0007 00000064 00000000 000F4240 0001 504D552037 20*11 0007 0000 0001 0000 0000 5641 20*14 00000001 0001 0009 001E CHK",
    ),
    // The CFG-2 of source 8: station PMU 8, one digital word.
    (
        "config-8",
        "AA32 013A 0008 00000064 00000000 000F4240 0001 504D552038 20*11 0008 0000 0000 0000 0001 20*256 0000FFFF 0000 0000 001E CHK",
    ),
    // Data frames of source 7 at SOC 100: at the numerators 33,333 and 66,667.
    (
        "data-7",
        "AA02 001A 0007 00000064 00008235 0000 10002000 0000 0000 CHK",
    ),
    (
        "later-7",
        "AA02 001A 0007 00000064 0001046B 0000 10002000 0000 0000 CHK",
    ),
    // The data frame of source 8 at the numerator 33,333.
    (
        "data-8",
        "AA02 0018 0008 00000064 00008235 0000 0000 0000 1234 CHK",
    ),
    // The commands that source 7 is sent: 5, send CFG-2, and 2, start data.
    (
        "sent-to-7",
        "AA42 0012 0007 00000000 0F000000 0005 323A AA42 0012 0007 00000000 0F000000 0002 42DD",
    ),
    // The same of a subscriber for its stream 101.
    ("command-5", "AA42 0012 0065 00000064 00000000 0005 CBF9"),
    ("command-2", "AA42 0012 0065 00000064 00000000 0002 BB1E"),
    // A command with a wrong length, which is never whole.
    ("never-whole", "AA42 FFFF 00*9996"),
    // The CFG-2 of stream 101 before any tick: of PMU 7 at CFGCNT 1, of no PMU, and of both at CFGCNT 1, where PMU 7 has another station.
    (
        "config-101",
        "AA32 004A 0065 00000000 0F000000 000F4240 0001 504D552037 20*11 0007 0000 0001 0000 0000 5641 20*14 00000001 0000 0001 001E 75AF",
    ),
    (
        "config-101-of-none",
        "AA32 0018 0065 00000000 0F000000 000F4240 0000 001E DFE6",
    ),
    (
        "config-101-of-both",
        "AA32 016C 0065 00000000 0F000000 000F4240 0002 504D552058 20*11 0007 0000 0001 0000 0000 5641 20*14 00000001 0000 0001 \
         504D552038 20*11 0008 0000 0000 0000 0001 20*256 0000FFFF 0000 0001 001E CHK",
    ),
    // What is left of `config-101` behind its first ten bytes.
    (
        "rest-of-config-101",
        "0F000000 000F4240 0001 504D552037 20*11 0007 0000 0001 0000 0000 5641 20*14 00000001 0000 0001 001E 75AF",
    ),
    // The data frames of stream 101 that are made of those of PMU 7.
    (
        "data-101",
        "AA02 001A 0065 00000064 00008235 0000 10002000 0000 0000 7276",
    ),
    (
        "later-101",
        "AA02 001A 0065 00000064 0001046B 0000 10002000 0000 0000 CHK",
    ),
    // The data frame of stream 102: PMU 7's block, and a filler for PMU 8.
    (
        "data-102",
        "AA02 0022 0066 00000064 00008235 0000 10002000 0000 0000 8000 8000 8000 0000 36BA",
    ),
];

/// The bytes of these words.
fn bytes_of(rt: &impl Abort, alloc: Global, words: &str) -> Vec<u8> {
    let mut bytes = Vec::new(alloc);
    for word in words.split_whitespace() {
        let (digits, times) = word.split_once('*').unwrap_or((word, "1"));
        let piece = if digits == "CHK" {
            Vec::from_slice(alloc, &check(&bytes).to_be_bytes()).expect(rt, "memory")
        } else {
            hex::decode(alloc, digits).expect(rt, "hexadecimal")
        };
        for _ in 0..times.parse().unwrap_or(0u16) {
            bytes.extend_from_slice(&piece).expect(rt, "memory");
        }
    }
    bytes
}

/// The words of the frame of this name; a name that is none is its words.
fn words_of(name: &str) -> &str {
    for (known, words) in FRAMES {
        if known == name {
            return words;
        }
    }
    name
}

/// The bytes of these frames, one behind another, as `config-7+data-7`: each is a name or one word.
pub(crate) fn octets(rt: &impl Abort, alloc: Global, frames: &str) -> Vec<u8> {
    let mut all = Vec::new(alloc);
    for frame in frames.split('+') {
        let bytes = bytes_of(rt, alloc, words_of(frame));
        all.extend_from_slice(&bytes).expect(rt, "memory");
    }
    all
}

/// The numbers among these words, each at its place, and 0 elsewhere.
pub(crate) fn numbers(words: &str) -> [u16; 8] {
    let mut numbers = [0; 8];
    for (number, word) in numbers.iter_mut().zip(words.split(' ')) {
        *number = word.parse().unwrap_or(0);
    }
    numbers
}

pub(crate) fn subscriber(rt: &impl Abort, number: u16) -> SubId {
    SubId::new(number).expect(rt, "a number")
}

/// The PMU of this number of the source of this number.
pub(crate) fn key(rt: &impl Abort, number: u16) -> PmuKey {
    let pmu = PmuId::new(number).expect(rt, "a number");
    PmuKey { source: pmu, pmu }
}

/// A stream of rate 30, resolution 1,000,000 and window 4 with the header text `Hello`, of these members; 0 is none.
pub(crate) fn definition(
    rt: &impl Abort,
    alloc: Global,
    stream: u16,
    wait: u16,
    members: &[u16],
) -> Definition {
    let mut keys = Vec::new(alloc);
    for member in members {
        if *member > 0 {
            keys.push(key(rt, *member)).expect(rt, "memory");
        }
    }
    Definition {
        stream: StreamId::new(stream).expect(rt, "a number"),
        rate: 30,
        base: 1_000_000,
        wait: u32::from(wait),
        window: 4,
        header: HeaderText::new(Vec::from_slice(alloc, b"Hello").expect(rt, "memory")),
        members: Members::new(keys),
    }
}

/// The event of the last of these frames, at a new link of their source.
pub(crate) fn heard(rt: &impl Abort, alloc: Global, source: u16, frames: &str) -> Event {
    let bytes = octets(rt, alloc, frames);
    let mut link = Link::new(alloc, key(rt, source).source).expect(rt, "memory");
    assert!(rt; bytes.len() <= link.room());
    link.feed(&bytes);
    let mut last = Event::Tick(0);
    for _ in frames.split('+') {
        last = match link.next_event() {
            LinkEvent::Announce(config) => Event::Announce(config),
            LinkEvent::Measure(frame) => Event::Measure(frame),
            _ => panic!(rt; "no event"),
        };
    }
    last
}

/// For which of these subscribers something waits is asked for; 0 is none.
fn who_waits(rt: &impl Abort, alloc: Global, asked: &[u16]) -> Event {
    let mut subs = Vec::new(alloc);
    for number in asked {
        if *number > 0 {
            subs.push(subscriber(rt, *number)).expect(rt, "memory");
        }
    }
    Event::WhoWaits(subs)
}

/// The event of a subscriber's line: its verb and its numbers.
fn asked(rt: &impl Abort, alloc: Global, verb: &str, numbers: &[u16; 8]) -> Event {
    let sub = subscriber(rt, numbers[0]);
    let (second, third, members) = (numbers[1], numbers[2], &numbers[3..]);
    match verb {
        "addsub" => {
            let bytes = RingBytes::new(16_777_216).expect(rt, "a size");
            Event::AddSub(sub, RingSize::new(second).expect(rt, "a size"), bytes)
        }
        "grant" => Event::Grant(sub, key(rt, second)),
        "revoke" => Event::Revoke(sub, key(rt, second)),
        "define" => Event::Define(sub, definition(rt, alloc, second, third, members)),
        "remove" => Event::Remove(sub, StreamId::new(second).expect(rt, "a number")),
        "connect" => Event::Connect(sub),
        "hangup" => Event::Hangup(sub),
        "command" => {
            let (stream, word) = (second, third);
            Event::Command(sub, Command { stream, word })
        }
        "drain" => {
            let room = vec![in alloc; 0; usize::from(second)].expect(rt, "memory");
            Event::Drain(sub, room)
        }
        "stats" => Event::Stats(sub),
        "audit" => Event::Audit(sub, 0),
        "standing" | "counts" => {
            let stream = u8::try_from(second).expect(rt, "a place");
            let member = u8::try_from(third).expect(rt, "a place");
            Event::Standing(sub, MemberPlace { stream, member })
        }
        _ => panic!(rt; "no such line"),
    }
}

/// The event of a line: its verb and its words.
fn event(rt: &impl Abort, alloc: Global, line: &str) -> Event {
    let (verb, words) = line.split_once(' ').unwrap_or((line, ""));
    let numbers = numbers(words);
    let first = numbers[0];
    match verb {
        "addpmu" => Event::AddPmu(key(rt, first)),
        "droppmu" => Event::DropPmu(key(rt, first)),
        "tick" => Event::Tick(u32::from(first)),
        "waiting" => who_waits(rt, alloc, &numbers),
        "hear" => {
            let (_, frames) = words.split_once(' ').unwrap_or((words, ""));
            heard(rt, alloc, first, frames)
        }
        _ => asked(rt, alloc, verb, &numbers),
    }
}

/// How a subscriber stands: frames and bytes that wait; and its stream, whether it is on, its effective members of all, its definition and
/// its layout, and the bytes of its last data frames.
fn standing(rt: &impl Abort, alloc: Global, standing: &Standing) -> String {
    let Standing { frames, bytes, .. } = standing;
    let mut text = format!(in alloc; "standing {frames} {bytes}").expect(rt, "memory");
    if let Some(stream) = standing.stream {
        let switch = if stream.is_on { "on" } else { "off" };
        let (number, effective, members) = (stream.stream.get(), stream.effective, stream.members);
        let layouts = stream.layouts;
        let more = format!(in alloc;
            " {number} {switch} {effective}/{members} {}.{}",
            layouts.definition, layouts.number
        );
        text.push_str(&more.expect(rt, "memory"))
            .expect(rt, "memory");
        for len in layouts.lengths {
            if len > 0 {
                let len = format!(in alloc; " {len}").expect(rt, "memory");
                text.push_str(&len).expect(rt, "memory");
            }
        }
    }
    text
}

/// Of a stream, the frames that left complete, by wait, by the window and by a change; of a member of it, the PMU, whether it is carried, granted or neither,
/// the frames with a filler in its place, and its late blocks.
fn counts(rt: &impl Abort, alloc: Global, standing: &Standing) -> String {
    let Some(stream) = standing.stream else {
        panic!(rt; "no stream");
    };
    let StreamStanding {
        complete,
        waited,
        pushed,
        changed,
        members,
        member,
        ..
    } = stream;
    let Some(member) = member else {
        return format!(in alloc; "counts {members} none").expect(rt, "memory");
    };
    let state = match (member.is_effective, member.is_granted) {
        (true, _) => "carried",
        (false, true) => "granted",
        (false, false) => "neither",
    };
    let (pmu, missing, late) = (member.key.pmu.get(), member.missing, member.late);
    let text = format!(in alloc;
        "counts {complete} {waited} {pushed} {changed} {pmu} {state} {missing} {late}"
    );
    text.expect(rt, "memory")
}

/// What was made and lost, and each reason with its count.
fn counted(rt: &impl Abort, alloc: Global, stats: &Stats) -> String {
    let Stats { made, lost, .. } = stats;
    let mut text = format!(in alloc; "stats {made} {lost}").expect(rt, "memory");
    for (reason, count) in stats.by_reason.iter().enumerate() {
        if *count > 0 {
            let count = format!(in alloc; " {reason}:{count}").expect(rt, "memory");
            text.push_str(&count).expect(rt, "memory");
        }
    }
    text
}

/// Those for which something waits.
fn listed(rt: &impl Abort, alloc: Global, subs: &[SubId]) -> String {
    let mut text = String::from_str(alloc, "waiting").expect(rt, "memory");
    for sub in subs {
        let sub = format!(in alloc; " {}", sub.get()).expect(rt, "memory");
        text.push_str(&sub).expect(rt, "memory");
    }
    text
}

/// A reply as text.
fn told(rt: &impl Abort, alloc: Global, reply: Reply) -> String {
    let text = match reply {
        Reply::Done { made, kept } => format!(in alloc; "done {made} {kept}"),
        Reply::Refused(refusal) => format!(in alloc; "refused {}", refusal.number()),
        Reply::Drained { buf, out } => {
            let Drained { len, gap, .. } = out.expect(rt, "connected");
            assert!(rt; len <= buf.len());
            let digits = hex::encode_upper(alloc, &buf[..len]).expect(rt, "memory");
            format!(in alloc; "drained {gap} {digits}")
        }
        Reply::Stats(stats) => return counted(rt, alloc, &stats),
        Reply::Audit(Some(entry)) => {
            let (what, result) = (entry.what.number(), entry.result_number());
            format!(in alloc; "audit {what} {result}")
        }
        Reply::Standing(came) => return standing(rt, alloc, &came),
        Reply::Waiting(subs) => return listed(rt, alloc, &subs),
        _ => panic!(rt; "no such reply"),
    };
    text.expect(rt, "memory")
}

/// What a line asks, and its answer: behind ` > `, else `done 0 0`.
pub(crate) fn halves(line: &str) -> (&str, &str) {
    line.split_once(" > ").unwrap_or((line, "done 0 0"))
}

/// A reply as text, for a line: how a subscriber stands has two forms.
fn told_for(rt: &impl Abort, alloc: Global, line: &str, reply: Reply) -> String {
    if line.starts_with("counts ") {
        if let Reply::Standing(came) = &reply {
            return counts(rt, alloc, came);
        }
    }
    told(rt, alloc, reply)
}

/// The reply is the answer of the line, in which `=` stands before frames.
fn answers(rt: &impl Abort, alloc: Global, line: &str, reply: Reply) {
    let (_, answer) = halves(line);
    let (words, frames) = answer.split_once('=').unwrap_or((answer, ""));
    let mut wanted = String::from_str(alloc, words).expect(rt, "memory");
    let digits = hex::encode_upper(alloc, octets(rt, alloc, frames)).expect(rt, "memory");
    wanted.push_str(&digits).expect(rt, "memory");
    let came = told_for(rt, alloc, line, reply);
    same(rt, (line, came.as_str()), (line, wanted.as_str()));
}

/// Posts an event where there is no memory but for one piece of so many bytes.
fn starved(rt: &impl Abort, alloc: Global, gate: &mut impl Gate, left: u16, event: Event) -> Reply {
    let piece: Vec<u8> = Vec::with_capacity(alloc, usize::from(left)).expect(rt, "memory");
    let held = all_memory(alloc).expect(rt, "a list of it");
    drop(piece);
    let reply = gate.post(event);
    drop(held);
    reply
}

/// Posts the events of these lines, and compares the replies. An event behind `starved N ` finds no memory but for N bytes.
pub(crate) fn play(rt: &impl Abort, alloc: Global, gate: &mut impl Gate, lines: &str) {
    for line in lines.lines() {
        let (words, _) = halves(line);
        let reply = match words.strip_prefix("starved ") {
            Some(rest) => {
                let (left, words) = rest.split_once(' ').unwrap_or((rest, ""));
                let [left, ..] = numbers(left);
                starved(rt, alloc, gate, left, event(rt, alloc, words))
            }
            None => gate.post(event(rt, alloc, words)),
        };
        answers(rt, alloc, line, reply);
    }
}

/// The same at a seat of a shared gateway.
pub(crate) fn play_at_seat<R: Abort + Wait>(
    rt: &R,
    alloc: Global,
    shared: &Shared,
    mut seat: Seat,
    lines: &str,
) -> Seat
    requires { seat.table ≡ shared.now }
    ensures { result.table ≡ shared.now }
{
    for line in lines.lines() {
        let (words, _) = halves(line);
        let (next, reply) = shared.post(rt, seat, event(rt, alloc, words));
        seat = next;
        answers(rt, alloc, line, reply);
    }
    seat
}

/// A gateway at which these lines were played.
pub(crate) fn played(rt: &impl Abort, alloc: Global, lines: &str) -> Gateway {
    let mut gateway = Gateway::new(alloc).expect(rt, "memory");
    play(rt, alloc, &mut gateway, lines);
    gateway
}

/// A gateway that threads share, and a seat at it.
pub(crate) fn shared(rt: &impl Abort, alloc: Global) -> (Shared, Seat)
    ensures { result.1.table ≡ result.0 }
{
    let gateway = Gateway::new(alloc).expect(rt, "memory");
    Shared::new(alloc, gateway).expect(rt, "memory")
}

/// A reader of these bytes and a writer, by the numbers of a row: the most bytes of a read, the read that fails, the most bytes of a
/// write, and the write that fails, from 1 on. They block in place of failing where the row has the word `blocks`.
pub(crate) fn streams<'a>(
    alloc: Global,
    row: &str,
    input: &'a [u8],
) -> (FakeReader<'a>, FakeWriter) {
    let [_, read_most, read_fails, write_most, write_fails, ..] = numbers(row);
    let kind = if row.contains("blocks") {
        ErrorKind::WouldBlock
    } else {
        ErrorKind::Other
    };
    let reader = FakeReader {
        left: input,
        most: usize::from(read_most),
        calls: 0,
        fails_at: u32::from(read_fails),
        kind,
    };
    let writer = FakeWriter {
        taken: Vec::new(alloc),
        most: usize::from(write_most),
        calls: 0,
        fails_at: u32::from(write_fails),
        kind,
    };
    (reader, writer)
}
