//! Which `wait` and `window` delays ask for, and which edits are in force.

ghost use Rattle.std.specs.Prelude.{◌<◌};

use crate::tests::asserts::same;
use crate::tests::frames::source;
use pg_fakes::edit_line;
use pg_lines::parse_line;
use pg_quality::Histogram;
use pg_service::{Advice, EditsInForce, MemberDelays, StreamPace, behind_of, is_late_after};
use pg_wire::SubId;
use std::alloc::Global;
use std::process::Abort;
use std::test::*;

/// The delays of sources, parted by bars: how many members of a stream each has, and then delays with how often each came. Behind a colon stand the stream's
/// rate, its `wait` and the ticks' milliseconds, and behind ` => ` what is advised: `wait`, `window`, and the late ones of all blocks.
///
/// Delays up to 7 have a bucket each; the others here are 8 to 9, 96 to 111, 112 to 127 and 896 to 1023.
const ADVICE: &str = "\
| : 30 5 10 => 0 1 0 of 0
1 : 30 5 10 => 0 1 0 of 0
1 0*10 | 1 0*10 : 30 5 10 => 0 1 0 of 20
1 0*10 | 1 1*10 : 30 5 10 => 2 2 0 of 20
1 5*10 | 1 -5*10 : 30 5 10 => 2 2 0 of 20
1 -5*10 | 1 5*10 : 30 5 10 => 2 2 0 of 20
1 0*10 | 1 7*10 : 30 5 7 => 2 2 0 of 20
1 0*10 | 1 7*10 : 30 5 6 => 3 2 0 of 20
1 0*999 | 1 0*999 100*1 : 30 5 10 => 0 1 1 of 1999
1 0*998 | 1 0*998 100*1 : 30 5 10 => 11 5 1 of 1997
1 0*998 100*1 | 1 0*998 : 30 5 10 => 11 5 1 of 1997
1 0*10 | 1 100*5 120*5 : 30 12 10 => 13 5 10 of 20
1 0*10 | 1 100*5 120*5 : 30 13 10 => 13 5 0 of 20
1 0*10 | 1 100*5 120*5 : 30 111 1 => 121 5 10 of 20
1 0*10 | 1 100*5 120*5 : 30 112 1 => 121 5 5 of 20
1 0*10 | 1 100*5 120*5 : 30 10 10 => 13 5 10 of 20
1 0*10 | 1 100*5 120*5 : 120 0 1 => 121 16 10 of 20
1 0*10 | 1 100*5 120*5 : 30 1 10 => 13 5 10 of 20
2 0*10 | 3 100*5 120*5 : 30 10 10 => 13 5 30 of 50
4 100*5 1000*5 : 30 1 10 => 0 1 0 of 40
1 100*10 | 1 100*10 | 1 1000*1 : 1 91 10 => 91 2 0 of 21
1 100*10 | 1 100*10 | 1 1000*1 : 1 90 10 => 91 2 1 of 21
1 -1000*1 | 1 1000*1 : 60 200 10 => 201 122 1 of 2
1 -1000*1 | 1 1000*1 : 60 201 10 => 201 122 0 of 2
1 -1000*1 | 1 1000*1 : 60 201 1000 => 3 181 0 of 2";

/// The delays of a source, as a row has them.
fn delays_of(rt: &impl Abort, text: &str) -> MemberDelays {
    let mut delays = Histogram::new(0);
    let mut words = text.trim().split(' ');
    let members = words.next().expect(rt, "members");
    for word in words {
        let (delay, times) = word.split_once('*').expect(rt, "a delay");
        let delay = delay.parse::<i64>().ok().expect(rt, "a delay");
        let times = times.parse::<u32>().ok().expect(rt, "how often");
        for _ in 0..times {
            delays.note(delay);
        }
    }
    MemberDelays {
        source: source(rt, 7),
        members: members.parse::<u8>().ok().expect(rt, "members"),
        delays,
    }
}

/// Numbers of a stream, as a row has them: rate, `wait`, and milliseconds of a tick.
fn pace_of(rt: &impl Abort, text: &str) -> StreamPace
    ensures tick { 0 < result.tick_ms }
{
    let (rate, rest) = text.split_once(' ').expect(rt, "a rate");
    let (wait, tick_ms) = rest.split_once(' ').expect(rt, "a wait");
    StreamPace {
        rate: rate.parse::<u8>().ok().expect(rt, "a rate"),
        wait: wait.parse::<u32>().ok().expect(rt, "a wait"),
        tick_ms: tick_ms.parse::<u16>().ok().expect(rt, "a tick").max(1),
    }
}

#[test]
fn delays_ask_for_a_wait(rt: HostRuntime) {
    let alloc = rt.alloc();
    for row in ADVICE.split('\n') {
        let (given, _) = row.split_once(" => ").expect(&rt, "a row");
        let (sources, numbers) = given.split_once(" : ").expect(&rt, "numbers");
        let mut found = Vec::new(alloc);
        for text in sources.split('|') {
            if !text.trim().is_empty() {
                found.push(delays_of(&rt, text)).expect(&rt, "memory");
            }
        }
        let advice = Advice::new(&found, pace_of(&rt, numbers));
        let told = format!(in alloc;
            "{given} => {} {} {} of {}",
            advice.wait, advice.window, advice.late, advice.blocks
        );
        same(&rt, told.expect(&rt, "memory").as_str(), row);
    }
}

/// Delays of two sources, parted by a bar. Behind a colon stand whether the second one was late, and the stream's rate, `wait` and milliseconds of a tick, and behind
/// ` => ` by how much it is behind, and whether it is late.
const LATE: &str = "\
1 0*100 | 1 30*100 : 0 30 3 10 => 30 0
1 0*100 | 1 31*100 : 0 30 3 10 => 31 1
1 0*100 | 1 31*100 : 1 30 3 10 => 31 1
1 0*100 | 1 30*100 : 1 30 3 10 => 30 1
1 0*100 | 1 21*100 : 1 30 3 10 => 21 1
1 0*100 | 1 20*100 : 1 30 3 10 => 20 0
1 0*100 | 1 0*99 500*1 : 0 30 3 10 => 0 0
1 0*100 | 1 0*98 500*2 : 0 30 3 10 => 500 1
1 100*100 | 1 0*98 90*2 : 0 30 3 10 => 90 1
1 -20*100 | 1 -20*98 -10*2 : 0 30 1 10 => 10 0
1 0*100 | 1 1*100 : 0 30 0 10 => 1 1
1 0*100 | 1 0*100 : 1 30 0 10 => 0 0
1 0*100 | 1 : 1 30 0 10 => 0 0";

#[test]
fn late_sources(rt: HostRuntime) {
    let alloc = rt.alloc();
    for row in LATE.split('\n') {
        let (given, _) = row.split_once(" => ").expect(&rt, "a row");
        let (sources, numbers) = given.split_once(" : ").expect(&rt, "numbers");
        let (first, second) = sources.split_once(" | ").expect(&rt, "two sources");
        let found = [delays_of(&rt, first), delays_of(&rt, second)];
        let (was_late, numbers) = numbers.split_once(' ').expect(&rt, "whether it was late");
        let pace = pace_of(&rt, numbers);
        let behind = behind_of(&found, &found[1]);
        let is_late = u8::from(is_late_after(was_late == "1", behind, pace));
        let told = format!(in alloc; "{given} => {behind} {is_late}").expect(&rt, "memory");
        same(&rt, told.as_str(), row);
        let alone = [found[1]];
        same(&rt, behind_of(&alone, &alone[0]), 0);
    }
}

/// Edits as lines, parted by semicolons, and behind ` => ` those that are in force once they were done.
const EDITS: &str = "\
addpmu 7/7; addpmu 8/8 => addpmu 7/7; addpmu 8/8;
addpmu 7/7; addpmu 7/8; droppmu 7/7 => addpmu 7/8;
addsub 1 4 16; addsub 2 5 17; dropsub 1 => addsub 2 5 17;
addsub 1 4 16; grant 1 7/7; grant 1 8/8; grant 1 7/7 => addsub 1 4 16; grant 1 8/8; grant 1 7/7;
addsub 1 4 16; addsub 2 4 16; grant 1 7/7; grant 2 7/7; revoke 1 7/7 => addsub 1 4 16; addsub 2 4 16; grant 2 7/7;
addpmu 7/7; addsub 1 4 16; addsub 2 4 16; grant 1 7/7; grant 2 7/7; grant 2 8/7; droppmu 7/7 => addsub 1 4 16; addsub 2 4 16; grant 2 8/7;
addsub 1 4 16; define 1 3 30 90 1 1 none 7/7; define 1 4 30 90 1 1 41 7/7; remove 1 3 => addsub 1 4 16; define 1 4 30 90 1 1 41 7/7;
addsub 1 4 16; addsub 2 4 16; define 1 3 30 90 1 1 none 7/7; define 2 3 30 90 1 1 41 7/7; remove 2 3 => addsub 1 4 16; addsub 2 4 16; define 1 3 30 90 1 1 none 7/7;
addsub 1 4 16; grant 1 7/7; define 1 3 30 90 1 1 none 7/7; dropsub 1; addsub 1 5 16 => addsub 1 5 16;
stats 1; pmustats 7/7; audit 1 0; droppmu 7/7; dropsub 1; revoke 1 7/7; remove 1 3 =>";

/// Edits as lines, with a semicolon behind each.
fn told_of(rt: &impl Abort, alloc: Global, edits: &EditsInForce) -> String {
    let mut text = String::new(alloc);
    for edit in edits.as_slice() {
        let line = edit_line(alloc, edit).expect(rt, "memory");
        write!(text, " {line};").expect(rt, "memory");
    }
    text
}

/// These edits in force, after the lines were done.
fn in_force(rt: &impl Abort, alloc: Global, lines: &str) -> EditsInForce {
    let mut edits = EditsInForce::new(alloc);
    for line in lines.split("; ") {
        if !line.is_empty() {
            let edit = parse_line(alloc, line).expect(rt, "an edit");
            edits.reserve().expect(rt, "memory");
            edits.note(edit).expect(rt, "memory");
        }
    }
    edits
}

#[test]
fn edits_are_in_force_until_they_are_taken_back(rt: HostRuntime) {
    let alloc = rt.alloc();
    for row in EDITS.split('\n') {
        let (lines, _) = row.split_once(" =>").expect(&rt, "a row");
        let edits = in_force(&rt, alloc, lines);
        let told = format!(in alloc; "{lines} =>{}", told_of(&rt, alloc, &edits).as_str());
        same(&rt, told.expect(&rt, "memory").as_str(), row);
        // Once more from those: the same.
        let mut again = EditsInForce::new(alloc);
        again
            .note_all(alloc, edits.as_slice())
            .expect(&rt, "memory");
        same(
            &rt,
            told_of(&rt, alloc, &again).as_str(),
            told_of(&rt, alloc, &edits).as_str(),
        );
    }
    let edits = in_force(
        &rt,
        alloc,
        "addpmu 7/7; addsub 1 4 16; addsub 2 5 16; grant 2 7/7; grant 1 7/7; define 2 3 30 90 1 1 none 7/7",
    );
    let mut of_two = EditsInForce::new(alloc);
    let found = edits
        .of(alloc, SubId::new(2).expect(&rt, "a number"))
        .expect(&rt, "memory");
    of_two.note_all(alloc, &found).expect(&rt, "memory");
    same(
        &rt,
        told_of(&rt, alloc, &of_two).as_str(),
        " addsub 2 5 16; grant 2 7/7; define 2 3 30 90 1 1 none 7/7;",
    );
}
