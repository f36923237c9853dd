//! History, and the state as JSON.

use crate::tests::asserts::same;
use pg_status::{
    Call, Frames, History, Presence, Queue, Snapshot, SourceState, SubscriberState, Total,
    state_json,
};
use pg_wire::{PmuId, SubId};
use std::alloc::Global;
use std::process::Abort;
use std::test::*;

/// The totals of each second, as subscriber, frames handed out and dropped: counts grow, stand, begin anew; a subscriber comes and another leaves.
const NOTED: [&[(u16, u64, u64)]; 4] = [
    &[(1, 30, 0)],
    &[(1, 60, 5), (2, 7, 1)],
    &[(2, 7, 1), (1, 12, 5)],
    &[(2, 8, 1)],
];

/// What is remembered of a subscriber after so many seconds.
fn remembered(rt: &impl Abort, alloc: Global, seconds: usize, sub: u16) -> String {
    let mut history = History::new(alloc);
    for noted in NOTED.iter().take(seconds) {
        let mut totals = Vec::new(alloc);
        for (sub, handed, dropped) in noted.iter() {
            let frames = Frames {
                handed: *handed,
                dropped: *dropped,
            };
            let sub = SubId::new(*sub).expect(rt, "a number");
            totals.push(Total { sub, frames }).expect(rt, "memory");
        }
        history.note(&totals).expect(rt, "memory");
    }
    let mut text = String::new(alloc);
    let Some(past) = history.past_of(SubId::new(sub).expect(rt, "a number")) else {
        return text;
    };
    for second in &past.seconds(alloc).expect(rt, "memory") {
        let (handed, dropped) = (second.handed, second.dropped);
        write!(text, "{handed}/{dropped} ").expect(rt, "memory");
    }
    text
}

#[test]
fn seconds_of_counts(rt: HostRuntime) {
    for (seconds, sub, wanted) in [
        (3, 1, "30/0 30/5 12/0 "),
        (3, 2, "7/1 0/0 "),
        (4, 1, ""),
        (4, 2, "7/1 0/0 1/0 "),
    ] {
        let text = remembered(&rt, rt.alloc(), seconds, sub);
        same(&rt, text.as_str(), wanted);
    }
}

/// A source that has sent nothing.
fn source(rt: &impl Abort, alloc: Global, address: &str) -> SourceState {
    SourceState {
        source: PmuId::new(7).expect(rt, "a number"),
        address: Some(String::from_str(alloc, address).expect(rt, "memory")),
        call: Call::Up,
        frames: 0,
        events: 0,
        ignored: Vec::new(alloc),
        last: None,
        last_data: None,
        quality: None,
        pmus: Vec::new(alloc),
    }
}

/// A subscriber that got nothing.
fn subscriber(rt: &impl Abort, alloc: Global, address: &str) -> SubscriberState {
    let address = String::from_str(alloc, address).expect(rt, "memory");
    SubscriberState {
        sub: SubId::new(1).expect(rt, "a number"),
        port: None,
        presence: Presence::Connected(address),
        made: 0,
        dropped: 0,
        lost: 0,
        late: 0,
        twice: 0,
        handed: 0,
        frames: 0,
        gaps: 0,
        queue: Queue {
            frames: 0,
            bytes: 0,
        },
    }
}

/// Marks, a backslash, a line's end, a control byte, and a letter beyond ASCII in an address.
#[test]
fn texts_in_json(rt: HostRuntime) {
    let alloc = rt.alloc();
    let mut shown = Snapshot {
        name: String::from_str(alloc, "a\"b").expect(&rt, "memory"),
        sources: Vec::new(alloc),
        subscribers: Vec::new(alloc),
        streams: Vec::new(alloc),
        unanswered: 0,
        recording: None,
    };
    let odd = source(&rt, alloc, "a\"b\\c\nd\u{1}é</script>");
    shown.sources.push(odd).expect(&rt, "memory");
    let odd = subscriber(&rt, alloc, "\t\u{7f}");
    shown.subscribers.push(odd).expect(&rt, "memory");
    let state = state_json(alloc, &shown, &History::new(alloc)).expect(&rt, "memory");
    for part in [
        r#""address":"a\"b\\c\nd\u0001é</script>","call""#,
        "\"address\":\"\\t\u{7f}\",\"waiting\"",
    ] {
        assert!(rt; state.as_str().contains(part), "{state}");
    }
}
