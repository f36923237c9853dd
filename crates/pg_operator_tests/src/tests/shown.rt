//! What a subscriber has, printed as tables of a setup file.

use crate::tests::asserts::same;
use pg_gateway::Edit;
use pg_operator::{
    PortRules, PortState, Setup, Shown, StreamState, SubscriberSetup, print_subscriber, read_setup,
};
use pg_setup::changes_between;
use pg_wire::{PmuId, PmuKey, StreamId, SubId};
use std::alloc::Global;
use std::net::SocketAddr;
use std::process::Abort;
use std::test::*;

/// The PMUs of the setup below.
const PMUS: &str = "pmu = [{ id = 7 }, { id = 8 }, { id = 9, source = 7 }]\n";

/// Subscribers: with all keys, with few, with a list that allows no host.
const SUBSCRIBERS: &str = r#"subscriber = [
{ id = 1, port = 4800, ring = 64, bytes = 16, grants = [8, "7/9", 7], address = "10.0.0.1", allow = ["10.9.8.7/8", "1.2.3.4"], takeover = true, stall = 1, idle = 2, change = "hangup", stream = [
{ id = 101, rate = 30, base = 1000000, wait = 2, window = 4, members = [7, 8, "7/9", 300] },
{ id = 102, rate = 120, base = 16777215, wait = 60000, window = 64, header = "\"\\ \u0000\u001F~\u007F\n", members = ["9/7", "8/8"] }] },
{ id = 65535, ring = 1 },
{ id = 2, port = 65535, ring = 1024, allow = [], change = "keep" }]
"#;

/// What is printed of the first one, where stream 101 is on with two members, PMU 8 announced nothing and PMU 300 is not registered. The frames of stream
/// 102 have as many members as are granted, so that PMU 8 is there.
const PRINTED: &str = r#"[[subscriber]]
id = 1
port = 4800 # connected from 127.0.0.1:50000
ring = 64
bytes = 16
grants = [8, "7/9", 7]
address = "10.0.0.1"
allow = ["10.9.8.7/8", "1.2.3.4/32"]
takeover = true
stall = 1
idle = 2
change = "hangup"

[[subscriber.stream]]
id = 101 # on
rate = 30
base = 1000000
wait = 2
window = 4
members = [
  7,
  8, # not announced
  "7/9",
  300, # not registered
]

[[subscriber.stream]]
id = 102 # off
rate = 120
base = 16777215
wait = 60000
window = 64
header = "\"\\ \u0000\u001F~\u007F\u000A"
members = [
  "9/7", # not granted
  8,
]
"#;

/// What is printed of the second one, which never had a port, of the third one without its port, and of that with a port that can't be bound.
const PRINTED_OTHERS: &str = r#"[[subscriber]]
id = 65535
# no port is open
ring = 1
bytes = 16777216
grants = []
[[subscriber]]
id = 2
# no port is open
ring = 1024
bytes = 16777216
grants = []
address = "0.0.0.0"
allow = []
takeover = false
stall = 30
idle = 0
change = "keep"
[[subscriber]]
id = 2
port = 65535 # it can't be bound now
ring = 1024
bytes = 16777216
grants = []
address = "0.0.0.0"
allow = []
takeover = false
stall = 30
idle = 0
change = "keep"
"#;

fn key(rt: &impl Abort, source: u16, pmu: u16) -> PmuKey {
    PmuKey {
        source: PmuId::new(source).expect(rt, "a number"),
        pmu: PmuId::new(pmu).expect(rt, "a number"),
    }
}

fn state(rt: &impl Abort, stream: u16, is_on: bool, effective: u16) -> StreamState {
    StreamState {
        stream: StreamId::new(stream).expect(rt, "a number"),
        is_on,
        effective,
    }
}

/// What is printed of a subscriber whose port stands so.
fn printed(
    rt: &impl Abort,
    alloc: Global,
    setup: &SubscriberSetup,
    closed: Option<&PortRules>,
    port: PortState,
) -> Vec<u8> {
    let streams = [state(rt, 101, true, 2), state(rt, 102, false, 1)];
    let registered = [key(rt, 7, 7), key(rt, 8, 8), key(rt, 7, 9), key(rt, 9, 7)];
    let announced = [key(rt, 7, 7), key(rt, 7, 9)];
    let shown = Shown {
        setup,
        closed,
        port,
        streams: &streams,
        registered: &registered,
        announced: &announced,
    };
    let mut out = Vec::new(alloc);
    print_subscriber(&mut out, &shown).expect(rt, "memory");
    out
}

fn expect_text(rt: &impl Abort, came: &[u8], wanted: &str) {
    same(rt, str::from_utf8(came).ok().expect(rt, "a text"), wanted);
}

/// The edits of a subscriber of a setup.
fn edits_of(rt: &impl Abort, alloc: Global, setup: &Setup, sub: SubId) -> Vec<Edit> {
    let mut edits = setup.edits(alloc).expect(rt, "memory");
    edits.retain(|edit| match edit {
        Edit::AddSub(other, _, _) => *other == sub,
        Edit::Grant(other, _) => *other == sub,
        Edit::Define(other, _) => *other == sub,
        _ => false,
    });
    edits
}

fn setup_of(rt: &impl Abort, alloc: Global, subscribers: &str) -> Setup {
    let text = format!(in alloc; "{PMUS}{subscribers}").expect(rt, "memory");
    read_setup(alloc, text.as_str()).expect(rt, "a setup")
}

#[test]
fn subscribers_are_printed(rt: HostRuntime) {
    let alloc = rt.alloc();
    let peer = "127.0.0.1:50000"
        .parse::<SocketAddr>()
        .ok()
        .expect(&rt, "an address");
    let mut setup = setup_of(&rt, alloc, SUBSCRIBERS);
    let first = setup.subscribers.get(0).expect(&rt, "a first one");
    let text = printed(&rt, alloc, first, None, PortState::Connected(peer));
    expect_text(&rt, &text, PRINTED);
    let second = setup.subscribers.get(1).expect(&rt, "a second one");
    let mut others = printed(&rt, alloc, second, None, PortState::Closed);
    let third = setup.subscribers.get_mut(2).expect(&rt, "a third one");
    let unbound = printed(&rt, alloc, third, None, PortState::Unbound);
    let port = third.port.take().expect(&rt, "a port");
    let closed = printed(&rt, alloc, third, Some(&port.rules), PortState::Closed);
    others.extend_from_slice(&closed).expect(&rt, "memory");
    others.extend_from_slice(&unbound).expect(&rt, "memory");
    expect_text(&rt, &others, PRINTED_OTHERS);
}

/// What is printed is read as the same: nothing has to be done to come from the one to the other, or back.
#[test]
fn what_is_printed_is_read_as_the_same(rt: HostRuntime) {
    let alloc = rt.alloc();
    let setup = setup_of(&rt, alloc, SUBSCRIBERS);
    let mut text = Vec::new(alloc);
    for subscriber in &setup.subscribers {
        let edits = edits_of(&rt, alloc, &setup, subscriber.sub);
        let mut made = SubscriberSetup::of_edits(alloc, &edits)
            .expect(&rt, "memory")
            .expect(&rt, "a subscriber");
        if let Some(port) = &subscriber.port {
            made.port = Some(port.try_clone(alloc).expect(&rt, "memory"));
        }
        let part = printed(&rt, alloc, &made, None, PortState::Waiting);
        text.extend_from_slice(&part).expect(&rt, "memory");
    }
    let text = str::from_utf8(&text).ok().expect(&rt, "a text");
    let again = setup_of(&rt, alloc, text);
    for (one, other) in [(&setup, &again), (&again, &setup)] {
        let changes = changes_between(alloc, one, other).expect(&rt, "memory");
        same(&rt, changes.edits.len(), 0);
        same(&rt, changes.orders.len(), 0);
    }
}
