//! What is done where memory is refused, and where it is kept.
use crate::asserts::same;
use crate::fixtures::{definition, heard, key, octets, play, played, subscriber};
use pg_command::Command;
use pg_data::DataFrame;
use pg_fakes::all_memory;
use pg_gateway::{Event, Gateway};
use pg_ingest::{Link, LinkEvent};
use pg_ring::{RingBytes, RingSize};
use pg_session::{PrivateEvent, PrivateReply, Subscriber};
use std::alloc::Global;
use std::process::Abort;
use std::sync::Arc;
use std::test::*;

/// How many frames are missing before the next one of a subscriber.
fn pending(rt: &impl Abort, gateway: &Gateway, sub: u16) -> u64 {
    let queue = gateway
        .queue(subscriber(rt, sub))
        .expect(rt, "a subscriber");
    queue.pending()
}

const THREE_SUBSCRIBERS: &str = "\
addpmu 7
hear 7 config-7
addsub 1 4
addsub 2 4
addsub 3 4
grant 1 7
grant 2 7
grant 3 7
define 1 101 0 7
define 2 101 0 7
define 3 101 0 7
connect 1
connect 2
connect 3
command 1 101 2
command 2 101 2
command 3 101 2
starved 26 hear 7 config-7+data-7 > done 3 1
stats 1 > stats 1 0
stats 2 > stats 1 1
stats 3 > stats 1 1";

const LATER_FRAME: &str = "\
hear 7 config-7+later-7 > done 3 3
drain 1 400 > drained 0 =data-101+later-101
drain 2 400 > drained 1 =later-101
drain 3 400 > drained 1 =later-101";

// Row loss-reaches-later-subscribers. The place of one composition, of 26 bytes, is all the memory that the frame finds.
#[test]
fn loss_reaches_later_subscribers(rt: HostRuntime) {
    let alloc = rt.alloc();
    let mut gateway = played(&rt, alloc, THREE_SUBSCRIBERS);
    for (sub, missing) in [(1, 0), (2, 1), (3, 1)] {
        same(&rt, pending(&rt, &gateway, sub), missing);
    }
    play(&rt, alloc, &mut gateway, LATER_FRAME);
}

// Row reply-without-memory.
const REPLY: &str = "\
addpmu 7
addsub 1 4
grant 1 7
define 1 101 0 7
connect 1
starved 0 command 1 101 5 > refused 1
audit 1 > audit 8 1
stats 1 > stats 0 0 1:1
drain 1 400 > drained 0 =nothing
command 1 101 5
drain 1 400 > drained 0 =config-101-of-none";

#[test]
fn reply_without_memory(rt: HostRuntime) {
    played(&rt, rt.alloc(), REPLY);
}

/// A block of PMU 7 waits for one of PMU 8.
const OPEN_SLOT: &str = "\
addpmu 7
hear 7 config-7
addpmu 8
hear 8 config-8
addsub 1 4
grant 1 7
grant 1 8
define 1 101 2 7 8
connect 1
command 1 101 2
hear 7 config-7+data-7";

// Row loss-in-a-flush: a PMU is dropped, a grant revoked, and a configuration changed all the same.
#[test]
fn loss_in_a_flush(rt: HostRuntime) {
    let alloc = rt.alloc();
    for (line, listed) in [
        ("droppmu 8", "config-101"),
        ("revoke 1 8", "config-101"),
        ("hear 7 config-7-renamed", "config-101-of-both"),
    ] {
        let mut gateway = played(&rt, alloc, OPEN_SLOT);
        let lines = format!(in alloc;
            "starved 0 {line} > done 1 0\nstats 1 > stats 1 1\ncommand 1 101 5\ndrain 1 400 > drained 0 ={listed}"
        );
        play(&rt, alloc, &mut gateway, &lines.expect(&rt, "memory"));
        same(&rt, pending(&rt, &gateway, 1), 1);
    }
}

/// A subscriber takes an event, for which its copies were made: so many frames are made and kept. There may be no memory meanwhile.
fn takes(
    rt: &impl Abort,
    alloc: Global,
    sub: &mut Subscriber,
    event: PrivateEvent<'_>,
    is_starved: bool,
    frames: u64,
) {
    assert!(rt; sub.accepts(&event));
    assert!(rt; sub.copies(&event).is_ok());
    assert!(rt; sub.accepts(&event) && sub.ready(&event));
    let held = if is_starved {
        Some(all_memory(alloc).expect(rt, "a list of it"))
    } else {
        None
    };
    let reply = sub.take(event, false);
    drop(held);
    match reply {
        PrivateReply::Done { made, kept } => same(rt, (made, kept), (frames, frames)),
        _ => panic!(rt; "not done"),
    }
}

// Row take-without-memory: a block that completes no slot takes its place, and the reply is the one with memory.
#[test]
fn take_without_memory(rt: HostRuntime) {
    let alloc = rt.alloc();
    let ring = RingSize::new(4).expect(&rt, "a size");
    let bytes = RingBytes::new(16_777_216).expect(&rt, "a size");
    let mut sub = Subscriber::new(alloc, ring, bytes, None).expect(&rt, "memory");
    let (stream, word) = (102, 2);
    let (Event::Announce(seven), Event::Announce(eight), Event::Measure(frame)) = (
        heard(&rt, alloc, 7, "config-7"),
        heard(&rt, alloc, 8, "config-8"),
        heard(&rt, alloc, 7, "config-7+data-7"),
    ) else {
        panic!(&rt; "other events");
    };
    let defined = definition(&rt, alloc, stream, 2, &[7, 8]);
    for (event, is_starved, frames) in [
        (PrivateEvent::Connect, false, 0),
        (PrivateEvent::Grant(key(&rt, 7), None), false, 0),
        (PrivateEvent::Grant(key(&rt, 8), None), false, 0),
        (PrivateEvent::Define(defined), false, 0),
        (PrivateEvent::Announce(&seven, &[0]), false, 0),
        (PrivateEvent::Announce(&eight, &[0]), false, 0),
        (PrivateEvent::Command(Command { stream, word }), false, 0),
        (PrivateEvent::Measure(&frame, &[0]), true, 0),
        (PrivateEvent::Tick(100), false, 0),
        (PrivateEvent::Tick(100), false, 1),
    ] {
        takes(&rt, alloc, &mut sub, event, is_starved, frames);
    }
    let (made, _) = sub.queue().frame_at(0).expect(&rt, "a frame");
    same(&rt, made, octets(&rt, alloc, "data-102").as_slice());
}

/// The next data frame of a link, which is held, and given back too.
fn next_held(rt: &impl Abort, link: &mut Link) -> Arc<DataFrame> {
    match link.next_event() {
        LinkEvent::Measure(frame) => {
            link.give_back(Arc::try_clone(&frame).expect(rt, "too many"));
            frame
        }
        _ => panic!(rt; "no data frame"),
    }
}

/// The three data frames of a burst are held until the last has come.
fn burst(rt: &impl Abort, link: &mut Link) {
    let _held = [
        next_held(rt, link),
        next_held(rt, link),
        next_held(rt, link),
    ];
}

/// A burst is read in the memory of the one before it, where its frames are not held any more, also where there is no other memory.
#[test]
fn burst_in_the_memory_of_the_last(rt: HostRuntime) {
    let alloc = rt.alloc();
    let mut link = Link::new(alloc, key(&rt, 7).source).expect(&rt, "memory");
    let bytes = octets(&rt, alloc, "config-7+data-7+data-7+data-7");
    assert!(&rt; 74 <= bytes.len() && bytes.len() <= link.room());
    link.feed(&bytes);
    assert!(&rt; matches!(link.next_event(), LinkEvent::Announce(_)));
    burst(&rt, &mut link);
    assert!(&rt; bytes.len() - 74 <= link.room());
    link.feed(&bytes[74..]);
    let held = all_memory(alloc).expect(&rt, "a list of it");
    burst(&rt, &mut link);
    drop(held);
    assert!(&rt; matches!(link.next_event(), LinkEvent::More));
}
