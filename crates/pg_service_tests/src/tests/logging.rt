//! What the log says, and how often. Each text without what is known beside is compared with docs/OPERATING.md by tools/docs_lists.py.
use crate::tests::asserts::same;
use crate::tests::frames::{source, subscriber};
use pg_log::{Detail, Entry, Journal, LogEvent, LogThrottle, Subject};
use pg_wire::Refusal;
use std::alloc::Global;
use std::io;
use std::io::ErrorKind;
use std::net::{Ipv4Addr, SocketAddr};
use std::process::Abort;
use std::test::*;

/// An entry of source 7.
fn of_source(rt: &impl Abort, event: LogEvent, detail: Detail) -> Entry {
    Entry::new(event, Subject::Source(source(rt, 7)), detail)
}

/// An entry of a subscriber.
fn of_subscriber(rt: &impl Abort, number: u16, event: LogEvent) -> Entry {
    Entry::new(
        event,
        Subject::Subscriber(subscriber(rt, number)),
        Detail::Nothing,
    )
}

/// An entry that a step of `logged` names.
fn named(rt: &impl Abort, name: &str) -> Entry {
    match name {
        "made" => of_source(rt, LogEvent::Made, Detail::Nothing),
        "called" => of_source(rt, LogEvent::Called, Detail::Nothing),
        "bad" => of_source(rt, LogEvent::Ignored, Detail::Because(Refusal::BadCheck)),
        "stale" => of_source(rt, LogEvent::Ignored, Detail::Because(Refusal::StaleConfig)),
        "gap" => of_subscriber(rt, 2, LogEvent::Gap),
        "idle" => of_subscriber(rt, 2, LogEvent::Idle),
        _ => of_subscriber(rt, 1, LogEvent::Idle),
    }
}

/// Adds a line: when an entry is logged, its event, and how often it says that it happened.
fn add(rt: &impl Abort, alloc: Global, text: &mut String, now: u64, entry: &Entry) {
    let (event, times) = (entry.event, entry.times);
    let line = format!(in alloc; "{now} {event:?} {times}\n").expect(rt, "memory");
    text.push_str(line.as_str()).expect(rt, "memory");
}

/// What is logged in these steps, each a time in milliseconds and what happens then: an entry, `due` for the end of a turn, or two lines that
/// could not be written.
fn logged(rt: &impl Abort, alloc: Global, steps: &str) -> String {
    let mut throttle = LogThrottle::new(alloc);
    let mut text = String::new(alloc);
    for step in steps.lines() {
        let (time, name) = step.split_once(' ').expect(rt, "a time");
        let now = time.parse::<u64>().expect(rt, "a time");
        let told = match name {
            "due" => throttle.due(now),
            "unwritten" => {
                throttle.not_written(2);
                None
            }
            _ => throttle.offer(named(rt, name), now),
        };
        if let Some(entry) = told {
            add(rt, alloc, &mut text, now, &entry);
        }
    }
    text
}

/// The first of a kind is logged at once. While it repeats, a line that counts the others comes after 1, 2, 4 seconds and so on, 60 at most;
/// after a minute without one the next is logged at once, and those behind it after a second.
#[test]
fn lines_that_repeat(rt: HostRuntime) {
    const STEPS: &str =
        "0 made\n1 made\n999 made\n999 due\n1000 due\n1000 due\n1001 made\n2999 made\n2999 due\n3000 due\n\
        3001 made\n6999 due\n7000 due\n7001 made\n14999 due\n15000 due\n15001 made\n30999 due\n31000 due\n31001 made\n\
        62999 due\n63000 due\n63001 made\n122999 due\n123000 due\n123001 made\n182999 due\n183000 due\n242999 due\n\
        243000 made\n243001 made\n243999 due\n244000 due\n246000 made\n246001 made\n246999 due\n247000 due";
    const LOGGED: &str =
        "0 Made 1\n1000 Made 2\n3000 Made 2\n7000 Made 1\n15000 Made 1\n31000 Made 1\n63000 Made 1\n123000 Made 1\n\
        183000 Made 1\n243000 Made 1\n244000 Made 1\n246000 Made 1\n247000 Made 1\n";
    same(&rt, logged(&rt, rt.alloc(), STEPS).as_str(), LOGGED);
}

/// Gaps have a line a second, ignored frames a line a minute. What one does, or one kind or reason, holds back nothing of another. What could
/// not be written is counted.
#[test]
fn kinds_apart(rt: HostRuntime) {
    const STEPS: &str =
        "0 gap\n0 bad\n0 idle\n1 gap\n1 bad\n2 bad\n2 stale\n3 stale\n3 idle\n4 other\n5 made\n6 called\n\
        7 unwritten\n8 unwritten\n9 due\n9 due\n999 due\n1000 due\n1000 due\n1001 gap\n1999 due\n2000 due\n2001 gap\n\
        2002 gap\n3000 due\n59999 due\n60000 due\n60001 due\n60002 due\n60003 bad\n119999 due\n120000 due";
    const LOGGED: &str =
        "0 Gap 1\n0 Ignored 1\n0 Idle 1\n2 Ignored 1\n4 Idle 1\n5 Made 1\n6 Called 1\n9 EntriesLost 4\n1000 Gap 1\n\
        1000 Idle 1\n2000 Gap 1\n3000 Gap 2\n60000 Ignored 2\n60002 Ignored 1\n120000 Ignored 1\n";
    same(&rt, logged(&rt, rt.alloc(), STEPS).as_str(), LOGGED);
}

/// More kinds than are told apart are counted, and logged as such.
#[test]
fn too_many_kinds(rt: HostRuntime) {
    let alloc = rt.alloc();
    let mut throttle = LogThrottle::new(alloc);
    let mut text = String::new(alloc);
    let mut firsts = 0u64;
    for number in 1..4_097 {
        if let Some(entry) = throttle.offer(of_subscriber(&rt, number, LogEvent::Connected), 0) {
            firsts = firsts.saturating_add(entry.times);
        }
    }
    same(&rt, firsts, 4_096);
    for now in [0, 500, 600, 1_000] {
        let told = match now {
            600 => throttle.due(now),
            _ => throttle.offer(of_subscriber(&rt, 5_000, LogEvent::Connected), now),
        };
        if let Some(entry) = told {
            add(&rt, alloc, &mut text, now, &entry);
        }
    }
    same(&rt, text.as_str(), "600 EntriesLost 2\n1000 Connected 1\n");
}

/// What happens waits in its order, and what is just as the last is counted with it.
#[test]
fn entries_wait(rt: HostRuntime) {
    let alloc = rt.alloc();
    let journal = Journal::new(alloc).expect(&rt, "memory");
    for name in ["called", "made", "made", "called"] {
        journal.log(&rt, named(&rt, name));
    }
    let mut text = String::new(alloc);
    for entry in journal.take(&rt, alloc) {
        add(&rt, alloc, &mut text, 0, &entry);
    }
    same(&rt, text.as_str(), "0 Called 1\n0 Made 2\n0 Called 1\n");
    same(&rt, journal.take(&rt, alloc).len(), 0);
    same(&rt, journal.count(LogEvent::Called), 2);
}

/// Of each source and each subscriber at most 128 entries wait, whatever others do; what happens then is counted as not logged.
#[test]
fn entries_are_bounded(rt: HostRuntime) {
    let alloc = rt.alloc();
    let journal = Journal::new(alloc).expect(&rt, "memory");
    for _ in 0..80 {
        for event in [LogEvent::Connected, LogEvent::SubscriberEnded] {
            journal.log(&rt, of_subscriber(&rt, 7, event));
        }
    }
    for number in 1..65 {
        journal.log(&rt, of_subscriber(&rt, number, LogEvent::Stalled));
    }
    journal.log(&rt, of_source(&rt, LogEvent::Silent, Detail::Nothing));
    // Sixteen ends of subscriber 7 are counted with the last one that is kept; as many connections and its stall are not told. Source 7 is another.
    same(&rt, journal.take(&rt, alloc).len(), 128 + 63 + 1);
    same(&rt, journal.count(LogEvent::Connected), 80);
    same(&rt, journal.count(LogEvent::EntriesLost), 17);
}

/// Adds the line of an entry.
fn write(rt: &impl Abort, alloc: Global, text: &mut String, entry: &Entry) {
    let line = format!(in alloc; "{entry}\n").expect(rt, "memory");
    text.push_str(line.as_str()).expect(rt, "memory");
}

/// What the system said: its kind in words, and the number of an error that is of no kind. A call has the address that was called.
#[test]
fn lines_of_the_system(rt: HostRuntime) {
    let alloc = rt.alloc();
    let host = Some(SocketAddr::from((Ipv4Addr::new(10, 1, 2, 3), 4_712)));
    let mut text = String::new(alloc);
    for number in [24, 105, 71, 12, 103] {
        let error = io::Error::from_raw_os_error(number);
        for (event, detail) in [
            (LogEvent::NotMade, Detail::of_call(host, &error)),
            (LogEvent::SocketFault, Detail::of_error(&error)),
        ] {
            write(&rt, alloc, &mut text, &of_source(&rt, event, detail));
        }
    }
    let nameless = Detail::System(ErrorKind::Uncategorized);
    let no_table = Entry::new(LogEvent::NoTable, Subject::Nobody, nameless);
    write(&rt, alloc, &mut text, &no_table);
    const LINES: &str =
        "source 7: can't connect to 10.1.2.3:4712: out of file descriptors (errno 24); retrying\n\
        source 7: a connection's socket can't be waited for: out of file descriptors (errno 24); the connection is closed\n\
        source 7: can't connect to 10.1.2.3:4712: out of buffers for sockets (errno 105); retrying\n\
        source 7: a connection's socket can't be waited for: out of buffers for sockets (errno 105); the connection is closed\n\
        source 7: can't connect to 10.1.2.3:4712: errno 71; retrying\n\
        source 7: a connection's socket can't be waited for: errno 71; the connection is closed\n\
        source 7: can't connect to 10.1.2.3:4712: out of memory; retrying\n\
        source 7: a connection's socket can't be waited for: out of memory; the connection is closed\n\
        source 7: can't connect to 10.1.2.3:4712: connection aborted; retrying\n\
        source 7: a connection's socket can't be waited for: connection aborted; the connection is closed\n\
        /proc/net/tcp can't be read: an error without a name (out of file descriptors?); a subscriber's host that lost power is noticed late\n";
    same(&rt, text.as_str(), LINES);
}

/// Why a connection ended, and lines that begin with their count: a count of one is no plural.
#[test]
fn lines_of_ends_and_counts(rt: HostRuntime) {
    let alloc = rt.alloc();
    let mut text = String::new(alloc);
    for number in [3, 4, 39, 40, 12] {
        let entry = of_source(&rt, LogEvent::SubscriberEnded, Detail::Fault(number));
        write(&rt, alloc, &mut text, &entry);
    }
    for event in [
        LogEvent::Gap,
        LogEvent::EntriesLost,
        LogEvent::Ignored,
        LogEvent::PageBusy,
    ] {
        let mut entry = Entry::new(event, Subject::Nobody, Detail::Nothing);
        write(&rt, alloc, &mut text, &entry);
        entry.times = 17;
        write(&rt, alloc, &mut text, &entry);
    }
    const LINES: &str =
        "source 7: the connection ended: not C37.118: no frame begins here (3 BadSecond)\n\
        source 7: the connection ended: not C37.118: no frame has this length (4 ShortSize)\n\
        source 7: the connection ended: reading failed\n\
        source 7: the connection ended: writing failed\n\
        source 7: the connection ended: reason 12\n\
        1 data frame dropped: the subscriber reads too slowly, or its `ring` or `bytes` is too small\n\
        17 data frames dropped: the subscriber reads too slowly, or its `ring` or `bytes` is too small\n\
        1 log entry was lost: too many at once\n\
        17 log entries were lost: too many at once\n\
        frames are ignored\n\
        frames are ignored (17 frames)\n\
        page: a connection was answered 503: 16 are open\n\
        page: a connection was answered 503: 16 are open (17 times)\n";
    same(&rt, text.as_str(), LINES);
}
