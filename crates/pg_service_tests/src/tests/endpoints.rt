//! Subscribers over memory, with a clock that the test moves: what is handed out, and who is hung up when.
use crate::tests::asserts::same;
use crate::tests::frames::{
    COMMANDS_101, CONFIG_7, DATA_7, add_ring, after, data_of, gateway, source, subscriber,
};
use pg_fakes::{FakeReader, FakeWriter};
use pg_gateway::{Gate, Gateway};
use pg_ingest::{Link, run_link};
use pg_limits::{Allow, Budget, CountingIo, OnChange, Timeout};
use pg_service::{ConnectionRules, MeteredGate};
use pg_subscribers::{Admission, ServeResult, SubscriberEndpoint};
use pg_wire::Refusal;
use std::alloc::Global;
use std::io::ErrorKind;
use std::net::Ipv4Addr;
use std::process::Abort;
use std::test::*;
use std::time::{Duration, Instant};

fn host() -> Ipv4Addr {
    Ipv4Addr::new(10, 0, 0, 7)
}

fn rules(takeover: bool) -> ConnectionRules {
    ConnectionRules {
        allow: Allow { networks: None },
        takeover,
        stall: Some(Duration::from_secs(30)),
        idle: None,
        change: OnChange::Safe,
    }
}

fn reader(bytes: &[u8], reads: u32) -> Budget<CountingIo<FakeReader<'_>>> {
    let fake = FakeReader {
        left: bytes,
        most: 4096,
        calls: 0,
        fails_at: 0,
        kind: ErrorKind::WouldBlock,
    };
    Budget::new(CountingIo::new(fake), reads)
}

/// A writer whose call number `blocks_at` would block.
fn writer(alloc: Global, blocks_at: u32) -> CountingIo<FakeWriter> {
    CountingIo::new(FakeWriter {
        taken: Vec::new(alloc),
        most: 60,
        calls: 0,
        fails_at: blocks_at,
        kind: ErrorKind::WouldBlock,
    })
}

/// Source 7's bytes come over its link.
fn hear(rt: &impl Abort, alloc: Global, gate: &mut impl Gate) {
    let mut link = Link::new(alloc, source(rt, 7)).expect(rt, "memory");
    for bytes in [CONFIG_7, DATA_7] {
        let mut from = reader(bytes, 1);
        let mut to = writer(alloc, 0);
        run_link(&mut link, &mut from, &mut to, gate, 10);
    }
}

fn enter(
    rt: &(impl Abort + Eprint),
    alloc: Global,
    endpoint: &mut SubscriberEndpoint,
    gate: &mut MeteredGate<Gateway>,
    now: Instant,
) {
    let admission = endpoint.admit(alloc, gate, host(), now);
    same(rt, admission, Admission::Accepted { replaced: false });
}

/// Where bytes wait and its socket takes none for `stall` seconds, it is hung up; each byte that is taken begins them anew.
#[test]
fn stalled_subscriber(rt: HostRuntime) {
    let alloc = rt.alloc();
    let start = Instant::now(&rt).expect(&rt, "a clock");
    let mut gate = MeteredGate::new(gateway(&rt, alloc));
    hear(&rt, alloc, &mut gate);
    let mut endpoint = SubscriberEndpoint::new(subscriber(&rt, 1), rules(false));
    enter(&rt, alloc, &mut endpoint, &mut gate, start);
    assert!(rt; endpoint.left(start).is_none());
    // Its first write takes 60 bytes, its second none.
    let mut out = writer(alloc, 2);
    let outcome = endpoint.serve(&mut reader(COMMANDS_101, 1), &mut out, &mut gate, start);
    same(&rt, outcome, ServeResult::Waits);
    same(&rt, out.moved, 60);
    assert!(rt;
        endpoint
            .expire(&mut gate, after(&rt, start, 29_999))
            .is_none()
    );
    // A socket that takes nothing is not asked, and a byte that is taken begins the 30 seconds anew.
    let at = after(&rt, start, 20_000);
    let outcome = endpoint.hand_out(&mut out, &mut gate, at);
    assert!(rt; outcome == ServeResult::Waits && out.inner.calls == 2);
    out.inner.fails_at = 3;
    let outcome = endpoint.serve(&mut reader(b"", 0), &mut out, &mut gate, at);
    assert!(rt; outcome == ServeResult::Waits && out.inner.calls == 3);
    let reason = endpoint.expire(&mut gate, after(&rt, start, 30_000));
    same(&rt, reason, Some(Timeout::Stalled));
    assert!(rt; endpoint.connection().is_none());
    enter(&rt, alloc, &mut endpoint, &mut gate, start);
}

/// What waits is handed out in one turn, though a drain holds no more than 16,384 bytes: 700 frames of 26 bytes.
#[test]
fn drained_until_empty(rt: HostRuntime) {
    let alloc = rt.alloc();
    let now = Instant::now(&rt).expect(&rt, "a clock");
    let mut gate = MeteredGate::new(gateway(&rt, alloc));
    add_ring(&rt, alloc, &mut gate, 30, 101, 1024);
    let mut link = Link::new(alloc, source(&rt, 7)).expect(&rt, "memory");
    let mut to = writer(alloc, 0);
    run_link(&mut link, &mut reader(CONFIG_7, 1), &mut to, &mut gate, 10);
    let mut endpoint = SubscriberEndpoint::new(subscriber(&rt, 30), rules(false));
    enter(&rt, alloc, &mut endpoint, &mut gate, now);
    let mut out = writer(alloc, 0);
    endpoint.serve(&mut reader(COMMANDS_101, 1), &mut out, &mut gate, now);
    for second in 101..801 {
        let frame = data_of(&rt, alloc, second);
        run_link(&mut link, &mut reader(&frame, 1), &mut to, &mut gate, 10);
    }
    same(
        &rt,
        endpoint.hand_out(&mut out, &mut gate, now),
        ServeResult::Waits,
    );
    same(&rt, out.inner.taken.len(), 74 + 700 * 26);
}
