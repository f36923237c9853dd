//! Wakes of a worker.
use crate::tests::asserts::same;
use pg_log::Journal;
use pg_service::{Mailbox, Poller, PortOrder};
use std::test::*;
use std::time::Duration;

/// Wakes that come together count as one, and one that comes after what was left was taken counts anew.
#[test]
fn wakes_count_as_one(rt: HostRuntime) {
    let alloc = rt.alloc();
    let mut waiting = Poller::new(&rt, alloc).expect(&rt, "a poll");
    let mailbox = Mailbox::<PortOrder>::new(alloc, waiting.poll()).expect(&rt, "a mailbox");
    let journal = Journal::new(alloc).expect(&rt, "memory");
    mailbox.wake(&journal);
    mailbox.send(&rt, &journal, PortOrder::Report(1));
    waiting.wait(&rt, &journal, Duration::from_secs(10));
    assert!(rt; waiting.is_woken());
    same(&rt, mailbox.take(&rt, alloc).len(), 1);
    waiting.wait(&rt, &journal, Duration::ZERO);
    assert!(rt; !waiting.is_woken());
    mailbox.wake(&journal);
    waiting.wait(&rt, &journal, Duration::from_secs(10));
    assert!(rt; waiting.is_woken());
}
