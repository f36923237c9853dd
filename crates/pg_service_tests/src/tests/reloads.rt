//! Reloads wait in their order, and each answer is taken once.
use crate::tests::asserts::same;
use pg_console::Reloads;
use pg_log::Journal;
use pg_service::{Mailbox, Poller};
use pg_wire::Refusal;
use std::alloc::Global;
use std::net::Net;
use std::process::Abort;
use std::test::*;

/// No reload, and what its worker would wait with.
fn reloads<R: Net + Abort>(rt: &R, alloc: Global) -> (Poller, Reloads) {
    let waiting = Poller::new(rt, alloc).expect(rt, "a poll");
    let mailbox = Mailbox::new(alloc, waiting.poll()).expect(rt, "a mailbox");
    (waiting, Reloads::new(alloc, mailbox))
}

fn text(rt: &impl Abort, alloc: Global, text: &str) -> Vec<u8> {
    Vec::from_slice(alloc, text.as_bytes()).expect(rt, "memory")
}

/// The first is done first; an answer is there once it is left, for its own number and once.
#[test]
fn answers_are_taken_by_their_numbers(rt: HostRuntime) {
    let alloc = rt.alloc();
    let journal = Journal::new(alloc).expect(&rt, "memory");
    let (_waiting, reloads) = reloads(&rt, alloc);
    same(&rt, reloads.next(&rt, alloc), None);
    let first = reloads.ask(&rt, &journal).expect(&rt, "room");
    let second = reloads.ask(&rt, &journal).expect(&rt, "room");
    same(&rt, reloads.next(&rt, alloc), Some(first));
    same(&rt, reloads.next(&rt, alloc), Some(second));
    same(&rt, reloads.next(&rt, alloc), None);
    reloads.answer(&rt, second, text(&rt, alloc, "two"));
    assert!(rt; reloads.take_answer(&rt, first).is_none());
    reloads.answer(&rt, first, text(&rt, alloc, "one"));
    for (number, answer) in [(first, b"one"), (second, b"two")] {
        let taken = reloads.take_answer(&rt, number).expect(&rt, "an answer");
        same(&rt, taken.as_slice(), answer.as_slice());
        assert!(rt; reloads.take_answer(&rt, number).is_none());
    }
}

/// What clients that have gone asked for is done all the same, and answered to nobody; eight such reloads may wait.
#[test]
fn reloads_of_clients_that_have_gone(rt: HostRuntime) {
    let alloc = rt.alloc();
    let journal = Journal::new(alloc).expect(&rt, "memory");
    let (_waiting, reloads) = reloads(&rt, alloc);
    for _ in 0..8u32 {
        let number = reloads.ask(&rt, &journal).expect(&rt, "room");
        reloads.drop_answer(&rt, number);
    }
    same(&rt, reloads.ask(&rt, &journal), Err(Refusal::Busy));
    let number = reloads.next(&rt, alloc).expect(&rt, "a reload");
    reloads.answer(&rt, number, text(&rt, alloc, "done"));
    assert!(rt; reloads.take_answer(&rt, number).is_none());
    assert!(rt; reloads.ask(&rt, &journal).is_ok());
}
