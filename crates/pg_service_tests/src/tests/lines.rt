//! Whom a line of an operator asks.
use crate::tests::asserts::same;
use pg_console::{Console, NoServiceCommands, ServiceHandle, answer_lines};
use pg_gateway::Gateway;
use pg_log::{Journal, LogEvent};
use pg_service::{
    Directory, Mailbox, MeteredGate, Poller, PortOrder, Resolver, SourceOrder, StatusCollector,
    WorkerHandles,
};
use std::alloc::Global;
use std::net::Net;
use std::process::Abort;
use std::rt::Clock;
use std::sync::atomic::AtomicBool;
use std::sync::{Mutex, Wait};
use std::test::*;

/// The mailboxes of a source's worker and a port's worker, and a resolver without workers.
#[derive(Drop)]
struct Boxes {
    sources: Vec<Mailbox<SourceOrder>>,
    ports: Vec<Mailbox<PortOrder>>,
    resolver: Resolver,
    journal: Journal,
    collector: StatusCollector,
    directory: Mutex<Directory>,
    waits: [Poller; 2],
}

fn make_boxes<R: Net + Abort>(rt: &R, alloc: Global) -> Boxes {
    let source_wait = Poller::new(rt, alloc).expect(rt, "a poll");
    let port_wait = Poller::new(rt, alloc).expect(rt, "a poll");
    let mut sources = Vec::new(alloc);
    let mailbox = Mailbox::new(alloc, source_wait.poll()).expect(rt, "a mailbox");
    sources.push(mailbox).expect(rt, "memory");
    let mut ports = Vec::new(alloc);
    let mailbox = Mailbox::new(alloc, port_wait.poll()).expect(rt, "a mailbox");
    ports.push(mailbox).expect(rt, "memory");
    Boxes {
        sources,
        ports,
        resolver: Resolver::new(alloc, None).expect(rt, "memory"),
        journal: Journal::new(alloc).expect(rt, "memory"),
        collector: StatusCollector::new(alloc),
        directory: Mutex::new(Directory::new(alloc).expect(rt, "memory")),
        waits: [source_wait, port_wait],
    }
}

/// How often it is noted that workers did not answer, where one line asks what the service shows and no worker is there; and how many are
/// reported that did not. `is_over` says whether all are to end.
fn unanswered<R: Net + Abort + Wait + Clock>(rt: &R, alloc: Global, is_over: bool) -> (u64, usize) {
    let boxes = make_boxes(rt, alloc);
    let stop = AtomicBool::new(is_over);
    let told = ServiceHandle {
        sources: &boxes.sources,
        handles: WorkerHandles {
            ports: &boxes.ports,
            resolver: &boxes.resolver,
            journal: &boxes.journal,
            collector: &boxes.collector,
        },
        name: "test",
        tick_ms: 10,
        directory: &boxes.directory,
        admin: None,
        reloads: None,
        recorder: None,
        stop: &stop,
    };
    let mut gate = MeteredGate::new(Gateway::new(alloc).expect(rt, "memory"));
    let mut reader = b"status\n".as_slice();
    let mut console = Console::new(alloc, Vec::new(alloc), told);
    answer_lines(
        rt,
        &mut console,
        &mut gate,
        &mut reader,
        &mut NoServiceCommands,
    );
    drop(console);
    let noted = boxes.journal.count(LogEvent::Unanswered);
    (noted, told.ask(rt, alloc).unanswered)
}

/// Workers that are there are asked what the service shows, and waited for; once all are to end nobody is, as none need answer then.
#[test]
fn nobody_is_asked_at_the_end(rt: HostRuntime) {
    let alloc = rt.alloc();
    same(&rt, unanswered(&rt, alloc, false), (1, 2));
    same(&rt, unanswered(&rt, alloc, true), (0, 0));
}
