//! The loop of a session, over readers and writers that fail or block, at a gateway and at a seat.
use crate::asserts::same;
use crate::fixtures::{
    halves, key, numbers, octets, play, play_at_seat, played, shared, streams, subscriber,
};
use pg_gateway::Gate;
use pg_ingest::{End, Link, run_link};
use pg_session::Session;
use pg_shared::{SeatGate, serve_session};
use std::alloc::Global;
use std::process::Abort;
use std::test::*;

/// PMU 7, and subscriber 1 of it, which is connected.
const ONE: &str = "\
addpmu 7
addsub 1 4
grant 1 7
define 1 101 0 7
connect 1
hear 7 config-7";

/// The same, and a reply waits.
const ASKED: &str = "\
addpmu 7
addsub 1 4
grant 1 7
define 1 101 0 7
connect 1
hear 7 config-7
command 1 101 5";

/// A subscriber that is connected has been handed all; one that was hung up is not connected, and begins with an empty queue.
const CONNECTED: &str = "command 1 101 1\ndrain 1 200 > drained 0 =nothing";

const HUNG_UP: &str = "command 1 101 1 > refused 33\nconnect 1\ndrain 1 200 > drained 0 =nothing";

/// Serves a new session of subscriber 1 by each row, at a new gateway of this set-up: its first word is what comes, its numbers are those
/// of `streams`, and the turns; its answer is the end, the bytes that were written, the reads, and the bytes that are left to read. Behind
/// a write that would block the next call goes on. A call that ends as Closed or as a fault hangs up.
fn serve_rows(rt: &impl Abort, alloc: Global, set_up: &str, rows: &str) {
    let handed = octets(rt, alloc, "config-101");
    for row in rows.lines() {
        let mut gate = played(rt, alloc, set_up);
        let mut session = Session::new(alloc, subscriber(rt, 1)).expect(rt, "memory");
        let (input, _) = row.split_once(' ').unwrap_or((row, ""));
        let input = octets(rt, alloc, input);
        let [_, _, _, _, _, turns, ..] = numbers(row);
        let turns = u64::from(turns);
        let (mut reader, mut writer) = streams(alloc, row, &input);
        let mut end = serve_session(&mut session, &mut reader, &mut writer, &mut gate, turns);
        let (written, reads, left) = (writer.taken.len(), reader.calls, reader.left.len());
        let came = format!(in alloc; "{end:?} {written} {reads} {left}").expect(rt, "memory");
        let (_, wanted) = halves(row);
        same(rt, (row, came.as_str()), (row, wanted));
        if end == End::Stalled {
            end = serve_session(&mut session, &mut reader, &mut writer, &mut gate, turns);
            same(rt, (end, writer.taken.len()), (End::Closed, 74));
        }
        assert!(rt; handed.starts_with(&writer.taken));
        let next = if end == End::Quiet {
            CONNECTED
        } else {
            HUNG_UP
        };
        play(rt, alloc, &mut gate, next);
    }
}

/// Read or write number k fails or blocks. Ten turns do not reach the end of what comes byte by byte.
#[test]
fn failing_streams(rt: HostRuntime) {
    let rows = "\
command-5+command-2 18 0 50 0 10 > Closed 74 3 0
command-5+command-2 18 3 50 0 10 blocks > Quiet 74 3 0
command-5+command-2 18 1 50 0 10 > Fault(39) 0 1 36
command-5+command-2 18 2 50 0 10 > Fault(39) 74 2 18
command-5+command-2 18 3 50 0 10 > Fault(39) 74 3 0
command-5+command-2 18 0 50 1 10 > Fault(40) 0 1 18
command-5+command-2 18 0 50 2 10 > Fault(40) 50 1 18
command-5+command-2 18 0 50 1 10 blocks > Stalled 0 1 18
command-5+command-2 18 0 50 2 10 blocks > Stalled 50 1 18
command-5+command-2 1 0 50 0 10 > Fault(39) 0 10 26";
    serve_rows(&rt, rt.alloc(), ONE, rows);
}

/// A call makes as many reads as it has turns, each of at most 4,096 bytes, where the reader always has more: here 10,000 bytes of a frame
/// that is never whole.
#[test]
fn reads_of_a_call(rt: HostRuntime) {
    let rows = "\
never-whole 65535 0 50 0 0 > Fault(39) 0 0 10000
never-whole 65535 0 50 0 1 > Fault(39) 0 1 5904
never-whole 65535 0 50 0 2 > Fault(39) 0 2 1808
never-whole 1 0 50 0 7 > Fault(39) 0 7 9993";
    serve_rows(&rt, rt.alloc(), ONE, rows);
}

/// A reply waits. It is handed out where the reader would block, and not where the reader has ended or failed or the bytes break.
#[test]
fn no_drain_at_an_end(rt: HostRuntime) {
    let rows = "\
nothing 4096 1 50 0 10 blocks > Quiet 74 1 0
nothing 4096 0 50 0 10 > Closed 0 1 0
nothing 4096 1 50 0 10 > Fault(39) 0 1 0
AB 4096 0 50 0 10 > Fault(2) 0 1 0
AAC2 4096 0 50 0 10 > Fault(3) 0 1 0
AA42000F 4096 0 50 0 10 > Fault(4) 0 1 0";
    serve_rows(&rt, rt.alloc(), ASKED, rows);
}

/// The source's bytes come over its link, which is quiet behind them.
fn hear(rt: &impl Abort, alloc: Global, gate: &mut impl Gate, link: &mut Link, frames: &str) {
    let bytes = octets(rt, alloc, frames);
    let (mut reader, mut writer) = streams(alloc, "link 4096 2 50 0 blocks", &bytes);
    let end = run_link(link, &mut reader, &mut writer, gate, 10);
    same(rt, end, End::Quiet);
}

/// The stored run at a gate that holds a seat: the commands come, then the source's frame, and then nothing any more.
#[test]
fn stored_run_at_a_seat(rt: HostRuntime) {
    let alloc = rt.alloc();
    let (gateway, seat) = shared(&rt, alloc);
    let mut gate = SeatGate::new(&rt, &gateway, seat);
    play(&rt, alloc, &mut gate, ONE);
    let mut link = Link::new(alloc, key(&rt, 7).source).expect(&rt, "memory");
    hear(&rt, alloc, &mut gate, &mut link, "config-7");
    let mut session = Session::new(alloc, subscriber(&rt, 1)).expect(&rt, "memory");
    let mut written = Vec::new(alloc);
    for (frames, row, end) in [
        (
            "command-5+command-2",
            "session 4096 2 50 0 blocks",
            End::Quiet,
        ),
        ("nothing", "session 4096 1 50 0 blocks", End::Quiet),
        ("nothing", "session 4096 0 50 0", End::Closed),
    ] {
        let input = octets(&rt, alloc, frames);
        let (mut reader, _) = streams(alloc, row, &input);
        let came = serve_session(&mut session, &mut reader, &mut written, &mut gate, 10);
        same(&rt, came, end);
        hear(&rt, alloc, &mut gate, &mut link, "data-7");
    }
    same(&rt, written, octets(&rt, alloc, "config-101+data-101"));
    // It was hung up, and its seat goes on at the gateway.
    let _seat = play_at_seat(&rt, alloc, gate.gateway(), gate.into_seat(), "connect 1");
}
