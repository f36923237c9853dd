//! The loop of a link, over readers and writers that fail or block.
use crate::asserts::same;
use crate::fixtures::{halves, key, numbers, octets, streams};
use pg_fakes::FakeGate;
use pg_ingest::{Link, run_link};
use std::alloc::Global;
use std::process::Abort;
use std::test::*;

/// Runs a new link of source 7 by each row: its numbers are those of `streams`, and the turns; its answer is the end, the bytes that were
/// written, and the events that were posted. A configuration and a data frame come, and commands 5 and 2 go out: what is written begins
/// them.
fn run_rows(rt: &impl Abort, alloc: Global, rows: &str) {
    let input = octets(rt, alloc, "config-7+data-7");
    let commands = octets(rt, alloc, "sent-to-7");
    for row in rows.lines() {
        let mut link = Link::new(alloc, key(rt, 7).source).expect(rt, "memory");
        let mut gate = FakeGate {
            alloc,
            calls: Vec::new(alloc),
            chunks: &[],
            drains: 0,
            is_full: false,
        };
        let [_, _, _, _, _, turns, ..] = numbers(row);
        let (mut reader, mut writer) = streams(alloc, row, &input);
        let end = run_link(
            &mut link,
            &mut reader,
            &mut writer,
            &mut gate,
            u64::from(turns),
        );
        assert!(rt; commands.starts_with(&writer.taken) && !gate.is_full);
        let (_, wanted) = halves(row);
        let (written, posted) = (writer.taken.len(), gate.calls.len());
        let came = format!(in alloc; "{end:?} {written} {posted}").expect(rt, "memory");
        same(rt, (row, came.as_str()), (row, wanted));
    }
}

/// The stored run as a whole, with a reader that would block behind it, and with one that has more than the turns can read.
#[test]
fn loops_over_memory(rt: HostRuntime) {
    let rows = "\
link 74 0 7 0 10 > Closed 36 2
link 74 3 7 0 10 blocks > Quiet 36 2
link 1 0 7 0 10 > Fault(39) 18 0";
    run_rows(&rt, rt.alloc(), rows);
}

/// Read or write number k fails or would block, also after a part of a write; and a write takes no byte.
#[test]
fn failing_streams(rt: HostRuntime) {
    let rows = "\
link 74 1 7 0 10 > Fault(39) 18 0
link 74 2 7 0 10 > Fault(39) 36 1
link 74 3 7 0 10 > Fault(39) 36 2
link 74 0 7 1 10 > Fault(40) 0 0
link 74 0 7 1 10 blocks > Stalled 0 0
link 74 0 7 2 10 > Fault(40) 7 0
link 74 0 7 2 10 blocks > Stalled 7 0
link 74 0 7 3 10 > Fault(40) 14 0
link 74 0 7 3 10 blocks > Stalled 14 0
link 74 0 7 4 10 > Fault(40) 18 1
link 74 0 7 4 10 blocks > Stalled 18 1
link 74 0 7 5 10 > Fault(40) 25 1
link 74 0 7 5 10 blocks > Stalled 25 1
link 74 0 7 6 10 > Fault(40) 32 1
link 74 0 7 6 10 blocks > Stalled 32 1
link 74 0 0 0 10 > Fault(40) 0 0";
    run_rows(&rt, rt.alloc(), rows);
}
