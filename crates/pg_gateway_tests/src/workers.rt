//! Workers run at once, and each makes its turns.
use crate::asserts::same;
use crate::fixtures::numbers;
use pg_shared::{Work, run_workers};
use std::rt::Clock;
use std::sync::atomic::{AtomicBool, Ordering};
use std::test::*;
use std::thread;
use std::time::Duration;

/// Waits at each turn until the other worker has come, and counts it. The last of its turns answers false.
#[derive(Drop)]
struct Meets<'a, R: Clock> {
    rt: &'a R,
    mine: &'a AtomicBool,
    other: &'a AtomicBool,
    made: u64,
    last: u64,
}

impl<R: Clock> Work for Meets<'_, R> {
    fn turn(&mut self) -> bool {
        self.mine.store(true, Ordering::SeqCst);
        for _ in 0..10_000u32 {
            if self.other.load(Ordering::SeqCst) {
                self.made = self.made.saturating_add(1);
                return self.made < self.last;
            }
            thread::sleep(self.rt, Duration::from_millis(1));
        }
        false
    }
}

/// Two workers, which meet at their first turns: of so many turns at most, of which each has a last one, where `stop` is set before (1) or
/// not. Each comes back in its place, after so many turns.
const ROWS: &str = "\
3 99 99 0 > 3 3
0 99 99 0 > 0 0
10 2 5 0 > 2 5
3 99 2 0 > 3 2
1 2 1 0 > 1 1
3 99 99 1 > 0 0";

#[test]
fn workers_run_at_once(rt: HostRuntime) {
    let alloc = rt.alloc();
    for row in ROWS.lines() {
        let [turns, first, second, stops, _, one, other, ..] = numbers(row);
        let stop = AtomicBool::new(stops == 1);
        let (here, there) = (AtomicBool::new(false), AtomicBool::new(false));
        let mut workers = Vec::new(alloc);
        for (mine, other, last) in [(&here, &there, first), (&there, &here, second)] {
            let worker = Meets {
                rt: &rt,
                mine,
                other,
                made: 0,
                last: u64::from(last),
            };
            workers.push(worker).expect(&rt, "memory");
        }
        let back = run_workers(&rt, alloc, workers, u64::from(turns), &stop).expect(&rt, "threads");
        same(&rt, back.len(), 2);
        let made = [back[0].made, back[1].made];
        same(&rt, made, [u64::from(one), u64::from(other)]);
    }
}

#[test]
fn no_workers(rt: HostRuntime) {
    let stop = AtomicBool::new(false);
    let workers: Vec<Meets<'_, HostRuntime>> = Vec::new(rt.alloc());
    let back = run_workers(&rt, rt.alloc(), workers, 3, &stop).expect(&rt, "threads");
    assert!(rt; back.is_empty());
}
