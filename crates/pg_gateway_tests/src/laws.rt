//! Callers of a queue and of a turnstile; and that each call of a turnstile runs once, and a thread that waits is woken.
ghost use Rattle.std.specs.Prelude.{◌≡◌};

use crate::asserts::same;
use pg_laws::{Add, Counter, add_both, call_both, call_twice, three_into_one};
use pg_turn::{Machine, Seat, Turnstile};
use std::sync::Wait;
use std::test::*;
use std::thread::{Threads, join};

#[test]
fn third_stands_alone(rt: HostRuntime) -> Result<(), Fail> {
    let alloc = rt.alloc();
    let first = vec![in alloc; 0xAA]?;
    let second = vec![in alloc; 0xAA, 2]?;
    let third = vec![in alloc; 0xAA, 0, 3]?;
    let queue = three_into_one(alloc, first, second, third).expect(&rt, "memory");
    same(&rt, queue.frames(), 1);
    assert!(rt; matches!(queue.frame_at(0), Some((frame, 2)) if frame == [0xAA, 0, 3].as_slice()));
    same(&rt, queue.pending(), 0);
    Ok(())
}

#[test]
fn two_calls_of_each_kind(rt: HostRuntime) -> Result<(), Fail> {
    let (turns, seat) = Turnstile::new(rt.alloc(), Counter::new())?;
    let (seat, three, seven) = call_twice(&rt, &turns, seat, Add(3), Add(4));
    assert!(rt; three == 3 && seven == 7);
    let (seat, one, two) = call_both(&rt, &turns, seat, Add(1), Add(2));
    assert!(rt; (one == 8 && two == 10) || (one == 10 && two == 9));
    let Some(counter) = turns.close(seat) else {
        panic!(&rt; "the value is at home")
    };
    assert!(rt; counter.total == 10);
    let (one, two) = add_both(&rt, rt.alloc(), Add(20), Add(30))?;
    assert!(rt; (one == 20 && two == 50) || (one == 50 && two == 30));
    Ok(())
}

// One call after another. The result is the seat, and whether the replies rise strictly.
fn add_often<R: Wait>(
    rt: &R,
    turns: &Turnstile<Counter>,
    seat: Seat<Counter>,
    n: u32,
    calls: u32,
) -> (Seat<Counter>, bool)
    requires { seat.table ≡ turns.now }
    ensures { result.0.table ≡ turns.now }
{
    let mut seat = seat;
    let mut last = 0;
    let mut rises = true;
    for _ in 0..calls {
        let (next, total) = turns.call(rt, seat, Add(n));
        rises = rises && total > last;
        seat = next;
        last = total;
    }
    (seat, rises)
}

// Two threads add 1 and 10, each so often. The seat of both, and whether the replies of each rise.
fn add_by_two<R: Threads + Wait + Sync>(
    rt: &R,
    turns: &Turnstile<Counter>,
    seat: Seat<Counter>,
    calls: u32,
) -> (Seat<Counter>, bool)
    requires { seat.table ≡ turns.now }
    ensures { result.0.table ≡ turns.now }
{
    let (first, second) = turns.split(seat);
    let ((first, ones), (second, tens)) = join(
        rt,
        || -> (Seat<Counter>, bool)
            requires { first.table ≡ turns.now }
            ensures { result.0.table ≡ turns.entry.now }
        { add_often(rt, turns, first, 1, calls) },
        || -> (Seat<Counter>, bool)
            requires { second.table ≡ turns.now }
            ensures { result.0.table ≡ turns.entry.now }
        { add_often(rt, turns, second, 10, calls) },
    );
    (turns.join(first, second), ones && tens)
}

// The total shows that each call ran just once: a call that ran another event beside its own, or its own twice, would
// meet the contract of `call`.
#[test]
fn counter_of_two_threads(rt: HostRuntime) -> Result<(), Fail> {
    let (turns, seat) = Turnstile::new(rt.alloc(), Counter::new())?;
    let (seat, rise) = add_by_two(&rt, &turns, seat, 1000);
    let Some(counter) = turns.close(seat) else {
        panic!(&rt; "the value is at home")
    };
    assert!(rt; rise && counter.total == 11_000);
    Ok(())
}

// So many calls that threads do wait for each other: one that was not woken would wait for ever, which no contract rules out.
#[test]
fn who_waits_is_woken(rt: HostRuntime) -> Result<(), Fail> {
    let (turns, seat) = Turnstile::new(rt.alloc(), Counter::new())?;
    let (seat, rise) = add_by_two(&rt, &turns, seat, 100_000);
    assert!(&rt; rise);
    let Some(counter) = turns.close(seat) else {
        panic!(&rt; "the value is at home")
    };
    assert!(rt; counter.total == 1_100_000);
    Ok(())
}

#[test]
fn one_seat_calls_twice(rt: HostRuntime) -> Result<(), Fail> {
    let (turns, seat) = Turnstile::new(rt.alloc(), Counter::new())?;
    let (seat, three) = turns.call(&rt, seat, Add(3));
    let (seat, seven) = turns.call(&rt, seat, Add(4));
    assert!(rt; three == 3 && seven == 7);
    let Some(mut counter) = turns.close(seat) else {
        panic!(&rt; "the value is at home")
    };
    assert!(rt; counter.total == 7 && counter.step(Add(u32::MAX)) == 4_294_967_302);
    counter.total = u64::MAX - 1;
    assert!(rt; counter.step(Add(5)) == u64::MAX && counter.step(Add(0)) == u64::MAX);
    Ok(())
}

// Each call tells how many came before it, also those that did not ask.
#[test]
fn calls_tell_their_places(rt: HostRuntime) -> Result<(), Fail> {
    let (turns, seat) = Turnstile::new(rt.alloc(), Counter::new())?;
    let (seat, three, first) = turns.call_placed(&rt, seat, Add(3));
    let (seat, _) = turns.call(&rt, seat, Add(1));
    let (_seat, eight, third) = turns.call_placed(&rt, seat, Add(4));
    assert!(rt; three == 3 && first == 0 && eight == 8 && third == 2);
    Ok(())
}
