//! What a caller of a turnstile can conclude from its public clauses alone: of two calls, of two threads and of one seat.

ghost use Rattle.std.specs.Prelude.{◌≡◌, IfOk};
ghost use Rattle.pg_turn.specs.Turns.{Called};
ghost use Rattle.pg_laws.specs.TwoCalls.{BothStand, InOrder, CountsBoth, CountsOwn};

use crate::counter::{Add, Counter};
use pg_turn::{Machine, Seat, Turnstile};
use std::alloc::{AllocError, Global};
use std::sync::Wait;
use std::thread::{Threads, join};

/// Two threads, with the seats of one split, make a call each; then their seats are joined. Whatever the machine, both
/// calls stand in one legal history, at two different places. The replies are given in the order of the events.
pub fn call_both<M: Machine + Send, R: Threads + Wait + Sync>(
    rt: &R,
    turns: &Turnstile<M>,
    seat: Seat<M>,
    first: M::Event,
    second: M::Event,
) -> (Seat<M>, M::Reply, M::Reply)
where
    M::Event: Send + Drop,
    M::Reply: Send,
    requires table { seat.table ≡ turns.now }
    ensures seat { result.0.table ≡ turns.now }
    ensures both { BothStand M.may first result.1 second result.2 result.0.seen }
{
    let (one, two) = turns.split(seat);
    let ((one, x), (two, y)) = join(
        rt,
        || -> (Seat<M>, M::Reply)
            requires { one.table ≡ turns.now }
            ensures table { result.0.table ≡ turns.entry.now }
            ensures call { Called M.may one first result.1 result.0 }
        { turns.call(rt, one, first) },
        || -> (Seat<M>, M::Reply)
            requires { two.table ≡ turns.now }
            ensures table { result.0.table ≡ turns.entry.now }
            ensures call { Called M.may two second result.1 result.0 }
        { turns.call(rt, two, second) },
    );
    (turns.join(one, two), x, y)
}

/// One seat makes two calls. Both stand in one legal history, the first before the second, and their places are the two
/// that the seat has got.
pub fn call_twice<M: Machine, R: Wait>(
    rt: &R,
    turns: &Turnstile<M>,
    seat: Seat<M>,
    first: M::Event,
    second: M::Event,
) -> (Seat<M>, M::Reply, M::Reply)
    requires table { seat.table ≡ turns.now }
    ensures seat { result.0.table ≡ turns.now }
    ensures order { InOrder M.may seat first result.1 second result.2 result.0 }
{
    let (middle, x) = turns.call(rt, seat, first);
    let (last, y) = turns.call(rt, middle, second);
    (last, x, y)
}

/// Two threads add to one new counter. The totals are those of `first` and `second`: each counts its own number, and one of
/// them counts both. The error is that there was no memory.
pub fn add_both<R: Threads + Wait + Sync>(
    rt: &R,
    alloc: Global,
    first: Add,
    second: Add,
) -> Result<(u64, u64), AllocError>
    ensures counts_own { IfOk result (λ totals. CountsOwn first.0 second.0 totals.0 totals.1) }
    ensures counts_both { IfOk result (λ totals. CountsBoth first.0 second.0 totals.0 totals.1) }
{
    let (turns, seat) = Turnstile::new(alloc, Counter::new())?;
    let (_, one, two) = call_both(rt, &turns, seat, first, second);
    Ok((one, two))
}
