//! A gateway that two threads share, and its ticks.
ghost use Rattle.std.specs.Prelude.{◌≡◌};

use crate::fixtures::{play, play_at_seat, shared};
use pg_gateway::{Event, Gate};
use pg_shared::{Named, Seat, Shared, SharedGate};
use std::alloc::Global;
use std::marker::Brand;
use std::process::Abort;
use std::sync::Wait;
use std::test::*;
use std::thread::join;

/// One thread's posts: a subscriber is added, defines a stream twice, connects, sends commands for a stream that it does not have, and asks
/// for its counters. A refused command is counted.
const FIRST: &str = "\
addsub 1 4
define 1 101 0 7
define 1 101 0 7 > refused 30
connect 1
command 1 102 2 > refused 9
stats 1 > stats 0 0 9:1";

/// The other thread's.
const SECOND: &str = "\
addsub 2 4
define 2 101 0 7
define 2 101 0 7 > refused 30
connect 2
command 2 102 2 > refused 9
command 2 102 2 > refused 9
stats 2 > stats 0 0 9:2";

/// What both posted.
const BOTH: &str = "stats 1 > stats 0 0 9:1\nstats 2 > stats 0 0 9:2";

// Rows two-seats and join-and-close: two threads with a seat each. Their seats are joined, and the gateway is where both led it.
#[test]
fn two_seats_join_and_close(rt: HostRuntime) {
    let alloc = rt.alloc();
    let (gateway, seat) = shared(&rt, alloc);
    let (first, second) = gateway.split(seat);
    let (first, second) = join(
        &rt,
        || -> Seat
            requires { first.table ≡ gateway }
            ensures { result.table ≡ gateway }
        { play_at_seat(&rt, alloc, &gateway, first, FIRST) },
        || -> Seat
            requires { second.table ≡ gateway }
            ensures { result.table ≡ gateway }
        { play_at_seat(&rt, alloc, &gateway, second, SECOND) },
    );
    let seat = gateway.join(first, second);
    let mut machine = gateway.close(seat).expect(&rt, "the gateway is at home");
    play(&rt, alloc, &mut machine, BOTH);
}

/// A stream that waits for three ticks: PMU 7's block waits for PMU 8's. Nothing leaves at the first two ticks, and the one frame at the
/// third. It carries the SOC of its block; a CFG-2 carries the last tick's.
const TICKS: &str = "\
addpmu 7
addpmu 8
addsub 1 4
grant 1 7
grant 1 8
define 1 102 3 7 8
connect 1
hear 7 config-7
hear 8 config-8
command 1 102 2
hear 7 config-7+data-7
tick 100 > done 0 0
drain 1 100 > drained 0 =nothing
tick 101 > done 0 0
drain 1 100 > drained 0 =nothing
tick 102 > done 1 1
drain 1 100 > drained 0 =data-102
tick 102 > done 0 0
drain 1 100 > drained 0 =nothing
command 1 102 5
drain 1 14 > drained 0 =AA32016C0066000000660F000000";

#[test]
fn ticks_at_a_seat(rt: HostRuntime) {
    let alloc = rt.alloc();
    let (gateway, seat) = shared(&rt, alloc);
    let _seat = play_at_seat(&rt, alloc, &gateway, seat, TICKS);
}

/// The same at a gate.
fn ticks_by<R: Abort + Wait, N: Named>(rt: &R, alloc: Global, gateway: &Shared, seat: Seat)
    requires shared { gateway.now ≡ N.table }
    requires seat { seat.table ≡ N.table }
{
    let mut gate = SharedGate::<R, N>::new(rt, gateway, seat);
    play(rt, alloc, &mut gate, TICKS);
}

#[test]
fn ticks_at_a_gate(rt: HostRuntime) {
    let alloc = rt.alloc();
    let (gateway, seat) = shared(&rt, alloc);
    ticks_by::<_, Brand>(&rt, alloc, &gateway, seat);
}

/// Posts at two gates in turn. Each gate reports the places of its own posts among all.
fn places_by<R: Abort + Wait, N: Named>(rt: &R, gateway: &Shared, seat: Seat)
    requires shared { gateway.now ≡ N.table }
    requires seat { seat.table ≡ N.table }
{
    let (first, second) = gateway.split(seat);
    let mut first = SharedGate::<R, N>::new(rt, gateway, first);
    let mut second = SharedGate::<R, N>::new(rt, gateway, second);
    let (_, at_first) = first.post_placed(Event::Tick(1));
    let (_, at_second) = second.post_placed(Event::Tick(2));
    let (_, at_third) = first.post_placed(Event::Tick(3));
    assert!(rt; at_first == 0 && at_second == 1 && at_third == 2);
}

#[test]
fn gates_tell_places(rt: HostRuntime) {
    let alloc = rt.alloc();
    let (gateway, seat) = shared(&rt, alloc);
    places_by::<_, Brand>(&rt, &gateway, seat);
}
