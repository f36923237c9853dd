//! What a subscriber's socket is given, and what a source's socket gives, over several calls, in two services and in two threads.
ghost use Rattle.std.specs.Prelude.{◌≡◌};

use crate::asserts::same;
use crate::fixtures::{key, octets, play, shared, streams, subscriber};
use pg_fakes::{FakeReader, FakeWriter};
use pg_laws::{Connection, Served, compare_services, link_calls, serve_both};
use pg_shared::{Named, Seat, Shared, SharedGate};
use std::alloc::Global;
use std::marker::Brand;
use std::process::Abort;
use std::sync::Wait;
use std::test::*;
use std::thread::Threads;

/// PMU 7 and two subscribers of it.
const TWO: &str = "\
addpmu 7
addsub 1 4
grant 1 7
define 1 101 0 7
addsub 2 4
grant 2 7
define 2 101 0 7";

/// The PMU's configuration comes over its link, in several calls: the third read and the first write block.
fn set_up<R: Abort + Wait, N: Named>(rt: &R, alloc: Global, gate: &mut SharedGate<'_, R, N>) {
    play(rt, alloc, gate, TWO);
    let bytes = octets(rt, alloc, "config-7");
    let (mut input, mut out) = streams(alloc, "link 20 3 50 1 blocks", &bytes);
    let source = key(rt, 7).source;
    let link = link_calls(alloc, source, &mut input, &mut out, gate, 9, 10).expect(rt, "memory");
    same(rt, (link.stats().taken, input.left.len()), (1, 0));
}

/// The commands come in two pieces, between which the reader would block.
fn connection(alloc: Global, commands: &[u8]) -> Connection<FakeReader<'_>, FakeWriter> {
    let (reader, writer) = streams(alloc, "session 18 2 50 0 blocks", commands);
    Connection { reader, writer }
}

/// Two services in which subscriber 1 sees the same: in the other one, subscriber 2 connects.
fn compare<R: Abort + Wait, N: Named, M: Named>(
    rt: &R,
    alloc: Global,
    gateway: &Shared,
    seat: Seat,
    other_gateway: &Shared,
    other_seat: Seat,
)
    requires shared { gateway.now ≡ N.table }
    requires seat { seat.table ≡ N.table }
    requires other_shared { other_gateway.now ≡ M.table }
    requires other_seat { other_seat.table ≡ M.table }
{
    let mut gate = SharedGate::<R, N>::new(rt, gateway, seat);
    let mut other_gate = SharedGate::<R, M>::new(rt, other_gateway, other_seat);
    set_up(rt, alloc, &mut gate);
    set_up(rt, alloc, &mut other_gate);
    play(rt, alloc, &mut other_gate, "connect 2");
    let commands = octets(rt, alloc, "command-5+command-2");
    let mut one = connection(alloc, &commands);
    let mut other = connection(alloc, &commands);
    let both = compare_services(
        alloc,
        subscriber(rt, 1),
        &mut one,
        &mut gate,
        &mut other,
        &mut other_gate,
        (3, 4),
        10,
    );
    assert!(rt; both.is_ok() && one.writer.taken == other.writer.taken);
    same(rt, one.writer.taken, octets(rt, alloc, "config-101"));
}

#[test]
fn two_services(rt: HostRuntime) {
    let alloc = rt.alloc();
    let (gateway, seat) = shared(&rt, alloc);
    let (other, other_seat) = shared(&rt, alloc);
    compare::<_, Brand, Brand>(&rt, alloc, &gateway, seat, &other, other_seat);
}

/// The configuration that was asked for was handed out.
fn is_served(served: &Served<FakeReader<'_>, FakeWriter>, handed: &[u8]) -> bool {
    served.session.is_ok() && served.connection.writer.taken.as_slice() == handed
}

/// Two threads serve a subscriber each.
fn serve_two<R: Abort + Wait + Threads + Sync, N: Named + Send>(
    rt: &R,
    alloc: Global,
    gateway: &Shared,
    seat: Seat,
)
    requires shared { gateway.now ≡ N.table }
    requires seat { seat.table ≡ N.table }
{
    let mut gate = SharedGate::<R, N>::new(rt, gateway, seat);
    set_up(rt, alloc, &mut gate);
    let commands = octets(rt, alloc, "command-5+command-2");
    let (_seat, one, other) = serve_both::<_, _, R, N>(
        rt,
        alloc,
        gateway,
        gate.into_seat(),
        subscriber(rt, 1),
        connection(alloc, &commands),
        subscriber(rt, 2),
        connection(alloc, &commands),
        (3, 4),
        10,
    );
    let handed = octets(rt, alloc, "config-101");
    assert!(rt; is_served(&one, &handed) && is_served(&other, &handed));
}

#[test]
fn two_threads(rt: HostRuntime) {
    let alloc = rt.alloc();
    let (gateway, seat) = shared(&rt, alloc);
    serve_two::<_, Brand>(&rt, alloc, &gateway, seat);
}
