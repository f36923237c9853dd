//! The addresses of a source, and what names add to them.
use crate::tests::asserts::same;
use pg_service::{Address, Targets};
use std::alloc::Global;
use std::net::SocketAddr;
use std::process::Abort;
use std::test::*;

/// This port of a host.
fn at(port: u16) -> SocketAddr {
    SocketAddr::from(([10, 0, 0, 1], port))
}

/// A name between two addresses.
fn three(rt: &impl Abort, alloc: Global) -> Targets {
    let mut list = Vec::new(alloc);
    let name = String::from_str(alloc, "b.example:2").expect(rt, "memory");
    list.push(Address::Known(at(1))).expect(rt, "memory");
    list.push(Address::Name(name)).expect(rt, "memory");
    list.push(Address::Known(at(3))).expect(rt, "memory");
    Targets::new(alloc, list).expect(rt, "memory")
}

/// The ports of all addresses in their order, 0 where one is not known.
fn ports(rt: &impl Abort, alloc: Global, targets: &Targets) -> String {
    let mut text = String::new(alloc);
    for place in 0..targets.count() {
        let port = targets.address(place).map(|it| it.port()).unwrap_or(0);
        let word = format!(in alloc; "{port} ").expect(rt, "memory");
        text.push_str(word.as_str()).expect(rt, "memory");
    }
    text
}

/// These ports of the host.
fn found(rt: &impl Abort, alloc: Global, ports: &[u16]) -> Vec<SocketAddr> {
    let mut list = Vec::new(alloc);
    for port in ports {
        list.push(at(*port)).expect(rt, "memory");
    }
    list
}

/// A name that was not found counts as one address; the addresses that were found stand in its place, and stay where a later look-up finds none.
/// The address that is called keeps its place behind them.
#[test]
fn names_in_their_place(rt: HostRuntime) {
    let alloc = rt.alloc();
    let mut targets = three(&rt, alloc);
    same(&rt, ports(&rt, alloc, &targets).as_str(), "1 0 3 ");
    same(&rt, targets.found(1, found(&rt, alloc, &[21, 22]), 2), 3);
    same(&rt, ports(&rt, alloc, &targets).as_str(), "1 21 22 3 ");
    assert!(rt; targets.place(2) == Some((1, 1)) && targets.place(3) == Some((2, 0)));
    assert!(rt; targets.place(4).is_none() && targets.address(4).is_none());
    same(&rt, targets.found(1, Vec::new(alloc), 2), 2);
    same(&rt, ports(&rt, alloc, &targets).as_str(), "1 21 22 3 ");
    // Of the name's own addresses the second is gone: the first is called.
    same(&rt, targets.found(1, found(&rt, alloc, &[23]), 2), 1);
    same(&rt, ports(&rt, alloc, &targets).as_str(), "1 23 3 ");
    same(
        &rt,
        targets.found(1, found(&rt, alloc, &[24, 25, 26]), 0),
        0,
    );
    same(&rt, targets.found(1, found(&rt, alloc, &[27]), 4), 2);
    assert!(rt; !targets.is_empty());
    targets.clear();
    assert!(rt; targets.is_empty() && targets.count() == 0 && targets.place(0).is_none());
}
