//! What the program says at its end.

use crate::tests::asserts::same;
use pg_admin::{Bound, Signed, not_answered, not_bound, not_reached, not_read, say};
use pg_status::Answered;
use pg_wire::Refusal;
use std::io::ErrorKind;
use std::net::{Ipv4Addr, SocketAddr};
use std::test::*;

/// The refusals by which the program ends, and what it says.
const SAID: [(Refusal, &str, &str); 15] = [
    (
        Refusal::NoMemory,
        "pdcgw: 1 NoMemory\n",
        "out of memory; give this machine more, or let the setup need less",
    ),
    (
        Refusal::PmuExists,
        "pdcgw: 24 PmuExists\n",
        "two tables [[pmu]] have the same source and id; each PMU has one table",
    ),
    (
        Refusal::PmusFull,
        "pdcgw: 25 PmusFull\n",
        "more than 256 PMUs; at most 256 are allowed",
    ),
    (
        Refusal::NoSuchPmu,
        "pdcgw: 23 NoSuchPmu\n",
        "a grant names a PMU that no table [[pmu]] has; add the table, or remove the grant",
    ),
    (
        Refusal::SubExists,
        "pdcgw: 27 SubExists\n",
        "two tables [[subscriber]] have the same id; each subscriber has its own",
    ),
    (
        Refusal::SubsFull,
        "pdcgw: 28 SubsFull\n",
        "more than 64 subscribers; at most 64 are allowed",
    ),
    (
        Refusal::NoSuchSub,
        "pdcgw: 26 NoSuchSub\n",
        "a table belongs to a subscriber that was refused; correct the table of that subscriber",
    ),
    (
        Refusal::GrantsFull,
        "pdcgw: 29 GrantsFull\n",
        "a subscriber has more than 32 grants; at most 32 are allowed",
    ),
    (
        Refusal::StreamExists,
        "pdcgw: 30 StreamExists\n",
        "two streams of a subscriber have the same id; each stream has its own",
    ),
    (
        Refusal::StreamsFull,
        "pdcgw: 31 StreamsFull\n",
        "a subscriber has more than 8 streams; at most 8 are allowed",
    ),
    (
        Refusal::BadDefinition,
        "pdcgw: 32 BadDefinition\n",
        "a value of a stream is outside its range: rate 1 to 120, base from its rate to 16777215, wait 0 to 60000, window 1 to 64, a header \
         of ASCII up to 1024 bytes, and no member twice",
    ),
    (
        Refusal::Busy,
        "pdcgw: 34 Busy\n",
        "8 clients are connected to the control socket, the most possible; try again when one has left",
    ),
    (
        Refusal::BadSetup,
        "pdcgw: 37 BadSetup\n",
        "the setup file has mistakes; `pdcgw check --setup FILE` lists them",
    ),
    (
        Refusal::ReadFault,
        "pdcgw: 39 ReadFault\n",
        "input can't be read; it has to be a file, a pipe or a terminal that is open",
    ),
    (
        Refusal::WriteFault,
        "pdcgw: 40 WriteFault\n",
        "output can't be written; it has to be a file, a pipe or a terminal that takes it",
    ),
];

#[test]
fn refusals_in_words(rt: HostRuntime) {
    let alloc = rt.alloc();
    for (refusal, line, words) in SAID {
        same(&rt, say(refusal), words);
        let told = format!(in alloc; "{}\n", Signed(refusal)).expect(&rt, "memory");
        same(&rt, told.as_str(), line);
    }
    let other = "the gateway refuses this; `pdcgw help` lists what it does";
    same(&rt, say(Refusal::BadCheck), other);
}

#[test]
fn a_start_that_fails(rt: HostRuntime) {
    let alloc = rt.alloc();
    let told = not_read(alloc, "s.toml", "there is no such file").expect(&rt, "memory");
    same(
        &rt,
        told.as_str(),
        "s.toml: can't be read: there is no such file\n",
    );
    let address = Some(SocketAddr::from((Ipv4Addr::LOCALHOST, 4800)));
    for (line, bound, address, wanted) in [
        (
            Some(7),
            Bound::Port(1),
            address,
            "s.toml:7: subscriber 1: port 4800: address in use\n",
        ),
        (
            None,
            Bound::Port(65535),
            address,
            "s.toml: subscriber 65535: port 4800: address in use\n",
        ),
        (
            Some(1),
            Bound::Port(2),
            None,
            "s.toml:1: subscriber 2: address in use\n",
        ),
        (
            Some(3),
            Bound::Status,
            address,
            "s.toml:3: status: 127.0.0.1:4800: address in use\n",
        ),
        (
            None,
            Bound::Status,
            None,
            "s.toml: status: address in use\n",
        ),
        (
            Some(2),
            Bound::Control,
            None,
            "s.toml:2: control: address in use\n",
        ),
        (
            None,
            Bound::Control,
            address,
            "s.toml: control: address in use\n",
        ),
    ] {
        let told = not_bound(alloc, "s.toml", line, bound, address, "address in use");
        same(&rt, told.expect(&rt, "memory").as_str(), wanted);
    }
}

#[test]
fn a_control_socket_that_fails(rt: HostRuntime) {
    let alloc = rt.alloc();
    for (kind, wanted) in [
        (
            ErrorKind::NotFound,
            "/run/c: there is no such file; the path has to be `control` of the running gateway's setup\n",
        ),
        (
            ErrorKind::ConnectionRefused,
            "/run/c: no gateway listens there; start it\n",
        ),
        (
            ErrorKind::PermissionDenied,
            "/run/c: not permitted; only the gateway's user and root may connect\n",
        ),
        (
            ErrorKind::BrokenPipe,
            "/run/c: the answers can't be written to standard output\n",
        ),
        (ErrorKind::TimedOut, "/run/c: timed out\n"),
    ] {
        let told = not_reached(alloc, "/run/c", kind, "timed out").expect(&rt, "memory");
        same(&rt, told.as_str(), wanted);
    }
    let lines = ["addpmu 9", "status"];
    for (answered, wanted) in [
        (Answered::All, ""),
        (
            Answered::Refused,
            "/run/c: a command was refused; its answer has the reason, and docs/OPERATING.md says what that means\n",
        ),
        (
            Answered::Busy,
            "/run/c: 8 clients are connected already, the most possible; try again when one has left\n",
        ),
        (
            Answered::Ended(1),
            "/run/c: the connection ended before `status` was answered; whether it was done is not known\n",
        ),
        (
            Answered::Silent(0),
            "/run/c: `addpmu 9` was not answered within 60 seconds; whether it is done is not known\n",
        ),
    ] {
        let told = not_answered(alloc, "/run/c", &lines, answered).expect(&rt, "memory");
        same(&rt, told.as_str(), wanted);
    }
}
