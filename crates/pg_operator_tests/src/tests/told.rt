//! Edits and rules as text.

use pg_fakes::edit_line;
use pg_gateway::Edit;
use pg_operator::{PortRules, SourceRules};
use std::alloc::Global;
use std::net::Ipv4Addr;
use std::process::Abort;

/// Hosts that may connect to a port or not.
const HOSTS: &str = "10.0.0.0 10.0.0.1 10.255.255.255 11.0.0.0 192.168.1.7 255.255.255.255";

/// Edits as lines of an operator, with a semicolon behind each.
pub fn edits_told(rt: &impl Abort, alloc: Global, edits: &[Edit]) -> String {
    let mut text = String::new(alloc);
    for edit in edits {
        let line = edit_line(alloc, edit).expect(rt, "memory");
        write!(text, "{line}; ").expect(rt, "memory");
    }
    text
}

/// How a source is watched: silence, guard, and how far it may be ahead; whether its first address is preferred.
pub fn watch_told(rt: &impl Abort, alloc: Global, rules: &SourceRules) -> String {
    let first = if rules.prefer_first {
        " prefer_first"
    } else {
        ""
    };
    format!(in alloc;
        "{} {:?} {}{first}",
        rules.silence, rules.clock_ms, rules.ahead_ms
    )
    .expect(rt, "memory")
}

/// A port as an order: subscriber, number, address, which of the hosts above may connect, takeover, stall, idle and change.
pub fn port_told(rt: &impl Abort, alloc: Global, port: u16, rules: &PortRules) -> String {
    let mut allowed = String::new(alloc);
    for host in HOSTS.split(' ') {
        let host = host.parse::<Ipv4Addr>().ok().expect(rt, "a host");
        let word = if rules.allow.allows(host) { "1" } else { "0" };
        allowed.push_str(word).expect(rt, "memory");
    }
    format!(in alloc;
        "listen {} {port} {} {allowed} {} {} {} {:?}; ",
        rules.sub.get(),
        rules.address,
        rules.takeover,
        rules.stall,
        rules.idle,
        rules.change
    )
    .expect(rt, "memory")
}
