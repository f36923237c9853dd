//! Grants, the registered PMUs, and the audit.

use crate::asserts::same;
use crate::fixtures::key;
use pg_audit::{Audit, Entry, What};
use pg_entitle::Grants;
use pg_registry::Registry;
use pg_wire::Refusal;
use std::test::*;

/// Row limits-and-refusals; and grants by source, then PMU.
#[test]
fn limits_and_refusals(rt: HostRuntime) {
    let mut grants = Grants::new(rt.alloc()).expect(&rt, "memory");
    for pmu in 1..33u16 {
        same(&rt, grants.grant(key(&rt, 7, pmu)), Ok(()));
    }
    for (is_grant, source, pmu, answer) in [
        (true, 1, 65534, Err(Refusal::GrantsFull)),
        (false, 1, 65534, Err(Refusal::NotGranted)),
        (true, 7, 7, Ok(())),
        (false, 7, 7, Ok(())),
        (true, 1, 65534, Ok(())),
    ] {
        let key = key(&rt, source, pmu);
        let came = if is_grant {
            grants.grant(key)
        } else {
            grants.revoke(key)
        };
        same(&rt, came, answer);
    }
    let first = key(&rt, 1, 65534);
    same(&rt, grants.sorted().first(), Some(&first));
}

/// PMUs in order of registration.
#[test]
fn registered(rt: HostRuntime) {
    let mut registry = Registry::new(rt.alloc()).expect(&rt, "memory");
    for source in [9, 3, 1u16] {
        registry.add(key(&rt, source, 7)).expect(&rt, "room");
    }
    registry.drop_pmu(key(&rt, 9, 7)).expect(&rt, "a PMU");
    let left = [key(&rt, 3, 7), key(&rt, 1, 7)];
    same(&rt, registry.list(), left.as_slice());
}

#[test]
fn newest_sixty_four(rt: HostRuntime) {
    let mut audit = Audit::new(rt.alloc()).expect(&rt, "memory");
    for _ in 0..71u8 {
        audit.note(What::Command, Some(Refusal::ReplyFull));
    }
    let entry = Entry {
        turn: 8,
        what: What::Command,
        code: Some(Refusal::ReplyFull),
    };
    same(&rt, audit.last(63), Some(entry));
    same(&rt, audit.last(64), None);
}
