//! What workers have to do after an edit.
use crate::tests::asserts::same;
use crate::tests::frames::{key, source, subscriber};
use pg_gateway::{Edit, Reply};
use pg_service::{Change, Directory, FollowUp};
use pg_wire::{PmuKey, Refusal};
use std::process::Abort;
use std::test::*;

fn is_done() -> Reply {
    Reply::Done { made: 0, kept: 0 }
}

/// PMU 8 of source 7.
fn second(rt: &impl Abort) -> PmuKey {
    PmuKey {
        source: source(rt, 7),
        pmu: source(rt, 8),
    }
}

/// An edit that is refused gives workers nothing to do, and one that is done gives them this.
fn expect_told(rt: &(impl Abort + Eprint), registered: &mut Directory, edit: Edit, told: FollowUp) {
    let refused = Reply::Refused(Refusal::PmuExists);
    let after = registered
        .note(Change::of(&edit), &refused)
        .expect(rt, "room");
    same(rt, after, FollowUp::Nothing);
    let after = registered
        .note(Change::of(&edit), &is_done())
        .expect(rt, "room");
    same(rt, after, told);
}

#[test]
fn edits_tell_workers(rt: HostRuntime) {
    let mut registered = Directory::new(rt.alloc()).expect(&rt, "memory");
    let seven = source(&rt, 7);
    let add = Edit::AddPmu(key(&rt, 7));
    expect_told(&rt, &mut registered, add, FollowUp::Renew(seven));
    let add = Edit::AddPmu(second(&rt));
    expect_told(&rt, &mut registered, add, FollowUp::Renew(seven));
    let add = Edit::AddPmu(key(&rt, 9));
    expect_told(&rt, &mut registered, add, FollowUp::Renew(source(&rt, 9)));
    let drop_first = Edit::DropPmu(key(&rt, 7));
    expect_told(&rt, &mut registered, drop_first, FollowUp::Nothing);
    let drop_second = Edit::DropPmu(second(&rt));
    expect_told(&rt, &mut registered, drop_second, FollowUp::Rest(seven));
    let leave = Edit::DropSub(subscriber(&rt, 20));
    expect_told(
        &rt,
        &mut registered,
        leave,
        FollowUp::HangUp(subscriber(&rt, 20)),
    );
    let grant = Edit::Grant(subscriber(&rt, 1), key(&rt, 7));
    expect_told(&rt, &mut registered, grant, FollowUp::Nothing);
    // A ring of 64 frames for two streams holds 32 frames of each.
    same(&rt, registered.room(), 1_024);
    let sub = subscriber(&rt, 1);
    let done = is_done();
    for (change, room) in [
        (Change::Enters(sub, 64), 64),
        (Change::Defines(sub), 64),
        (Change::Defines(sub), 32),
        (Change::Enters(subscriber(&rt, 2), 40), 32),
        (Change::Removes(sub), 40),
        (Change::Enters(subscriber(&rt, 3), 1), 1),
    ] {
        registered.note(change, &done).expect(&rt, "room");
        same(&rt, registered.room(), room);
    }
    assert!(rt; registered.has(source(&rt, 9)));
    assert!(rt; !registered.has(seven));
}
