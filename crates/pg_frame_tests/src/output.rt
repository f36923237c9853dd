//! Data frames and configurations of a stream.

use crate::asserts::same;
use crate::fixtures::{announced, defined, framed, key, measured};
use pg_config::SourceConfig;
use pg_data::SharedBlock;
use pg_outcfg::*;
use pg_wire::StreamId;
use std::alloc::Global;
use std::process::Abort;
use std::sync::Arc;
use std::test::*;

/// The list of all PMUs of source 9.
fn listed(rt: &impl Abort, alloc: Global, config: &SourceConfig) -> ConfigList {
    let mut list = ConfigList::new(alloc).expect(rt, "memory");
    for part in &config.parts {
        assert!(rt; list.len() < 32);
        let config = Arc::try_clone(part).expect(rt, "memory");
        list.put(key(rt, 9, part.id()), config);
    }
    list
}

/// The first part of row count-wrap-and-empty-config.
#[test]
fn count_wraps(rt: HostRuntime) {
    let mut out = OutCfg::new();
    for _ in 0..65_535 {
        out.changed();
    }
    same(&rt, out.count(), 65_535);
    out.changed();
    same(&rt, out.count(), 0);
}

#[test]
fn prefix_of_a_head(rt: HostRuntime) {
    let stream = StreamId::new(101).expect(&rt, "a stream");
    same(&rt, HeadPrefix::of(stream, 36).size(), 36);
}

/// One frame of slot 3001 brought the blocks of both members, which are not in its own order. Bit 7 of its quality is not shown.
#[test]
fn all_of_one_frame(rt: HostRuntime) {
    let alloc = rt.alloc();
    let config = announced(&rt, alloc, "three");
    let list = listed(&rt, alloc, &config);
    let members = [key(&rt, 9, 11), key(&rt, 9, 7)];
    let definition = defined(&rt, alloc, 101, 0, 4, &members);
    same(&rt, definition.members.as_slice().len(), 2);
    let frame = framed(
        &rt,
        alloc,
        "aa02002c000900000064a400823500001000200000000000000000000000000100003000400000000000",
    );
    let frame = measured(&rt, alloc, &config, &frame).expect(&rt, "a frame");
    same(&rt, frame.count(), 3);
    let eleven = SharedBlock::new(Arc::try_clone(&frame).expect(&rt, "memory"), 2);
    let seven = SharedBlock::new(frame, 0);
    let came = data_frame(
        alloc,
        &definition,
        3001,
        &list,
        &[Some(eleven), Some(seven)],
    );
    let wanted = framed(
        &rt,
        alloc,
        "aa020024006500000064240082350000300040000000000000001000200000000000",
    );
    same(&rt, came.expect(&rt, "memory"), wanted);
}

/// Whatever place is guessed: 7 stands first, 8 behind it.
#[test]
fn guessed_places(rt: HostRuntime) {
    let config = announced(&rt, rt.alloc(), "three");
    let mut list = listed(&rt, rt.alloc(), &config);
    let (seven, eight) = (key(&rt, 9, 7), key(&rt, 9, 8));
    for guess in [0, 1, 2, usize::MAX] {
        let mut next = guess;
        assert!(rt; list.get_next(&seven, &mut next).is_some());
        same(&rt, next, 1);
        assert!(rt; list.get_next(&eight, &mut next).is_some());
        same(&rt, next, 2);
    }
    list.clear();
    same(&rt, list.len(), 0);
}
