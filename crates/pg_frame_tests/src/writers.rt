//! What is written of a source's own configuration and of a data frame.

use crate::fixtures::{announced, framed, measured};
use pg_config::write_source;
use pg_data::write_data;
use std::test::*;

/// A CFG-1 of version 1 of three PMUs, each with a CFGCNT of its own, that send one frame in five seconds. A CFG-2 of version 2 is written,
/// with SOC 0 and an unlocked clock.
#[test]
fn source_configuration(rt: HostRuntime) {
    let alloc = rt.alloc();
    let counts = "69=3 359=4 409=5 410=255 411=251";
    let text = format!(in alloc; "three 1=33 {counts}").expect(&rt, "memory");
    let config = announced(&rt, alloc, text.as_str());
    let written = write_source(alloc, &config).expect(&rt, "memory");
    let text = format!(in alloc; "three 9=0 10=15 {counts}").expect(&rt, "memory");
    let wanted = framed(&rt, alloc, text.as_str());
    assert!(rt; written.as_slice() == wanted.as_slice());
}

/// A data frame of version 1 is written as version 2.
#[test]
fn data_frame(rt: HostRuntime) {
    let alloc = rt.alloc();
    let config = announced(&rt, alloc, "three");
    let wanted =
        "aa02002c000900000064a400823500001000200000000000000000000000000100003000400000000000";
    let wanted = framed(&rt, alloc, wanted);
    let old =
        "aa01002c000900000064a400823500001000200000000000000000000000000100003000400000000000";
    let frame = measured(&rt, alloc, &config, &framed(&rt, alloc, old)).expect(&rt, "a frame");
    let written = write_data(alloc, &frame).expect(&rt, "memory");
    assert!(rt; written.as_slice() == wanted.as_slice());
}
