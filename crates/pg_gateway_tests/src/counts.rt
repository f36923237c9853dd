//! How many frames of a stream left for which cause, and which members were missing or late.
use crate::fixtures::{play, played};
use std::test::*;

/// Stream 101 waits for nothing, stream 102 for two ticks; both have the PMUs 7 and 8, and a window of four slots.
const OPENING: &str = "\
addpmu 7
addpmu 8
addsub 1 4
grant 1 7
grant 1 8
define 1 101 0 7 8
define 1 102 2 7 8
connect 1
counts 1 0 0 > counts 0 0 0 0 7 granted 0 0
hear 7 config-7
hear 8 config-8
counts 1 0 0 > counts 0 0 0 0 7 carried 0 0
counts 1 0 2 > counts 2 none";

/// A frame leaves at once with a filler for PMU 8, whose block then is late. An off-period keeps the counts.
const LATE: &str = "\
command 1 101 2
hear 7 config-7+data-7 > done 1 1
counts 1 0 0 > counts 0 1 0 0 7 carried 0 0
counts 1 0 1 > counts 0 1 0 0 8 carried 1 0
hear 8 config-8+data-8
counts 1 0 0 > counts 0 1 0 0 7 carried 0 0
counts 1 0 1 > counts 0 1 0 0 8 carried 1 1
command 1 101 1
counts 1 0 1 > counts 0 1 0 0 8 carried 1 1
counts 1 1 1 > counts 0 0 0 0 8 carried 0 0";

/// One frame complete, one by its wait, one pushed out by the fifth open slot, and the four others before PMU 8 is revoked.
const CAUSES: &str = "\
command 1 102 2
hear 7 config-7+data-7
hear 8 config-8+data-8 > done 1 1
counts 1 1 1 > counts 1 0 0 0 8 carried 0 0
hear 7 config-7+later-7
tick 100
tick 101 > done 1 1
counts 1 1 1 > counts 1 1 0 0 8 carried 1 0
hear 7 config-7+AA02 001A 0007 00000064 000186A0 0000 10002000 0000 0000 CHK
hear 7 config-7+AA02 001A 0007 00000064 000208D5 0000 10002000 0000 0000 CHK
hear 7 config-7+AA02 001A 0007 00000064 00028B0B 0000 10002000 0000 0000 CHK
hear 7 config-7+AA02 001A 0007 00000064 00030D40 0000 10002000 0000 0000 CHK
counts 1 1 1 > counts 1 1 0 0 8 carried 1 0
hear 7 config-7+AA02 001A 0007 00000064 00038F75 0000 10002000 0000 0000 CHK > done 1 1
counts 1 1 1 > counts 1 1 1 0 8 carried 2 0
revoke 1 8 > done 4 4
counts 1 1 0 > counts 1 1 1 4 7 carried 0 0
counts 1 1 1 > counts 1 1 1 4 8 neither 6 0";

/// PMU 8 is no member of the frames any more, and so they have no filler for it. A hang-up keeps the counts; a stream that is defined anew begins with none.
const AFTER: &str = "\
hear 7 config-7+AA02 001A 0007 00000064 0003D090 0000 10002000 0000 0000 CHK > done 1 1
counts 1 1 1 > counts 2 1 1 4 8 neither 6 0
hangup 1
counts 1 1 1 > counts 2 1 1 4 8 neither 6 0
remove 1 102
define 1 102 2 7 8
counts 1 1 1 > counts 0 0 0 0 8 neither 0 0
counts 1 0 1 > counts 0 1 0 0 8 neither 1 1";

#[test]
fn causes_and_members(rt: HostRuntime) {
    let alloc = rt.alloc();
    let mut gateway = played(&rt, alloc, OPENING);
    play(&rt, alloc, &mut gateway, LATE);
    play(&rt, alloc, &mut gateway, CAUSES);
    play(&rt, alloc, &mut gateway, AFTER);
}

/// A stream of one member, whose frames leave at once: a block for a slot that has left is late.
const ALONE: &str = "\
addpmu 7
addsub 1 4
grant 1 7
define 1 101 0 7
connect 1
hear 7 config-7
command 1 101 2
hear 7 config-7+later-7 > done 1 1
hear 7 config-7+data-7
hear 7 config-7+later-7
counts 1 0 0 > counts 1 0 0 0 7 carried 0 2";

#[test]
fn a_member_alone(rt: HostRuntime) {
    let alloc = rt.alloc();
    played(&rt, alloc, ALONE);
}
