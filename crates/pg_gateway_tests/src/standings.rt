//! How subscribers stand, for which of them something waits, and blocks that are read by another configuration.
use crate::fixtures::{play, played};
use std::test::*;

/// What waits is counted frame by frame and byte by byte, the frame in hand as long as bytes of it are left; another subscriber has its own.
/// A hang-up leaves nothing, and switches off.
const WAITS: &str = "\
addpmu 7
addpmu 8
addsub 1 4
grant 1 7
grant 1 8
define 1 101 0 7 8
define 1 102 0 7
connect 1
hear 7 config-7
addsub 2 4
standing 1 0 > standing 0 0 101 off 1/2 1.1 26 16
command 1 101 5
standing 1 0 > standing 1 74 101 off 1/2 1.1 26 16
command 1 101 2
hear 7 config-7+data-7 > done 1 1
standing 1 0 > standing 2 100 101 on 1/2 1.1 26 16
drain 1 10 > drained 0 =AA32004A006500000000
standing 1 0 > standing 2 90 101 on 1/2 1.1 26 16
drain 1 64 > drained 0 =rest-of-config-101
standing 1 0 > standing 1 26 101 on 1/2 1.1 26 16
standing 1 1 > standing 1 26 102 off 1/1 2.1 26 16
standing 1 2 > standing 1 26
standing 2 0 > standing 0 0
hangup 1
standing 1 0 > standing 0 0 101 off 1/2 1.1 26 16
standing 3 0 > refused 26";

/// A stream is on or off as its commands say, and has those members that are granted and have announced.
const STANDS: &str = "\
connect 1
command 1 101 2
hear 8 config-8
standing 1 0 > standing 0 0 101 on 2/2 1.2 34 26 16
revoke 1 7
standing 1 0 > standing 0 0 101 on 1/2 1.3 24 34 26 16
standing 1 1 > standing 0 0 102 off 0/1 2.2 16 26 16
command 1 101 1
standing 1 0 > standing 0 0 101 off 1/2 1.3 24 34 26 16
remove 1 101
standing 1 0 > standing 0 0 102 off 0/1 2.2 16 26 16";

/// To ask how a subscriber stands changes neither its counters nor its audit: the last entry is that of the removal.
const NO_TRACE: &str = "\
stats 1 > stats 1 0
standing 1 0 > standing 0 0 102 off 0/1 2.2 16 26 16
stats 1 > stats 1 0
audit 1 > audit 5 0";

#[test]
fn standing(rt: HostRuntime) {
    let alloc = rt.alloc();
    let mut gateway = played(&rt, alloc, WAITS);
    play(&rt, alloc, &mut gateway, STANDS);
    play(&rt, alloc, &mut gateway, NO_TRACE);
}

/// A layout is another one where an effective block comes, goes or changes, and not where the same is announced again or CFGCNT alone
/// differs. PMU 7 has 10 bytes in a data frame, PMU 8 has 8, and 16 are around them.
const LAYOUTS: &str = "\
addpmu 7
addpmu 8
addsub 1 4
connect 1
grant 1 7
grant 1 8
define 1 102 0 7 8
hear 7 config-7
hear 8 config-8
command 1 102 2
standing 1 0 > standing 0 0 102 on 2/2 1.2 34 26 16
hear 7 config-7
standing 1 0 > standing 0 0 102 on 2/2 1.2 34 26 16
hear 7 config-7-counted
standing 1 0 > standing 0 0 102 on 2/2 1.2 34 26 16
hear 7 config-7-of-50-hz
standing 1 0 > standing 0 0 102 on 2/2 1.3 34 34 26 16
revoke 1 8
standing 1 0 > standing 0 0 102 on 1/2 1.4 26 34 34 26 16
hangup 1
standing 1 0 > standing 0 0 102 off 1/2 1.4 26 34 34 26 16
remove 1 102
define 1 102 0 7 8
standing 1 0 > standing 0 0 102 off 1/2 2.0 26";

/// The last 32 lengths are kept.
const LAST_LAYOUTS: &str =
    "standing 1 0 > standing 0 0 102 off 1/2 2.40 26 34 26 34 26 34 26 34 26 34 26 34 26 34 26 34 \
26 34 26 34 26 34 26 34 26 34 26 34 26 34 26 34";

#[test]
fn layouts(rt: HostRuntime) {
    let alloc = rt.alloc();
    let mut gateway = played(&rt, alloc, LAYOUTS);
    for _ in 0..20 {
        play(&rt, alloc, &mut gateway, "grant 1 8\nrevoke 1 8");
    }
    play(&rt, alloc, &mut gateway, LAST_LAYOUTS);
}

/// Something waits for a subscriber with a reply or a frame that was not handed out; one that is not there is left out, and so is one that has all.
const WHO_WAITS: &str = "\
addpmu 7
hear 7 config-7
addsub 1 4
grant 1 7
define 1 101 0 7
connect 1
addsub 2 4
waiting 2 1 3 > waiting
command 1 101 2
hear 7 config-7+data-7 > done 1 1
waiting 2 1 3 > waiting 1
waiting 2 3 > waiting
waiting 1 2 1 > waiting 1 1
waiting > waiting
drain 1 400 > drained 0 =data-101
waiting 2 1 3 > waiting
connect 2
define 2 201 0 7
command 2 201 3
command 1 101 3
waiting 2 1 3 > waiting 2 1";

#[test]
fn who_is_waited_for(rt: HostRuntime) {
    played(&rt, rt.alloc(), WHO_WAITS);
}

/// Row registry-and-grants: a block that was read under another configuration, or under none that is announced, is refused.
const OTHER_CONFIGURATIONS: &str = "\
addpmu 7
hear 7 config-7
hear 7 config-7-renamed+data-7 > refused 22
droppmu 7
addpmu 7
hear 7 config-7+data-7 > refused 18";

#[test]
fn other_configurations(rt: HostRuntime) {
    played(&rt, rt.alloc(), OTHER_CONFIGURATIONS);
}
