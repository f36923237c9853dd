//! Looks at a stream of which all data are too late.

use crate::tests::asserts::same;
use pg_subscribers::StreamLook;
use std::test::*;

// So many blocks had come too late at a look; at how many looks in a row all data were, and whether that is for long enough.
#[test]
fn looks_in_a_row(rt: HostRuntime) {
    let mut look = StreamLook::new(101, 30);
    for (late, looks, is_late) in [
        (7, 0, false),
        (12, 1, false),
        (16, 0, false),
        (21, 1, false),
        (26, 2, true),
        (90, 3, true),
        (90, 0, false),
    ] {
        look.look(late);
        same(&rt, look.looks, looks);
        same(&rt, look.is_late(), is_late);
    }
    same(&rt, look.is_of(101, 30), true);
    same(&rt, look.is_of(101, 31), false);
    same(&rt, look.is_of(102, 30), false);
}
