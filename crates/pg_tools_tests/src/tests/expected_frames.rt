//! What came at a subscriber, compared with what was sent: all right, and each thing that can be wrong.

use crate::tests::asserts::same;
use pg_tools::{ExpectedFrame, ExpectedFrames, Stamp};
use std::test::*;

/// The blocks of two PMUs as they are sent, each with STAT 0, FREQ and DFREQ.
const BLOCKS: [u8; 12] = [0, 0, 0, 5, 0, 1, 0, 0, 0, 6, 0, 2];

/// Frames that are sent, each as the number of its slot, and frames that come, each with its blocks. Behind ` => `: what is said of each that comes, and
/// at the end. The rows: frames that do not come, none, all; one that is missing; a byte that is changed, each in turn, and a block less; a frame that
/// comes twice, or that was not sent yet; a filler (STAT and FREQ 0x8000) in place of either block.
const ROWS: &str = "\
1 2 3 => 0 right, whole: false
 => 0 right, whole: true
1 2 3 1:000000050001000000060002 2:000000050001000000060002 3:000000050001000000060002 => right; right; right; 3 right, whole: true
1 2 3 1:000000050001000000060002 2:000000050001000000060002 3:000000050001000000060002 4 => right; right; right; 3 right, whole: false
1 2 3 1:000000050001000000060002 3:000000050001000000060002 => right; the frame 100+2 did not come; 1 right, whole: false
1 2 3 1:400000050001000000060002 2:000000050001000000060002 => the frame 100+1 has other bytes than were sent; the frame 100+1 did not come; 0 right, whole: false
1 2 3 1:004000050001000000060002 2:000000050001000000060002 => the frame 100+1 has other bytes than were sent; the frame 100+1 did not come; 0 right, whole: false
1 2 3 1:000040050001000000060002 2:000000050001000000060002 => the frame 100+1 has other bytes than were sent; the frame 100+1 did not come; 0 right, whole: false
1 2 3 1:000000450001000000060002 2:000000050001000000060002 => the frame 100+1 has other bytes than were sent; the frame 100+1 did not come; 0 right, whole: false
1 2 3 1:000000054001000000060002 2:000000050001000000060002 => the frame 100+1 has other bytes than were sent; the frame 100+1 did not come; 0 right, whole: false
1 2 3 1:000000050041000000060002 2:000000050001000000060002 => the frame 100+1 has other bytes than were sent; the frame 100+1 did not come; 0 right, whole: false
1 2 3 1:000000050001400000060002 2:000000050001000000060002 => the frame 100+1 has other bytes than were sent; the frame 100+1 did not come; 0 right, whole: false
1 2 3 1:000000050001004000060002 2:000000050001000000060002 => the frame 100+1 has other bytes than were sent; the frame 100+1 did not come; 0 right, whole: false
1 2 3 1:000000050001000040060002 2:000000050001000000060002 => the frame 100+1 has other bytes than were sent; the frame 100+1 did not come; 0 right, whole: false
1 2 3 1:000000050001000000460002 2:000000050001000000060002 => the frame 100+1 has other bytes than were sent; the frame 100+1 did not come; 0 right, whole: false
1 2 3 1:000000050001000000064002 2:000000050001000000060002 => the frame 100+1 has other bytes than were sent; the frame 100+1 did not come; 0 right, whole: false
1 2 3 1:000000050001000000060042 2:000000050001000000060002 => the frame 100+1 has other bytes than were sent; the frame 100+1 did not come; 0 right, whole: false
1 2 3 1:000000050001 => the frame 100+1 has other bytes than were sent; 0 right, whole: false
1 2 3 1:000000050001000000060002 1:000000050001000000060002 2:000000050001000000060002 3:000000050001000000060002 => right; the frame 100+1 came twice, or was not sent; right; right; 3 right, whole: false
1:000000050001000000060002 1 1:000000050001000000060002 => the frame 100+1 came twice, or was not sent; right; 1 right, whole: false
1 2 3 1:800080000000000000060002 => the frame 100+1 has a filler in place of a block that was sent; 0 right, whole: false
1 2 3 1:000000050001800080000000 => the frame 100+1 has a filler in place of a block that was sent; 0 right, whole: false";

#[test]
fn frames_that_are_expected(rt: HostRuntime) {
    let alloc = rt.alloc();
    for row in ROWS.split('\n') {
        let (steps, _) = row.split_once(" => ").expect(&rt, "a row");
        let (mut expected, mut first) = (ExpectedFrames::new(alloc), None);
        let mut told = format!(in alloc; "{steps} => ").expect(&rt, "memory");
        for step in steps.split_whitespace() {
            let (slot, came) = step.split_once(":").unwrap_or((step, ""));
            let frac = slot.parse::<u32>().ok().expect(&rt, "a slot");
            let stamp = Stamp { soc: 100, frac };
            if came.is_empty() {
                let blocks = Vec::from_slice(alloc, &BLOCKS).expect(&rt, "memory");
                expected
                    .expect(ExpectedFrame { stamp, blocks })
                    .expect(&rt, "memory");
                continue;
            }
            let blocks = hex::decode(alloc, came.as_bytes()).expect(&rt, "digits");
            match expected.receive(stamp, &blocks) {
                None => told.push_str("right; ").expect(&rt, "memory"),
                Some(wrong) => {
                    first = Some(first.unwrap_or(wrong));
                    write!(told, "{wrong}; ").expect(&rt, "memory");
                }
            }
        }
        let whole = expected.is_whole();
        write!(told, "{} right, whole: {whole}", expected.right).expect(&rt, "memory");
        same(&rt, told.as_str(), row);
        // What was wrong first is kept.
        same(&rt, expected.wrong, first);
    }
}
