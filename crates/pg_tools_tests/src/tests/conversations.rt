//! What a client of the control socket says of an other side that tests over sockets do not have.

use crate::tests::asserts::same;
use crate::tests::wires::{Sends, Takes};
use pg_status::{Answered, converse};
use std::io::{BufReader, ErrorKind};
use std::test::*;

/// What comes back of two lines, the error behind it, and how the lines were answered: a read that would block has waited for 60 seconds.
#[test]
fn lines_that_are_not_answered(rt: HostRuntime) {
    let alloc = rt.alloc();
    for (left, then, wanted) in [
        (
            b"".as_slice(),
            ErrorKind::WouldBlock,
            Ok(Answered::Silent(0)),
        ),
        (b"a\nend\n", ErrorKind::WouldBlock, Ok(Answered::Silent(1))),
        (
            b"a\nend\n",
            ErrorKind::PermissionDenied,
            Err(ErrorKind::PermissionDenied),
        ),
    ] {
        let mut answers = BufReader::new(alloc, Sends { left, then }).expect(&rt, "memory");
        let (mut sender, mut out) = (Takes::all(alloc), Takes::all(alloc));
        let came = match converse(alloc, &mut answers, &mut sender, &["1", "2"], &mut out) {
            Ok(answered) => Ok(answered),
            Err(error) => Err(error.kind()),
        };
        same(&rt, came, wanted);
    }
}
