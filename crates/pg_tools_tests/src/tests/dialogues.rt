//! Clients that send lines, over memory, with a clock that the test moves.

use crate::tests::asserts::same;
use crate::tests::wires::{Sends, Takes};
use pg_status::{Answer, ControlProtocol, LineAnswer, Turned};
use std::io;
use std::io::{ErrorKind, Write};
use std::test::*;
use std::time::{Duration, Instant};

/// Answers each line with itself, but puts the line `reload` off. The answer to that is empty, once it is there.
#[derive(Drop)]
struct PutsOff {
    is_there: bool,
    dropped: Option<u64>,
}

impl Answer for PutsOff {
    fn answer(&mut self, line: &[u8], owed: &mut Vec<u8>) -> io::Result<LineAnswer> {
        if line == b"reload".as_slice() {
            return Ok(LineAnswer::Later(7));
        }
        owed.write_all(line)?;
        Ok(LineAnswer::Done)
    }

    fn take_answer(&mut self, _number: u64, _owed: &mut Vec<u8>) -> io::Result<bool> {
        Ok(self.is_there)
    }

    fn drop_answer(&mut self, number: u64) {
        self.dropped = Some(number);
    }
}

/// A client is silent since its last bytes came, whole line or not, and not since it was served last. While it awaits an answer it is not silent, and then
/// since that came.
#[test]
fn silent_since_the_last_bytes(rt: HostRuntime) {
    let alloc = rt.alloc();
    let start = Instant::now(&rt).expect(&rt, "a clock");
    let mut dialogue = ControlProtocol::new(alloc, start);
    let mut out = Takes::all(alloc);
    let mut answers = PutsOff {
        is_there: false,
        dropped: None,
    };
    // At which second, the bytes that come, whether the answer is there, and for how many seconds it is silent then.
    let rows: [(u64, &[u8], bool, u64); 8] = [
        (1, b"", false, 1),
        (2, b"on", false, 0),
        (60, b"", false, 58),
        (61, b"e\n", false, 0),
        (62, b"reload\n", false, 0),
        (162, b"", false, 0),
        (163, b"", true, 0),
        (193, b"", true, 30),
    ];
    for (second, left, is_there, silent) in rows {
        let at = start
            .checked_add(Duration::from_secs(second))
            .expect(&rt, "a time");
        let then = ErrorKind::WouldBlock;
        answers.is_there = is_there;
        let turned = dialogue.serve(&mut Sends { left, then }, &mut out, &mut answers, at);
        same(&rt, turned, Turned::Waits);
        same(&rt, dialogue.silent(at), Duration::from_secs(silent));
    }
    same(&rt, out.taken.as_slice(), b"one".as_slice());
}

/// A client that is closed while it awaits an answer does not ask for it any more.
#[test]
fn a_client_that_goes_before_its_answer(rt: HostRuntime) {
    let alloc = rt.alloc();
    let start = Instant::now(&rt).expect(&rt, "a clock");
    let mut dialogue = ControlProtocol::new(alloc, start);
    // The socket takes no more at all.
    let mut out = Takes::all(alloc);
    out.most = 0;
    let mut answers = PutsOff {
        is_there: false,
        dropped: None,
    };
    let mut reader = Sends {
        left: b"one\nreload\n",
        then: ErrorKind::WouldBlock,
    };
    let turned = dialogue.serve(&mut reader, &mut out, &mut answers, start);
    same(&rt, (turned, answers.dropped), (Turned::Gone, Some(7)));
}
