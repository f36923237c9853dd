//! CHK, and frames found in a stream of bytes.

use crate::asserts::same;
use pg_wire::*;
use std::alloc::{AllocError, Global};
use std::process::Abort;
use std::test::*;

/// Row check-values, however the bytes are gone through.
#[test]
fn checks(rt: HostRuntime) {
    same(&rt, check(b"123456789"), 0x29B1);
    same(&rt, check(b""), 0xFFFF);
    same(&rt, check_bytewise(b"123456789"), 0x29B1);
    same(&rt, check_more(check(b"12345"), b"6789"), 0x29B1);
    let shift = CrcShift::new(4);
    let past = shift.check_past(check(b"12345"), b"6789", check_alone(b"6789"));
    same(&rt, past, 0x29B1);
}

/// A name, the room at the end, then steps: `reset`, or the bytes that are read and what is taken behind them.
const ROWS: &str = "\
deframer-pieces|65526|aa More|42 More|00 More|12 More|00 More|65 More|00 More|00 More|00 More|64 More|00 More|00 More|00 More|00 More|00 More|05 More|cb More|f9 aa420012006500000064000000000005cbf9 More|aa420012006500000064000000000005cbf9aa420012006500000064000000000005cbf9aa4200120065000000 aa420012006500000064000000000005cbf9 aa420012006500000064000000000005cbf9 More\n\
wrong-check-then-break|65535|aa420012006500000064000000000004cbf9aa420012006500000064000000000005cbf9 Skipped:BadCheck aa420012006500000064000000000005cbf9|ab Broken:BadFirst Broken:BadFirst|aa420012006500000064000000000005cbf9 Broken:BadFirst Broken:BadFirst|reset|aa420012006500000064000000000005cbf9 aa420012006500000064000000000005cbf9 More\n\
breaks-and-sizes|65535|aa42000f Broken:ShortSize Broken:ShortSize|reset|aac2 Broken:BadSecond Broken:BadSecond|reset|aa42001000650000006400000000e46a aa42001000650000006400000000e46a More|aa4300120065000000640000000000056505 Skipped:BadVersion More";

/// What is taken, as a row has it.
fn told(alloc: Global, taken: Taken<'_>) -> Result<String, AllocError> {
    match taken {
        Taken::More => String::from_str(alloc, "More"),
        Taken::Frame(frame) => hex::encode(alloc, frame),
        Taken::Skipped(refusal) => format!(in alloc; "Skipped:{refusal}"),
        Taken::Broken(refusal) => format!(in alloc; "Broken:{refusal}"),
    }
}

/// Reads these bytes, and takes as much as is wanted.
fn read(rt: &impl Abort, alloc: Global, deframer: &mut Deframer, bytes: &str, wanted: &str) {
    let bytes = hex::decode(alloc, bytes.as_bytes()).expect(rt, "digits");
    let mut reader = bytes.as_slice();
    assert!(rt; deframer.room() >= 1);
    let read = deframer.read_from(&mut reader, 4096);
    assert!(rt; matches!(read, Ok(len) if len == bytes.len()));
    for wanted in wanted.split(' ') {
        let came = told(alloc, deframer.next()).expect(rt, "memory");
        assert!(rt; came.as_str() == wanted, "{bytes:?}: {came}");
    }
}

#[test]
fn rows(rt: HostRuntime) {
    let alloc = rt.alloc();
    for row in ROWS.split('\n') {
        let (name, row) = row.split_once('|').expect(&rt, "a name");
        let (room, steps) = row.split_once('|').expect(&rt, "the room");
        let mut deframer = Deframer::new(alloc).expect(&rt, "memory");
        for step in steps.split('|') {
            match step.split_once(' ') {
                None => deframer.reset(),
                Some((bytes, wanted)) => read(&rt, alloc, &mut deframer, bytes, wanted),
            }
        }
        let room = room.parse::<usize>().expect(&rt, "the room");
        assert!(rt; deframer.room() == room, "{name}: room for {room}");
    }
}
