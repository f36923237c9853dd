use super::*;
use std::test::Fail;

#[test]
fn turn_saturates(rt: HostRuntime) -> Result<(), Fail> {
    let mut audit = Audit {
        turn: u64::MAX - 2,
        entries: HeapCircularBuffer::with_capacity(rt.alloc(), 64)?,
    };
    for _ in 0..3u8 {
        audit.note(What::Connect, None);
    }
    let turns = audit.last(2).map_or(0, |entry| entry.turn);
    assert_eq!(rt; turns, 18_446_744_073_709_551_614);
    let turns = audit.last(1).map_or(0, |entry| entry.turn);
    assert_eq!(rt; turns, 18_446_744_073_709_551_615);
    let turns = audit.last(0).map_or(0, |entry| entry.turn);
    assert_eq!(rt; turns, 18_446_744_073_709_551_615);
    Ok(())
}
