//! Records, blocks, tapes and their merge, with values from outside, and the recordings of two threads.

ghost use Rattle.std.specs.Prelude.{◌≡◌};

use pg_record::{
    BlockHead, DONE, FoundBlock, Front, LOST, Merge, Merged, Record, RecordKind, Recording,
    Records, Tape, TapedCalls, block_head, next_block, read_record, short_sum, sum,
};
use pg_turn::{Machine, Seat, Turnstile};
use std::alloc::{AllocError, Global};
use std::process::Abort;
use std::sync::Wait;
use std::test::Fail;
use std::thread::{Threads, join};

/// The bytes of a record, and what is read of them.
#[test]
fn record_is_spelled(rt: HostRuntime) -> Result<(), Fail> {
    let alloc = rt.alloc();
    let mut tape = Tape::new(alloc, 1, 3)?;
    let front = Front::Eight(0x0506_0708_090A_0B0C);
    tape.begin(RecordKind::Measurement, 0x0102, front, &[1, 2, 3]);
    tape.end(0x0A0B_0C0D_0E0F_1011, 0x1213, 21, 0x1415, 0x1617_1819);
    let bytes = bytes_of(alloc, &mut tape)?;
    let wanted: [u8; 33] = [
        1, 1, 2, 0, 11, 5, 6, 7, 8, 9, 10, 11, 12, 1, 2, 3, 0x0A, 0x0B, 0x0C, 0x0D, 0x0E, 0x0F,
        0x10, 0x11, 0x12, 0x13, 21, 0x14, 0x15, 0x16, 0x17, 0x18, 0x19,
    ];
    assert!(rt; bytes.as_slice() == wanted.as_slice());
    let Some((record, body, rest)) = read_record(&bytes) else {
        assert!(rt; false);
        return Ok(());
    };
    assert!(rt; record.kind == RecordKind::Measurement && record.number == 0x0102);
    assert!(rt; record.place == 0x0A0B_0C0D_0E0F_1011 && record.at == 0x1213);
    assert!(rt; record.answer == 21 && record.handed == 0x1415 && record.sum == 0x1617_1819);
    assert!(rt; body == [5, 6, 7, 8, 9, 10, 11, 12, 1, 2, 3].as_slice() && rest.is_empty());
    Ok(())
}

/// No byte of a record may be missing, and its kind has to be known.
#[test]
fn parts_are_no_record(rt: HostRuntime) -> Result<(), Fail> {
    let mut tape = Tape::new(rt.alloc(), 1, 0)?;
    tape.begin(RecordKind::Drain, 3, Front::Four(16_384), &[]);
    tape.end(9, 0, LOST, 44, 7);
    let mut bytes = bytes_of(rt.alloc(), &mut tape)?;
    for size in 0..bytes.len() {
        assert!(rt; read_record(&bytes[..size]).is_none());
    }
    assert!(rt; read_record(&bytes).is_some());
    for kind in [0, 11, 255] {
        bytes[0] = kind;
        assert!(rt; read_record(&bytes).is_none());
    }
    Ok(())
}

/// A tape takes what it has room for. What finds no room is missed, and what follows is taken where there is room again.
#[test]
fn tape_is_full(rt: HostRuntime) -> Result<(), Fail> {
    let alloc = rt.alloc();
    let mut tape = Tape::new(alloc, 2, 5)?;
    for place in 0..3 {
        tape.begin(RecordKind::Connect, 5, Front::Nothing, &[]);
        tape.end(place, 0, DONE, 0, 0);
    }
    assert!(rt; tape.missed() == 1 && tape.calls() == 2);
    assert!(rt; bytes_of(alloc, &mut tape)?.len() == 44);
    // One that is begun twice stands once, and one that is not begun is missed.
    let first = tape.take(TapedCalls::with_capacity(alloc, 2, 5)?);
    assert!(rt; first.is_empty() && tape.is_empty());
    tape.begin(RecordKind::Connect, 5, Front::Nothing, &[]);
    tape.begin(RecordKind::Hangup, 5, Front::Nothing, &[1, 2, 3]);
    tape.end(3, 0, DONE, 0, 0);
    tape.end(4, 0, DONE, 0, 0);
    assert!(rt; tape.missed() == 2 && tape.calls() == 1 && tape.bytes() == 3);
    // A body that finds no room is missed too.
    tape.begin(RecordKind::Edit, 0, Front::Nothing, &[1, 2, 3]);
    tape.end(5, 0, DONE, 0, 0);
    assert!(rt; tape.missed() == 3 && tape.calls() == 1 && tape.bytes() == 3);
    let second = bytes_of(alloc, &mut tape)?;
    let Some((record, _, _)) = read_record(&second) else {
        assert!(rt; false);
        return Ok(());
    };
    assert!(rt; record.kind == RecordKind::Hangup && record.place == 3);
    // A body of more bytes than two bytes count finds no room.
    let mut large = Tape::new(alloc, 2, 200_000)?;
    let body = vec![in alloc; 0; 65_528]?;
    large.begin(RecordKind::Measurement, 0, Front::Eight(0), &body);
    large.end(0, 0, DONE, 0, 0);
    large.begin(RecordKind::Measurement, 0, Front::Eight(0), &body[1..]);
    large.end(1, 0, DONE, 0, 0);
    assert!(rt; large.missed() == 1 && large.calls() == 1);
    assert!(rt; bytes_of(alloc, &mut large)?.len() == 65_557);
    Ok(())
}

/// The bytes of what a tape holds, which then holds nothing and has no room.
fn bytes_of(alloc: Global, tape: &mut Tape) -> Result<Vec<u8>, AllocError> {
    let mut bytes = Vec::new(alloc);
    tape.take(TapedCalls::none(alloc)).write_to(&mut bytes)?;
    Ok(bytes)
}

/// FNV-1a over numbers of eight bytes, as another program computes it.
#[test]
fn sums(rt: HostRuntime) -> Result<(), Fail> {
    assert!(rt; sum(&[]) == 0xcbf2_9ce4_8422_2325);
    assert!(rt; sum(b"a") == 0xaf63_dc4c_8601_ec8c);
    assert!(rt; sum(b"12345678") == 0x49f2_564e_2d00_04fc);
    assert!(rt; sum(b"123456789") == 0xa6cd_6bd6_7708_1abf);
    let mut bytes = [0; 75];
    for (at, byte) in bytes.iter_mut().enumerate() {
        *byte = u8::try_from(at).unwrap_or(0);
    }
    assert!(rt; sum(&bytes) == 0x57dc_59d4_d1f0_657a);
    assert!(rt; short_sum(&bytes) == 0x862c_3cae);
    Ok(())
}

/// The short sum of bytes is another one where one of them is changed, whichever it is.
#[test]
fn short_sums_differ(rt: HostRuntime) -> Result<(), Fail> {
    let before = short_sum(&[7; 75]);
    for at in 0..75 {
        let mut bytes = [7; 75];
        bytes[at] = 8;
        assert!(rt; short_sum(&bytes) != before);
    }
    Ok(())
}

/// A block as bytes, whole, changed, in part, and what is no block.
#[test]
fn blocks_are_found(rt: HostRuntime) -> Result<(), Fail> {
    let alloc = rt.alloc();
    let records = *b"123456789";
    let head = BlockHead {
        worker: 0x0102,
        size: 9,
        start: 0x0304_0506_0708_090A,
        sum: sum(&records),
    };
    let mut bytes = Vec::new(alloc);
    bytes.extend_from_slice(&block_head(&head))?;
    bytes.extend_from_slice(&records)?;
    bytes.extend_from_slice(b"pdcgrec1")?;
    assert!(rt;
        bytes.starts_with(b"pdcgrec1\x01\x02\x00\x00\x00\x09\x03\x04\x05\x06\x07\x08\x09\x0A")
    );
    match next_block(&bytes) {
        FoundBlock::Whole(found, inside, behind) => {
            assert!(rt; found == head && inside == records.as_slice());
            assert!(rt; behind == b"pdcgrec1".as_slice());
            assert!(rt; matches!(next_block(behind), FoundBlock::Part));
        }
        _ => assert!(rt; false),
    }
    for size in 0..39 {
        assert!(rt; matches!(next_block(&bytes[..size]), FoundBlock::Part));
    }
    bytes[38] = 0;
    match next_block(&bytes) {
        FoundBlock::Changed(found, behind) => {
            assert!(rt; found == head && behind == b"pdcgrec1".as_slice())
        }
        _ => assert!(rt; false),
    }
    bytes[7] = 0;
    assert!(rt; matches!(next_block(&bytes), FoundBlock::Other));
    Ok(())
}

/// A block with ticks at these places.
fn ticks(alloc: Global, start: u64, places: &[u64]) -> Result<(BlockHead, Vec<u8>), Fail> {
    let mut tape = Tape::new(alloc, 16, 0)?;
    for place in places {
        tape.begin(RecordKind::Tick, 0, Front::Four(1), &[]);
        tape.end(*place, 2, DONE, 0, 0);
    }
    let records = bytes_of(alloc, &mut tape)?;
    let head = BlockHead {
        worker: 0,
        size: u32::try_from(records.len()).unwrap_or(0),
        start,
        sum: sum(&records),
    };
    Ok((head, records))
}

/// Whether the next record is of this place.
fn is_next(merge: &mut Merge, place: u64) -> bool {
    match merge.next(false) {
        Merged::Record(timed) => timed.record.place == place,
        _ => false,
    }
}

/// Adds a block with ticks at these places, which is whole.
fn add_ticks(
    rt: &impl Abort,
    alloc: Global,
    merge: &mut Merge,
    start: u64,
    places: &[u64],
) -> Result<(), Fail> {
    let (head, records) = ticks(alloc, start, places)?;
    assert!(rt; merge.add(&head, &records)? == 0);
    Ok(())
}

/// The records at these places are the next.
fn are_next(rt: &impl Abort, merge: &mut Merge, from: u64, to: u64) {
    for place in from..to {
        assert!(rt; is_next(merge, place), "place {place}");
    }
}

/// Records of two workers come in the order of places; what was not recorded is a gap, once it can't come any more.
#[test]
fn merged_by_place(rt: HostRuntime) -> Result<(), Fail> {
    let alloc = rt.alloc();
    let mut merge = Merge::new(alloc, 0);
    add_ticks(&rt, alloc, &mut merge, 1_000, &[1, 4, 5])?;
    assert!(rt; matches!(merge.next(false), Merged::More));
    add_ticks(&rt, alloc, &mut merge, 1_000, &[0, 2])?;
    are_next(&rt, &mut merge, 0, 3);
    // Place 3 may come with a block that is begun until ten seconds behind that with place 4.
    add_ticks(&rt, alloc, &mut merge, 6_000, &[6])?;
    add_ticks(&rt, alloc, &mut merge, 11_000, &[7])?;
    assert!(rt; matches!(merge.next(false), Merged::More) && merge.place() == 3);
    add_ticks(&rt, alloc, &mut merge, 11_001, &[8])?;
    assert!(rt; matches!(merge.next(false), Merged::Gap(3, 4)));
    are_next(&rt, &mut merge, 4, 9);
    Ok(())
}

/// Where this machine's clock is set back or ahead, records that wait for those of lower places still do, and what is missing is a gap ten seconds
/// behind that.
#[test]
fn merged_where_the_clock_is_set(rt: HostRuntime) -> Result<(), Fail> {
    let alloc = rt.alloc();
    let mut merge = Merge::new(alloc, 0);
    add_ticks(&rt, alloc, &mut merge, 7_200_000, &[0])?;
    add_ticks(&rt, alloc, &mut merge, 7_200_100, &[1, 4])?;
    are_next(&rt, &mut merge, 0, 2);
    add_ticks(&rt, alloc, &mut merge, 200, &[3])?;
    assert!(rt; matches!(merge.next(false), Merged::More) && merge.place() == 2);
    // A block that was begun before, and comes behind it.
    add_ticks(&rt, alloc, &mut merge, 7_200_150, &[2, 5])?;
    are_next(&rt, &mut merge, 2, 6);
    add_ticks(&rt, alloc, &mut merge, 1_000, &[7])?;
    add_ticks(&rt, alloc, &mut merge, 3_601_000, &[8])?;
    assert!(rt; matches!(merge.next(false), Merged::More) && merge.place() == 6);
    add_ticks(&rt, alloc, &mut merge, 3_606_000, &[9])?;
    add_ticks(&rt, alloc, &mut merge, 3_611_000, &[10])?;
    assert!(rt; matches!(merge.next(false), Merged::More) && merge.place() == 6);
    add_ticks(&rt, alloc, &mut merge, 3_611_001, &[11])?;
    assert!(rt; matches!(merge.next(false), Merged::Gap(6, 7)));
    are_next(&rt, &mut merge, 7, 12);
    Ok(())
}

/// What comes behind its gap, twice, or after it was handed out, is left out, and counted.
#[test]
fn repeated_are_left_out(rt: HostRuntime) -> Result<(), Fail> {
    let alloc = rt.alloc();
    let mut merge = Merge::new(alloc, 0);
    add_ticks(&rt, alloc, &mut merge, 1_000, &[0, 0, 2, 3])?;
    are_next(&rt, &mut merge, 0, 1);
    assert!(rt; matches!(merge.next(true), Merged::Gap(1, 2)));
    add_ticks(&rt, alloc, &mut merge, 1_000, &[0, 1, 3])?;
    are_next(&rt, &mut merge, 2, 4);
    assert!(rt; merge.repeated() == 4);
    assert!(rt; matches!(merge.next(true), Merged::More));
    Ok(())
}

/// A record has the time of its block and its own, and its body. Bytes that are no record are counted.
#[test]
fn merged_has_its_time_and_body(rt: HostRuntime) -> Result<(), Fail> {
    let alloc = rt.alloc();
    let mut merge = Merge::new(alloc, 0);
    let (head, records) = ticks(alloc, 11_004, &[0])?;
    assert!(rt; merge.add(&head, &records)? == 0);
    match merge.next(false) {
        Merged::Record(timed) => {
            assert!(rt; timed.at == 11_006 && timed.record.place == 0);
            assert!(rt; timed.body.as_slice() == [0, 0, 0, 1].as_slice());
        }
        _ => assert!(rt; false),
    }
    assert!(rt; merge.add(&head, &[1, 2, 3])? == 3);
    Ok(())
}

/// A machine that adds up what it is given.
#[derive(Drop)]
struct Total {
    sum: u64,
}

impl Machine for Total {
    type Event = u32;

    type Reply = u64;

    ghost shows = { λ t history. Unit {0} };

    ghost may = { λ history event reply. Unit {0} };

    fn step(&mut self, event: u32) -> u64 {
        self.sum = self.sum.saturating_add(u64::from(event));
        self.sum
    }
}

/// Records of what was added.
struct Added;

impl Records<u32> for Added {
    type Note = u32;

    ghost says = { λ e. e };

    fn note(event: &u32) -> u32 {
        *event
    }
}

/// So many calls, all recorded.
fn record_often<R: Wait>(
    rt: &R,
    turns: &Turnstile<Total>,
    recording: Recording<Total, Added>,
    n: u32,
    calls: u32,
) -> Recording<Total, Added>
    requires { recording.seat.table ≡ turns.now }
    ensures { result.seat.table ≡ turns.now }
{
    let mut recording = recording;
    for _ in 0..calls {
        let (next, _sum) = recording.call(rt, turns, n);
        recording = next;
    }
    recording
}

/// What two threads recorded, each of its own calls, is whole: the sum made anew from the records comes to the same total.
#[test]
fn records_of_two_threads(rt: HostRuntime) -> Result<(), Fail> {
    let rt = &rt;
    let (turns, seat) = Turnstile::new(rt.alloc(), Total { sum: 0 })?;
    let turns = &turns;
    let (first, second) = turns.split(seat);
    let first: Recording<Total, Added> = Recording::new(rt.alloc(), first);
    let second: Recording<Total, Added> = Recording::new(rt.alloc(), second);
    let (first, second) = join(
        rt,
        || -> Recording<Total, Added>
            requires { first.seat.table ≡ turns.now }
            ensures { result.seat.table ≡ turns.entry.now }
        { record_often(rt, turns, first, 1, 500) },
        || -> Recording<Total, Added>
            requires { second.seat.table ≡ turns.now }
            ensures { result.seat.table ≡ turns.entry.now }
        { record_often(rt, turns, second, 10, 500) },
    );
    let (_, first) = first.cut(rt.alloc(), turns);
    let both = first.join(turns, second)?;
    assert!(rt; both.is_whole(0) && both.notes.len() == 1000 && !both.is_whole(1));
    let mut anew = Total { sum: 0 };
    for placed in &both.notes {
        anew.step(placed.note);
    }
    assert!(rt; anew.sum == 5500);
    Ok(())
}
