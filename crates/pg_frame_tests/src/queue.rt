//! The queue of a subscriber, row by row, and the memory that it keeps.

ghost use Rattle.std.specs.Prelude.{◌≡◌, ◌<◌, vec_len};

use crate::asserts::same;
use pg_ring::{OutQueue, RingBytes, RingSize};
use std::alloc::{AllocError, Global};
use std::process::Abort;
use std::test::*;

/// A name, ring and ring bytes, then steps, each with its answer behind `=`:
///
/// - `data N`, `long N`: a data frame of 26 or 36 bytes that begins with AA and ends with N, and how many frames it dropped.
/// - `reply N`: so many replies of 74 bytes, and how many were taken.
/// - `lost`: a frame without memory.
/// - `drain N`: a buffer of N bytes; length, frames begun and gap, then place and value of each byte that is not 0.
/// - `clear`: how many data frames were cleared.
/// - `queue`: last byte and gap of each data frame; bytes in hand, replies, pending, and the frames and bytes that wait.
const ROWS: &str = "\
ring-of-one|1 16777216|data 1=0|data 2=1|data 3=1|queue=3/2 0 0 0 1 26|drain 1=1 1 2 0:170|data 4=0|drain 200=51 1 0 24:3 25:170 50:4\n\
bytes-drop-oldest|4 60|data 1=0|data 2=0|data 3=1|queue=2/1 3/0 0 0 0 2 52\n\
bytes-without-hand|4 52|data 1=0|data 2=0|queue=1/0 2/0 0 0 0 2 52|drain 1=1 1 0 0:170|data 3=0|queue=2/0 3/0 25 0 0 3 77\n\
bytes-and-longer-frame|4 60|data 1=0|data 2=0|long 3=2|queue=3/2 0 0 0 1 36\n\
bytes-too-few|4 20|data 1=1|queue=0 0 1 0 0\n\
a reply in hand has left its queue, and a hang-up counts no reply|4 16777216|reply 1=1|drain 1=1 1 0 0:170|reply 9=8|lost=|queue=73 8 1 9 665|clear=0\n\
what waits|2 16777216|queue=0 0 0 0 0|reply 2=2|data 1=0|data 2=0|data 3=1|queue=2/1 3/0 0 2 0 4 200|drain 80=80 2 0 0:170 74:170|queue=2/1 3/0 68 0 0 3 120|drain 68=68 0 0|queue=2/1 3/0 0 0 0 2 52|lost=|queue=2/1 3/0 0 0 1 2 52|clear=2|queue=0 0 0 0 0";

/// A frame of this length: it begins with AA, and its last byte tells the frames apart.
fn frame_of(rt: &impl Abort, alloc: Global, len: usize, last: u8) -> Vec<u8>
    requires { 0 < len }
    ensures { vec_len result ≡ len }
{
    let mut frame = vec![in alloc; 0; len].expect(rt, "memory");
    frame[len - 1] = last;
    frame[0] = 0xAA;
    frame
}

fn drained(alloc: Global, queue: &mut OutQueue, size: usize) -> Result<String, AllocError> {
    let mut buf = vec![in alloc; 0; size]?;
    let out = queue.drain(&mut buf);
    let (len, begun, gap) = (out.len, out.begun, out.gap);
    let mut text = format!(in alloc; "{len} {begun} {gap}")?;
    for (place, byte) in buf.iter().enumerate() {
        if *byte != 0 {
            text.push_str(&format!(in alloc; " {place}:{byte}")?)?;
        }
    }
    Ok(text)
}

fn queued(alloc: Global, queue: &OutQueue) -> Result<String, AllocError> {
    let mut text = String::new(alloc);
    for place in 0..queue.frames() {
        if let Some((frame, gap)) = queue.frame_at(place) {
            let last = frame.last().copied().unwrap_or(0);
            text.push_str(&format!(in alloc; "{last}/{gap} ")?)?;
        }
    }
    let (rest, replies, pending) = (queue.rest().len(), queue.replies(), queue.pending());
    let (frames, bytes) = (queue.frames_to_leave(), queue.bytes_to_leave());
    text.push_str(&format!(in alloc; "{rest} {replies} {pending} {frames} {bytes}")?)?;
    Ok(text)
}

/// So many replies are pushed; how many of them were taken.
fn replied(rt: &impl Abort, alloc: Global, queue: &mut OutQueue, number: u16) -> u64 {
    let mut taken = 0u64;
    for _ in 0..number {
        let answer = queue.push_reply(frame_of(rt, alloc, 74, 0));
        taken = taken.saturating_add(u64::from(answer.is_ok()));
    }
    taken
}

/// What a step answers.
fn answered(
    rt: &impl Abort,
    alloc: Global,
    queue: &mut OutQueue,
    step: &str,
) -> Result<String, AllocError> {
    let (word, number) = step.split_once(' ').unwrap_or((step, "0"));
    let number = number.parse::<u16>().expect(rt, "a number");
    let last = u8::try_from(number).unwrap_or(u8::MAX);
    let count = match word {
        "drain" => return drained(alloc, queue, usize::from(number)),
        "queue" => return queued(alloc, queue),
        "data" => queue.push_data(frame_of(rt, alloc, 26, last)),
        "long" => queue.push_data(frame_of(rt, alloc, 36, last)),
        "reply" => replied(rt, alloc, queue, number),
        "clear" => queue.clear(),
        _ => {
            queue.push_lost();
            return Ok(String::new(alloc));
        }
    };
    format!(in alloc; "{count}")
}

fn queue_of(rt: &impl Abort, alloc: Global, ring: u16, bytes: u32) -> OutQueue {
    let ring = RingSize::new(ring).expect(rt, "a ring");
    let bytes = RingBytes::new(bytes).expect(rt, "ring bytes");
    OutQueue::new(alloc, ring, bytes).expect(rt, "memory")
}

#[test]
fn rows(rt: HostRuntime) {
    let alloc = rt.alloc();
    for row in ROWS.split('\n') {
        let (name, row) = row.split_once('|').expect(&rt, "a name");
        let (sizes, steps) = row.split_once('|').expect(&rt, "sizes");
        let (ring, bytes) = sizes.split_once(' ').expect(&rt, "two sizes");
        let ring = ring.parse::<u16>().expect(&rt, "a ring");
        let bytes = bytes.parse::<u32>().expect(&rt, "ring bytes");
        let mut queue = queue_of(&rt, alloc, ring, bytes);
        for step in steps.split('|') {
            let (step, wanted) = step.split_once('=').expect(&rt, "an answer");
            let came = answered(&rt, alloc, &mut queue, step).expect(&rt, "memory");
            assert!(rt; came.as_str() == wanted, "{name}: {step}: {came}");
        }
    }
}

/// The room of the memory that the queue gives for the next frame.
fn spare(rt: &HostRuntime, queue: &mut OutQueue) -> usize {
    queue.take_spare(rt.alloc()).capacity()
}

#[test]
fn memory_is_kept(rt: HostRuntime) {
    let alloc = rt.alloc();
    let mut queue = queue_of(&rt, alloc, 1, 16_777_216);
    queue.push_data(frame_of(&rt, alloc, 26, 1));
    same(&rt, spare(&rt, &mut queue), 0);
    queue.push_data(frame_of(&rt, alloc, 26, 2));
    assert!(rt; spare(&rt, &mut queue) >= 26);
    same(&rt, spare(&rt, &mut queue), 0);
    let mut queue = queue_of(&rt, alloc, 4, 16_777_216);
    for _ in 0..2 {
        for last in 1..=3 {
            queue.push_data(frame_of(&rt, alloc, 26, last));
        }
        let mut buf = [0; 78];
        queue.drain(&mut buf);
        for _ in 0..3 {
            assert!(rt; spare(&rt, &mut queue) >= 26);
        }
        same(&rt, spare(&rt, &mut queue), 0);
    }
}
