//! The alignment beside a plain one, which looks for each answer in the list of all arrivals.

ghost use Rattle.std.specs.Prelude.{◌≡◌, IfOk, map};
ghost use Rattle.pg_data.specs.Pieces.{Piece};
ghost use Rattle.pg_align.specs.Histories.{StreamHistory, leave_all, slot_left};
ghost use Rattle.pg_align.specs.Shown.{Shows};

use crate::asserts::same;
use crate::fixtures::{announced, defined, framed, key, measured};
use crate::plain::{PlainAlign, PlainLeft};
use pg_align::{Align, Arrived, Left, all_leaving_in_steps, leaving_shows_history};
use pg_config::SourceConfig;
use pg_data::{DataFrame, SharedBlock};
use std::alloc::{AllocError, Global};
use std::process::Abort;
use std::sync::Arc;
use std::test::*;

/// A data frame of source 7 with this quality.
fn frame_7(
    rt: &impl Abort,
    alloc: Global,
    config: &Arc<SourceConfig>,
    quality: u8,
) -> Arc<DataFrame> {
    let text = format!(in alloc; "aa02001a0007000000640000823500001000200000000000 10={quality}");
    let bytes = framed(rt, alloc, text.expect(rt, "memory").as_str());
    measured(rt, alloc, config, &bytes).expect(rt, "a frame")
}

/// Stream 102 of PMUs 7 and 8, both effective, on.
fn stream_102(rt: &impl Abort, alloc: Global, wait: u32, window: u32) -> Align {
    let members = [key(rt, 7, 7), key(rt, 8, 8)];
    let definition = defined(rt, alloc, 102, wait, window, &members);
    same(rt, definition.members.as_slice().len(), 2);
    let mut align = Align::new(alloc, &definition).expect(rt, "memory");
    assert!(rt; !align.is_on());
    align.reshape(&[true, true]);
    align.start();
    align
}

/// The arrival of a frame's block, where the alignment can take one.
fn arrive(
    rt: &impl Abort,
    align: &mut Align,
    slot: u64,
    place: usize,
    frame: Arc<DataFrame>,
) -> Arrived {
    assert!(rt; frame.count() == 1);
    assert!(rt; align.is_on());
    assert!(rt; align.is_effective(place));
    assert!(rt; align.has_room());
    align.arrive(slot, place, SharedBlock::new(frame, 0))
}

/// A slot that was flushed keeps its frames until the next call, and no longer.
#[test]
fn flushed_frame_is_kept(rt: HostRuntime) {
    let alloc = rt.alloc();
    let config = announced(&rt, alloc, "one");
    let mut align = stream_102(&rt, alloc, 2, 4);
    let frame = frame_7(&rt, alloc, &config, 3);
    let arrived = Arc::try_clone(&frame).expect(&rt, "memory");
    same(
        &rt,
        arrive(&rt, &mut align, 3001, 0, arrived),
        Arrived::Kept,
    );
    assert!(rt; matches!(align.flush_next(), Some(left) if left.slot == 3001));
    same(&rt, Arc::strong_count(&frame), 2);
    assert!(rt; align.flush_next().is_none());
    same(&rt, Arc::strong_count(&frame), 1);
}

/// A slot that left, by its blocks' qualities.
fn plainly(rt: &impl Abort, alloc: Global, left: Option<Left<'_>>) -> Option<PlainLeft> {
    let left = left?;
    let mut parts = Vec::new(alloc);
    for part in left.parts {
        let quality = part.as_ref().map(|block| block.quality());
        parts.push(quality).expect(rt, "memory");
    }
    Some(PlainLeft {
        slot: left.slot,
        parts,
    })
}

/// All that are to leave, or all that are open, in both; and how many are open then.
fn leave_both(
    rt: &impl Abort,
    alloc: Global,
    align: &mut Align,
    plain: &mut PlainAlign,
    is_flush: bool,
) {
    for _ in 0..100 {
        let (left, wanted) = if is_flush {
            let left = plainly(rt, alloc, align.flush_next());
            (left, plain.flush_next(alloc).expect(rt, "memory"))
        } else {
            let left = plainly(rt, alloc, align.leave_next());
            (left, plain.leave_next(alloc).expect(rt, "memory"))
        };
        same(rt, &left, &wanted);
        if left.is_none() {
            break;
        }
    }
    let open = plain.open_slots(alloc).expect(rt, "memory");
    same(rt, align.open_slots(), open.len());
}

/// Some steps by a fixed formula, in both.
fn run_both(rt: &impl Abort, alloc: Global, config: &Arc<SourceConfig>, wait: u32, window: u32) {
    let mut align = stream_102(rt, alloc, wait, window);
    let mut plain = PlainAlign::new(alloc, window as usize, wait, 2).expect(rt, "memory");
    plain.reshape(&[true, true]);
    plain.start();
    let mut number = 2026u32;
    for step in 0..150u32 {
        number = number.wrapping_mul(1_103_515_245).wrapping_add(12_345);
        let slot = u64::from(3000 + step / 4 + number / 4096 % 8);
        match number / 65_536 % 16 {
            0..=10 => {
                let place = (number / 256 % 2) as usize;
                let quality = (number % 256) as u8;
                let frame = frame_7(rt, alloc, config, quality);
                let answer = plain.arrive(slot, place, quality).expect(rt, "memory");
                same(rt, arrive(rt, &mut align, slot, place, frame), answer);
            }
            11..=13 => {
                align.tick();
                assert!(rt; plain.can_tick());
                plain.tick();
            }
            14 => leave_both(rt, alloc, &mut align, &mut plain, true),
            _ => {
                align.discard();
                plain.discard();
                align.start();
                plain.start();
            }
        }
        leave_both(rt, alloc, &mut align, &mut plain, false);
    }
}

#[test]
fn as_by_all_arrivals(rt: HostRuntime) {
    let config = announced(&rt, rt.alloc(), "one");
    for (wait, window) in [(0, 4), (1, 1), (1, 8), (3, 2), (5, 64), (60_000, 3)] {
        run_both(&rt, rt.alloc(), &config, wait, window);
    }
}

/// A caller of `leave_next`: what left is what leaves by the history, in its order, and the alignment then shows the
/// history afterwards.
fn numbers_leaving(alloc: Global, align: &mut Align) -> Result<Vec<u64>, AllocError>
    ensures left { (h : StreamHistory Piece) → Shows align.old h → IfOk result (λ numbers.
        (numbers.items ≡ map slot_left (leave_all h).frames) × Shows align.new (leave_all h).after) }
{
    all_leaving_in_steps();
    leaving_shows_history();
    let mut numbers = Vec::new(alloc);
    while let Some(left) = align.leave_next() {
        numbers.push(left.slot)?;
    }
    Ok(numbers)
}

#[test]
fn caller_knows_what_left(rt: HostRuntime) {
    let alloc = rt.alloc();
    let config = announced(&rt, alloc, "one");
    let mut align = stream_102(&rt, alloc, 0, 4);
    let frame = frame_7(&rt, alloc, &config, 5);
    same(&rt, arrive(&rt, &mut align, 3001, 1, frame), Arrived::Kept);
    let left = numbers_leaving(alloc, &mut align).expect(&rt, "memory");
    same(&rt, left.as_slice(), [3001].as_slice());
}
