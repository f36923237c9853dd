//! The blocks of a data frame arrive at a stream.

ghost use Rattle.std.specs.Prelude.{◌≡◌, ◌+◌, ◌<◌, ◌≤◌, ◌++◌, [], ℕ, List, length, map, drop, All, IsTrue, slice_index_or, false};
ghost use Rattle.pg_data.specs.Pieces.{Piece};
ghost use Rattle.pg_stream.specs.Limits.{IsWithinLimits};
ghost use Rattle.pg_align.specs.Slots.{others_than, answer_at, with_arrival};
ghost use Rattle.pg_session.specs.Events.{samples_at};
ghost use Rattle.pg_session.specs.Streams.{PlacedBlock, place_of, with_place, placed, arrive_all};
ghost use Rattle.pg_session.specs.Output.{all_ignored};
ghost use Rattle.pg_session.specs.Sending.{Sending};
ghost use Rattle.pg_session.specs.Kept.{by_slots};
ghost use Rattle.pg_session.specs.Fields.{AreEffective, with_stats, one_ignored};
ghost use Rattle.pg_session.specs.Wanted.{piece_of_placed};

use crate::output::Output;
use crate::stream::place_next;
use circular_buffer::HeapCircularBuffer;
use pg_align::{Align, Arrived};
use pg_data::{DataFrame, SharedBlock};
use pg_stream::Definition;
use pg_wire::PmuKey;

/// 1 for a member, which is guessed to be the one at the place `next`, else 0.
#[inline(always)]
fn count_one(definition: &Definition, key: &PmuKey, next: &mut usize) -> usize
    requires limits { IsWithinLimits definition.now }
    ensures count { (piece : Piece) (others : List PlacedBlock) → length (with_place (place_of definition.now.members key.now) piece others) ≡ result + length others }
    ensures few { result ≤ 1 }
{
    match place_next(definition, key, next) {
        Some(_) => 1,
        None => 0,
    }
}

/// How many of these blocks are members'.
pub(crate) fn count_placed(definition: &Definition, frame: &DataFrame, places: &[usize]) -> usize
    requires limits { IsWithinLimits definition.now }
    requires places { All (λ i. i < length frame.now.config.parts) places.now }
    ensures count { result ≡ length (placed definition.now.members frame.now.quality (samples_at frame.now places.now)) }
    ensures few { result ≤ length places.now }
{
    let _count = frame.count();
    let mut next = 0;
    let mut count = 0;
    for place in places {
        count += count_one(definition, &frame.key(*place), &mut next);
    }
    count
}

/// Whether one of these blocks is a member's; the first is guessed to be the one at the place `guess`.
pub(crate) fn has_placed(
    definition: &Definition,
    frame: &DataFrame,
    places: &[usize],
    guess: usize,
) -> bool
    requires limits { IsWithinLimits definition.now }
    requires places { All (λ i. i < length frame.now.config.parts) places.now }
    ensures some { IsTrue result
        → 0 < length (placed definition.now.members frame.now.quality (samples_at frame.now places.now)) }
    ensures none { result ≡ false
        → length (placed definition.now.members frame.now.quality (samples_at frame.now places.now)) ≡ 0 }
{
    let _count = frame.count();
    let mut next = guess;
    for place in places {
        if count_one(definition, &frame.key(*place), &mut next) > 0 {
            return true;
        }
    }
    false
}

/// A member's block arrives in a slot; one that is late or comes twice is counted.
#[inline(always)]
pub(crate) fn arrive_one(
    align: &mut Align,
    slot: u64,
    member: usize,
    block: SharedBlock,
    output: &mut Output,
)
    requires on { IsTrue align.old.is_on }
    requires effective { IsTrue (slice_index_or align.old.effective member false) }
    requires room { others_than slot align.old.slots ≤ align.old.window }
    ensures slots { align.new ≡ with_arrival align.old slot member block }
    ensures room { others_than slot align.new.slots ≡ others_than slot align.old.slots }
    ensures output { output.new ≡ with_stats output.old (one_ignored (answer_at align.old slot member) output.old.output.stats) }
{
    match align.arrive(slot, member, block) {
        Arrived::Kept => {}
        Arrived::Late => output.count_late(),
        Arrived::Twice => output.count_twice(),
    }
}

/// Those blocks of a frame that are members' arrive in a slot, in the frame's order. Their copies are taken from the front of
/// `blocks`; what is late or comes twice is counted. The first is guessed to be the member at the place `guess`, which is then
/// where the next frame's first is guessed. The answer is whether one of the blocks is a member's.
pub(crate) fn arrive_all_in(
    definition: &Definition,
    frame: &DataFrame,
    places: &[usize],
    slot: u64,
    guess: &mut usize,
    align: &mut Align,
    blocks: &mut HeapCircularBuffer<SharedBlock>,
    output: &mut Output,
) -> bool
    requires limits { IsWithinLimits definition.now }
    requires places { All (λ i. i < length frame.now.config.parts) places.now }
    requires on { IsTrue align.old.is_on }
    requires effective { AreEffective align.old.effective (placed definition.now.members frame.now.quality (samples_at frame.now places.now)) }
    requires room { others_than slot align.old.slots ≤ align.old.window }
    requires ready { blocks.old.items ≡ map piece_of_placed (placed definition.now.members frame.now.quality (samples_at frame.now places.now))
        ++ drop (length (placed definition.now.members frame.now.quality (samples_at frame.now places.now))) blocks.old.items }
    ensures slots { align.new ≡ (arrive_all by_slots align.old slot (placed definition.now.members frame.now.quality (samples_at frame.now places.now))).slots }
    ensures output { output.new ≡ with_stats output.old (all_ignored
        (arrive_all by_slots align.old slot (placed definition.now.members frame.now.quality (samples_at frame.now places.now))).late
        (arrive_all by_slots align.old slot (placed definition.now.members frame.now.quality (samples_at frame.now places.now))).twice
        0 output.old.output.stats) }
    ensures blocks { blocks.new.items ≡ drop (length (placed definition.now.members frame.now.quality (samples_at frame.now places.now))) blocks.old.items }
    ensures capacity { blocks.new.capacity ≡ blocks.old.capacity }
    ensures some { IsTrue result
        → 0 < length (placed definition.now.members frame.now.quality (samples_at frame.now places.now)) }
    ensures none { result ≡ false → placed definition.now.members frame.now.quality (samples_at frame.now places.now) ≡ [] }
{
    let _count = frame.count();
    let mut some = false;
    let mut next = *guess;
    for place in places {
        let Some(member) = place_next(definition, &frame.key(*place), &mut next) else {
            continue;
        };
        let Some(block) = blocks.pop_front() else {
            unreachable!();
        };
        arrive_one(align, slot, member, block, output);
        some = true;
    }
    // Behind the last member the first is guessed.
    *guess = if next < definition.members.as_slice().len() {
        next
    } else {
        0
    };
    some
}

/// Blocks of a frame whose slot lies past the end of time are counted, and their copies given up.
pub(crate) fn pass_all(
    count: usize,
    blocks: &mut HeapCircularBuffer<SharedBlock>,
    output: &mut Output,
)
    ensures output { output.new ≡ with_stats output.old (all_ignored 0 0 count output.old.output.stats) }
    ensures blocks { blocks.new.items ≡ drop count blocks.old.items }
    ensures capacity { blocks.new.capacity ≡ blocks.old.capacity }
{
    for _ in 0..count {
        let _passed = blocks.pop_front();
        output.count_past();
    }
}
