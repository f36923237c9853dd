//! A data frame that brings the blocks of all members of a stream at once.

ghost use Rattle.std.specs.Prelude.{◌≡◌, ◌≢◌, ◌/◌, ◌<◌, ◌≤◌, ◌^◌, ◌∷◌, [], length, replicate, All, Some, None, false};
ghost use Rattle.pg_stream.specs.Limits.{IsWithinLimits};
ghost use Rattle.pg_align.specs.Slots.{head_with};
ghost use Rattle.pg_outcfg.specs.Ordered.{AreBlocks, AreMembers, pieces_in};
ghost use Rattle.pg_session.specs.Events.{samples_at};
ghost use Rattle.pg_session.specs.Streams.{placed, slot_frame};
ghost use Rattle.pg_session.specs.Sending.{Sends};
ghost use Rattle.pg_session.specs.Filling.{are_all, filled};

use crate::output::Output;
use crate::stream::place_next;
use pg_data::DataFrame;
use pg_outcfg::{ConfigList, HeadPrefix, StampCache, data_frame_at_once};
use pg_stream::Definition;
use pg_wire::PmuKey;
use std::alloc::Global;

/// Of which members a data frame brings blocks.
#[derive(Clone, Copy, PartialEq, Eq)]
pub(crate) enum Brought {
    /// Of none.
    Nothing,
    /// Of all, one of each.
    All,
    /// Of some, or two of one.
    Some,
}

/// Finds for each member which of a frame's blocks is its own. The first is guessed to be that of the member at the place `guess`, which
/// is then where the next frame's first is guessed, if the blocks of all members were found.
#[inline(always)]
pub(crate) fn place_all(
    definition: &Definition,
    frame: &DataFrame,
    places: &[usize],
    guess: &mut usize,
    order: &mut [Option<u8>],
) -> Brought
    requires limits { IsWithinLimits definition.now }
    requires places { All (λ i. i < length frame.now.config.parts) places.now }
    requires none { order.old ≡ replicate (length definition.now.members) None }
    ensures nothing { result ≡ Brought.Nothing → placed definition.now.members frame.now.quality (samples_at frame.now places.now) ≡ [] }
    ensures some { result ≡ Brought.Some → (0 < length (placed definition.now.members frame.now.quality (samples_at frame.now places.now)))
        × (are_all (length definition.now.members) (placed definition.now.members frame.now.quality (samples_at frame.now places.now)) ≡ false) }
    ensures all { result ≡ Brought.All → (0 < length (placed definition.now.members frame.now.quality (samples_at frame.now places.now)))
        × (filled (replicate (length definition.now.members) None) (placed definition.now.members frame.now.quality (samples_at frame.now places.now)) ≡ Some (pieces_in frame.now order.new)) }
    ensures blocks { result ≡ Brought.All → AreBlocks (length frame.now.config.parts) order.new }
    ensures len { length order.new ≡ length order.old }
{
    let _count = frame.count();
    if let ([member], [place]) = (definition.members.as_slice(), places) {
        return place_one(member, frame, *place, order);
    }
    let mut count = 0;
    let mut next = *guess;
    for place in places {
        let Some(member) = place_next(definition, &frame.key(*place), &mut next) else {
            continue;
        };
        if order[member].is_some() {
            return Brought::Some;
        }
        order[member] = Some(*place as u8);
        count += 1;
    }
    if count == 0 {
        return Brought::Nothing;
    }
    if count < order.len() {
        return Brought::Some;
    }
    // Behind the last member the first is guessed.
    *guess = if next < order.len() { next } else { 0 };
    Brought::All
}

/// The same of a stream of one member and a frame of one block.
#[inline(always)]
pub(crate) fn place_one(
    member: &PmuKey,
    frame: &DataFrame,
    place: usize,
    order: &mut [Option<u8>],
) -> Brought
    requires place { place < length frame.now.config.parts }
    requires none { order.old ≡ None ∷ [] }
    ensures nothing { result ≡ Brought.Nothing → placed (member.now ∷ []) frame.now.quality (samples_at frame.now (place ∷ [])) ≡ [] }
    ensures never { result ≢ Brought.Some }
    ensures all { result ≡ Brought.All → (0 < length (placed (member.now ∷ []) frame.now.quality (samples_at frame.now (place ∷ []))))
        × (filled (None ∷ []) (placed (member.now ∷ []) frame.now.quality (samples_at frame.now (place ∷ []))) ≡ Some (pieces_in frame.now order.new)) }
    ensures blocks { result ≡ Brought.All → AreBlocks (length frame.now.config.parts) order.new }
    ensures len { length order.new ≡ length order.old }
{
    let _count = frame.count();
    if *member == frame.key(place) {
        order[0] = Some(place as u8);
        return Brought::All;
    }
    Brought::Nothing
}

/// Makes the frame of a slot for which one frame brought the blocks of all members, and sends it. Where a frame of the event was lost
/// this one is not composed.
#[inline(always)]
pub(crate) fn send_filled(
    alloc: Global,
    definition: &Definition,
    listed: &ConfigList,
    slot: u64,
    frame: &DataFrame,
    order: &[Option<u8>],
    prefix: &mut HeadPrefix,
    stamps: &mut StampCache,
    output: &mut Output,
)
    requires limits { IsWithinLimits definition.now }
    requires time { slot / definition.now.rate < 2 ^ 32 }
    requires members { length order.now ≡ length definition.now.members }
    requires blocks { AreBlocks (length frame.now.config.parts) order.now }
    requires listed { AreMembers listed.now definition.now.members }
    requires few { output.old.kept ≤ output.old.made }
    requires bounded { output.old.made < 2 ^ 32 }
    ensures sends { Sends (slot_frame definition.now listed.now (head_with slot (pieces_in frame.now order.now)) ∷ []) output.old output.new }
{
    // Only the contract speaks of the list.
    let _ = listed;
    if output.is_lost() {
        output.lose();
    } else {
        let spare = output.take_spare(alloc);
        output.send(data_frame_at_once(
            alloc, definition, slot, frame, order, prefix, stamps, spare,
        ));
    }
}
