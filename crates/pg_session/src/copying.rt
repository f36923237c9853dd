//! The references (copies of an `Arc`) that an event needs. They are prepared before it changes anything, as each of them can be refused.

ghost use Rattle.std.specs.Prelude.{◌≡◌, ◌+◌, ◌*◌, ◌<◌, ◌≤◌, ◌++◌, [], ◌∷◌, List, length, map, All, None, OnOk, IfErr, IsOk, replicate};
ghost use Rattle.std.specs.Arc.{arc_value};
ghost use Rattle.pg_data.specs.Pieces.{piece_of};
ghost use Rattle.pg_stream.specs.Limits.{IsWithinLimits};
ghost use Rattle.pg_session.specs.Events.{announced_at, config_of, samples_at};
ghost use Rattle.pg_session.specs.Streams.{PlacedBlock, place_of, with_place, placed};
ghost use Rattle.pg_session.specs.Ready.{ArePlaces, AreRising};
ghost use Rattle.pg_session.specs.Filling.{count_keeping};
ghost use Rattle.pg_session.specs.Wanted.{piece_of_placed, wanted_of, all_wanted};

use crate::stream::{Stream, place_next};
use circular_buffer::HeapCircularBuffer;
use pg_config::{PmuConfig, SourceConfig};
use pg_data::{DataFrame, SharedBlock};
use pg_stream::Definition;
use pg_wire::{PmuKey, Refusal};
use std::sync::Arc;

/// Prepares a copy of a configuration behind those that lie there. The one refusal is `NoMemory`.
pub(crate) fn prepare_config(
    config: &Arc<PmuConfig>,
    configs: &mut HeapCircularBuffer<Arc<PmuConfig>>,
) -> Result<(), Refusal>
    requires room { length configs.old.items < configs.old.capacity }
    ensures prepared { OnOk result (map arc_value configs.new.items ≡ map arc_value configs.old.items ++ arc_value config.now ∷ []) }
    ensures long { OnOk result (length configs.new.items ≡ length configs.old.items + 1) }
    ensures capacity { configs.new.capacity ≡ configs.old.capacity }
    ensures memory { IfErr result (λ refusal. refusal ≡ Refusal.NoMemory) }
{
    let copy = Arc::try_clone(config)?;
    let Ok(()) = configs.try_push_back(copy) else {
        unreachable!();
    };
    Ok(())
}

/// Prepares a copy of what a source says of each of those PMUs, whose places rise. The one refusal is `NoMemory`; some copies may then lie
/// there.
pub fn copy_parts(
    config: &SourceConfig,
    places: &[usize],
    configs: &mut HeapCircularBuffer<Arc<PmuConfig>>,
) -> Result<(), Refusal>
    requires rising { AreRising 0 (length config.now.parts) places.now }
    requires empty { configs.old.items ≡ [] }
    requires room { configs.old.capacity ≡ 16 }
    ensures prepared { OnOk result (map arc_value configs.new.items ≡ map config_of (announced_at config.now places.now)) }
    ensures capacity { configs.new.capacity ≡ configs.old.capacity }
    ensures memory { IfErr result (λ refusal. refusal ≡ Refusal.NoMemory) }
{
    let _count = config.count();
    for place in places {
        prepare_config(&config.parts[*place], configs)?;
    }
    Ok(())
}

/// Prepares a copy of a PMU's block, where that is a member's, which is guessed to be the one at the place `next`. The one refusal
/// is `NoMemory`.
#[inline(always)]
fn prepare_block(
    definition: &Definition,
    key: &PmuKey,
    frame: &Arc<DataFrame>,
    place: usize,
    next: &mut usize,
    blocks: &mut HeapCircularBuffer<SharedBlock>,
) -> Result<(), Refusal>
    requires limits { IsWithinLimits definition.now }
    requires place { place < length (arc_value frame.now).config.parts }
    requires room { length blocks.old.items < blocks.old.capacity }
    ensures prepared { (others : List PlacedBlock) → OnOk result (blocks.new.items ++ map piece_of_placed others
        ≡ blocks.old.items ++ map piece_of_placed (with_place (place_of definition.now.members key.now) (piece_of (arc_value frame.now) place) others)) }
    ensures few { length blocks.new.items ≤ length blocks.old.items + 1 }
    ensures grows { length blocks.old.items ≤ length blocks.new.items }
    ensures needless { place_of definition.now.members key.now ≡ None → IsOk result }
    ensures capacity { blocks.new.capacity ≡ blocks.old.capacity }
    ensures memory { IfErr result (λ refusal. refusal ≡ Refusal.NoMemory) }
{
    if place_next(definition, key, next).is_none() {
        return Ok(());
    }
    prepare_copy(frame, place, blocks)?;
    Ok(())
}

/// Prepares a copy of a block behind those that lie there. The one refusal is `NoMemory`.
#[inline(always)]
pub(crate) fn prepare_copy(
    frame: &Arc<DataFrame>,
    place: usize,
    blocks: &mut HeapCircularBuffer<SharedBlock>,
) -> Result<(), Refusal>
    requires place { place < length (arc_value frame.now).config.parts }
    requires room { length blocks.old.items < blocks.old.capacity }
    ensures prepared { OnOk result (blocks.new.items ≡ blocks.old.items ++ piece_of (arc_value frame.now) place ∷ []) }
    ensures long { OnOk result (length blocks.new.items ≡ length blocks.old.items + 1) }
    ensures unchanged { IfErr result (λ refusal. blocks.new.items ≡ blocks.old.items) }
    ensures capacity { blocks.new.capacity ≡ blocks.old.capacity }
    ensures memory { IfErr result (λ refusal. refusal ≡ Refusal.NoMemory) }
{
    let copy = Arc::try_clone(frame)?;
    let Ok(()) = blocks.try_push_back(SharedBlock::new(copy, place)) else {
        unreachable!();
    };
    Ok(())
}

/// Prepares a copy of each of those blocks that is a member's; the first is guessed to be the one at the place `guess`. The one
/// refusal is `NoMemory`; some copies may then lie there.
#[inline(always)]
pub(crate) fn copy_members(
    definition: &Definition,
    frame: &Arc<DataFrame>,
    places: &[usize],
    guess: usize,
    blocks: &mut HeapCircularBuffer<SharedBlock>,
) -> Result<(), Refusal>
    requires limits { IsWithinLimits definition.now }
    requires places { All (λ i. i < length (arc_value frame.now).config.parts) places.now }
    requires room { length blocks.old.items + length places.now ≤ blocks.old.capacity }
    ensures prepared { OnOk result (blocks.new.items
        ≡ blocks.old.items ++ map piece_of_placed (placed definition.now.members (arc_value frame.now).quality (samples_at (arc_value frame.now) places.now))) }
    ensures few { length blocks.new.items ≤ length blocks.old.items + length places.now }
    ensures needless { placed definition.now.members (arc_value frame.now).quality (samples_at (arc_value frame.now) places.now) ≡ [] → IsOk result }
    ensures capacity { blocks.new.capacity ≡ blocks.old.capacity }
    ensures memory { IfErr result (λ refusal. refusal ≡ Refusal.NoMemory) }
{
    let _count = frame.count();
    let mut next = guess;
    for place in places {
        let key = frame.key(*place);
        prepare_block(definition, &key, frame, *place, &mut next, blocks)?;
    }
    Ok(())
}

/// Prepares the copies of a frame's blocks that the streams ask for: those that are on, by their bits. The one refusal is `NoMemory`; some
/// copies may then lie there.
#[inline(always)]
pub(crate) fn copy_blocks(
    frame: &Arc<DataFrame>,
    places: &[usize],
    streams: &[Stream],
    blocks: &mut HeapCircularBuffer<SharedBlock>,
) -> Result<(), Refusal>
    requires places { ArePlaces (length (arc_value frame.now).config.parts) places.now }
    requires streams { length streams.now ≤ 8 }
    requires empty { blocks.old.items ≡ [] }
    requires room { blocks.old.capacity ≡ 128 }
    ensures prepared { OnOk result (blocks.new.items ≡ all_wanted streams.now (arc_value frame.now).quality (samples_at (arc_value frame.now) places.now)) }
    ensures needless { all_wanted streams.now (arc_value frame.now).quality (samples_at (arc_value frame.now) places.now) ≡ [] → IsOk result }
    ensures capacity { blocks.new.capacity ≡ blocks.old.capacity }
    ensures memory { IfErr result (λ refusal. refusal ≡ Refusal.NoMemory) }
{
    let _count = frame.count();
    for s in streams {
        s.prepare_copies(frame, places, blocks)?;
    }
    Ok(())
}

/// Prepares a copy of a frame's only block for each stream where it may stay. The one refusal is `NoMemory`; some copies may then lie there.
#[inline(always)]
pub(crate) fn copy_for_each(
    frame: &Arc<DataFrame>,
    place: usize,
    streams: &[Stream],
    blocks: &mut HeapCircularBuffer<SharedBlock>,
) -> Result<(), Refusal>
    requires place { place < length (arc_value frame.now).config.parts }
    requires streams { length streams.now ≤ 8 }
    requires empty { blocks.old.items ≡ [] }
    requires room { blocks.old.capacity ≡ 128 }
    ensures prepared { OnOk result (blocks.new.items ≡ replicate (count_keeping streams.now) (piece_of (arc_value frame.now) place)) }
    ensures capacity { blocks.new.capacity ≡ blocks.old.capacity }
{
    for s in streams {
        s.prepare_one(frame, place, blocks)?;
    }
    Ok(())
}
