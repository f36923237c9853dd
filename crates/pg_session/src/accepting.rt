//! Whether a subscriber takes an event, and whether the copies that lie ready are just those that it needs.

ghost use Rattle.std.specs.Prelude.{◌≡◌, ◌+◌, ◌<◌, ◌≤◌, ◌++◌, [], ◌∷◌, length, map, slice_get, All, IsTrue, Some};
ghost use Rattle.std.specs.Bool.{Decides};
ghost use Rattle.std.specs.Arc.{arc_value};
ghost use Rattle.pg_entitle.specs.Grants.{has_key};
ghost use Rattle.pg_outcfg.specs.Listing.{config_at};
ghost use Rattle.pg_session.specs.Events.{announced_at, config_of, samples_at};
ghost use Rattle.pg_data.specs.Pieces.{piece_of};
ghost use Rattle.pg_session.specs.Streams.{place_of, with_place, placed};
ghost use Rattle.pg_session.specs.Wanted.{piece_of_placed, all_wanted};
ghost use Rattle.pg_session.specs.Ready.{AreHeld, AreOwn, ArePlaces, GoesOn};

use crate::change::config_of;
use crate::stream::{Stream, place_in};
use circular_buffer::HeapCircularBuffer;
use pg_config::{PmuConfig, SourceConfig};
use pg_data::{DataFrame, SharedBlock};
use pg_entitle::Grants;
use pg_outcfg::ConfigList;
use pg_stream::Definition;
use pg_wire::PmuKey;
use std::sync::Arc;

/// Whether these are places of some of so many blocks, in their order.
pub(crate) fn are_places(count: usize, places: &[usize]) -> bool
    ensures { Decides result (ArePlaces count places.now) }
{
    let mut least = 0;
    for place in places {
        if *place < least || *place >= count {
            return false;
        }
        least = *place + 1;
    }
    !places.is_empty()
}

/// Whether those PMUs of a source are granted.
pub(crate) fn are_own(grants: &Grants, config: &SourceConfig, places: &[usize]) -> bool
    requires places { All (λ i. i < length config.now.parts) places.now }
    ensures { Decides result (AreOwn grants.now (announced_at config.now places.now)) }
{
    for place in places {
        if !grants.holds(config.key(*place)) {
            return false;
        }
    }
    true
}

/// Whether a PMU is granted, and this is the configuration that is listed for it.
fn is_held(grants: &Grants, listed: &ConfigList, key: PmuKey, config: &PmuConfig) -> bool
    ensures { Decides result (IsTrue (has_key grants.now key) × (config_at listed.now key ≡ Some config.now)) }
{
    match config_of(listed, &key) {
        Some(held) => grants.holds(key) && held.is_same(config),
        None => false,
    }
}

/// Whether those PMUs of a frame are granted, each with the configuration by which the frame was read.
pub(crate) fn are_held(
    grants: &Grants,
    listed: &ConfigList,
    frame: &DataFrame,
    places: &[usize],
) -> bool
    requires places { All (λ i. i < length frame.now.config.parts) places.now }
    ensures { Decides result (AreHeld grants.now listed.now (samples_at frame.now places.now)) }
{
    for place in places {
        let config = &frame.config.parts[*place];
        if !is_held(grants, listed, frame.key(*place), config) {
            return false;
        }
    }
    true
}

/// Whether copy i is one of this configuration.
pub(crate) fn is_copy(
    configs: &HeapCircularBuffer<Arc<PmuConfig>>,
    i: usize,
    config: &PmuConfig,
) -> bool
    ensures { Decides result (slice_get (map arc_value configs.now.items) i ≡ Some config.now) }
{
    match configs.get(i) {
        Some(copy) => copy.is_same(config),
        None => false,
    }
}

/// Whether just those copies lie there that an announcement of these PMUs needs. A place past the source's PMUs is no PMU's.
pub(crate) fn are_copies(
    config: &SourceConfig,
    places: &[usize],
    configs: &HeapCircularBuffer<Arc<PmuConfig>>,
) -> bool
    ensures { Decides result (map arc_value configs.now.items ≡ map config_of (announced_at config.now places.now)) }
{
    let Some(at) = after_configs(config, places, configs) else {
        return false;
    };
    if at != configs.len() {
        return false;
    }
    true
}

/// Where the copies go on behind those of these PMUs' configurations; or these do not lie in front.
fn after_configs(
    config: &SourceConfig,
    places: &[usize],
    configs: &HeapCircularBuffer<Arc<PmuConfig>>,
) -> Option<usize>
    ensures { GoesOn (map arc_value configs.now.items) 0 (map config_of (announced_at config.now places.now)) result }
{
    let mut at = 0;
    for place in places {
        let Some(after) = after_config(config, *place, configs, at) else {
            return None;
        };
        at = after;
    }
    Some(at)
}

/// Where the copies go on behind that of a PMU's configuration, where the source has that PMU; or that does not lie next.
fn after_config(
    config: &SourceConfig,
    place: usize,
    configs: &HeapCircularBuffer<Arc<PmuConfig>>,
    next: usize,
) -> Option<usize>
    requires within { next ≤ length (map arc_value configs.now.items) }
    ensures { GoesOn (map arc_value configs.now.items) next (map config_of (announced_at config.now (place ∷ []))) result }
{
    let _len = configs.len();
    if place >= config.count() {
        return Some(next);
    }
    if !is_copy(configs, next, &config.parts[place]) {
        return None;
    }
    Some(next + 1)
}

/// Whether a block is this one of a frame.
fn is_same_block(copy: &SharedBlock, frame: &DataFrame, place: usize) -> bool
    requires place { place < length frame.now.config.parts }
    ensures { Decides result (copy.now ≡ piece_of frame.now place) }
{
    copy.quality() == frame.quality && copy.bytes() == frame.block(place)
}

/// Whether copy i is one of this block of a frame.
fn is_block(
    blocks: &HeapCircularBuffer<SharedBlock>,
    i: usize,
    frame: &DataFrame,
    place: usize,
) -> bool
    requires place { place < length frame.now.config.parts }
    ensures { Decides result (slice_get blocks.now.items i ≡ Some (piece_of frame.now place)) }
{
    match blocks.get(i) {
        Some(copy) => is_same_block(copy, frame, place),
        None => false,
    }
}

/// Where the copies go on behind that of a block, where the frame has it and it is a member's; or that does not lie next.
fn after_block(
    definition: &Definition,
    frame: &DataFrame,
    place: usize,
    blocks: &HeapCircularBuffer<SharedBlock>,
    next: usize,
) -> Option<usize>
    requires within { next ≤ length blocks.now.items }
    ensures { GoesOn blocks.now.items next (map piece_of_placed (placed definition.now.members frame.now.quality (samples_at frame.now (place ∷ [])))) result }
{
    let count = frame.count();
    if place >= count {
        return Some(next);
    }
    let key = frame.key(place);
    after_own_block(definition, &key, frame, place, blocks, next)
}

/// Where the copies go on behind that of a PMU's block, where it is a member's; or that does not lie next.
fn after_own_block(
    definition: &Definition,
    key: &PmuKey,
    frame: &DataFrame,
    place: usize,
    blocks: &HeapCircularBuffer<SharedBlock>,
    next: usize,
) -> Option<usize>
    requires place { place < length frame.now.config.parts }
    requires within { next ≤ length blocks.now.items }
    ensures { GoesOn blocks.now.items next (map piece_of_placed (with_place (place_of definition.now.members key.now) (piece_of frame.now place) [])) result }
{
    let _len = blocks.len();
    let Some(_member) = place_in(definition, key) else {
        return Some(next);
    };
    if !is_block(blocks, next, frame, place) {
        return None;
    }
    Some(next + 1)
}

/// Where the copies go on behind those of the blocks that are members'; or these do not lie next.
pub(crate) fn after_members(
    definition: &Definition,
    frame: &DataFrame,
    places: &[usize],
    blocks: &HeapCircularBuffer<SharedBlock>,
    next: usize,
) -> Option<usize>
    requires within { next ≤ length blocks.now.items }
    ensures { GoesOn blocks.now.items next (map piece_of_placed (placed definition.now.members frame.now.quality (samples_at frame.now places.now))) result }
{
    let mut at = next;
    for place in places {
        let Some(after) = after_block(definition, frame, *place, blocks, at) else {
            return None;
        };
        at = after;
    }
    Some(at)
}

/// Whether just those copies lie there that the streams ask for.
pub(crate) fn are_wanted(
    frame: &DataFrame,
    places: &[usize],
    streams: &[Stream],
    blocks: &HeapCircularBuffer<SharedBlock>,
) -> bool
    ensures { Decides result (blocks.now.items ≡ all_wanted streams.now frame.now.quality (samples_at frame.now places.now)) }
{
    let Some(at) = after_wanted(frame, places, streams, blocks) else {
        return false;
    };
    if at != blocks.len() {
        return false;
    }
    true
}

/// Where the copies go on behind those that the streams ask for; or these do not lie in front.
fn after_wanted(
    frame: &DataFrame,
    places: &[usize],
    streams: &[Stream],
    blocks: &HeapCircularBuffer<SharedBlock>,
) -> Option<usize>
    ensures { GoesOn blocks.now.items 0 (all_wanted streams.now frame.now.quality (samples_at frame.now places.now)) result }
{
    let mut at = 0;
    for s in streams {
        let Some(after) = s.after_copies(frame, places, blocks, at) else {
            return None;
        };
        at = after;
    }
    Some(at)
}
