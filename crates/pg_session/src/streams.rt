//! What an event is to all streams of a subscriber, in the order of their definition.

ghost use Rattle.std.specs.Prelude.{◌≡◌, ◌+◌, ◌*◌, ◌<◌, ◌≤◌, ◌^◌, ◌++◌, [], ◌∷◌, List, length, map, drop, replicate, not, All, ◌==◌, filter, option_map, slice_get, vec_len, vec_capacity};
ghost use Rattle.pg_data.specs.Pieces.{piece_of};
ghost use Rattle.pg_session.specs.Events.{samples_at};
ghost use Rattle.pg_session.specs.Shape.{same_list};
ghost use Rattle.pg_session.specs.Changing.{IsOfParts, list_after};
ghost use Rattle.pg_session.specs.Streams.{measure_turn, reshape_turn, tick_turn};
ghost use Rattle.pg_session.specs.Private.{stopped, stream_at, at_stream, switched};
ghost use Rattle.pg_session.specs.Sending.{Sending};
ghost use Rattle.pg_session.specs.Taking.{Taken};
ghost use Rattle.pg_session.specs.Kept.{by_slots, by_gaps};
ghost use Rattle.pg_session.specs.Fields.{AreListed, AreFitted, all_kept, NeedNoCopies, stream_after};
ghost use Rattle.pg_session.specs.Filling.{all_fill};
ghost use Rattle.pg_session.specs.Wanted.{all_wanted};
ghost use Rattle.pg_session.specs.Standing.{stream_standing};

use crate::change::Change;
use crate::output::Output;
use crate::standing::{MemberPlace, StreamStanding};
use crate::stream::Stream;
use circular_buffer::HeapCircularBuffer;
use pg_data::{DataFrame, SharedBlock};
use pg_entitle::Grants;
use pg_outcfg::{ConfigList, StampCache};
use std::alloc::Global;

/// The CFG-1 list is about to change: each stream whose effective blocks change is flushed by the list as it is.
pub(crate) fn reshape_all<'a>(
    alloc: Global,
    listed: &'a ConfigList,
    change: &'a Change<'a>,
    counts: bool,
    streams: &mut [Stream],
    output: &mut Output,
)
    requires places { IsOfParts change.now }
    requires counts { counts ≡ not (same_list listed.now (list_after listed.now change.now)) }
    requires streams { length streams.old ≤ 8 }
    requires few { output.old.kept ≤ output.old.made }
    requires bounded { output.old.made ≤ 1000 }
    ensures streams { streams.new ≡ map (λ s. stream_after (reshape_turn by_slots listed.now (list_after listed.now change.now) s)) streams.old }
    ensures taken { Taken (map (reshape_turn by_slots listed.now (list_after listed.now change.now)) streams.old) output.old output.new }
    ensures bounded { output.new.made ≤ output.old.made + 640 }
{
    for s in streams.iter_mut() {
        s.reshape(alloc, listed, change, counts, output);
    }
}

/// A tick: what is due leaves, stream after stream.
pub(crate) fn tick_all(
    alloc: Global,
    listed: &ConfigList,
    streams: &mut [Stream],
    output: &mut Output,
)
    requires streams { length streams.old ≤ 8 }
    requires few { output.old.kept ≤ output.old.made }
    requires bounded { output.old.made ≤ 1000 }
    ensures streams { streams.new ≡ map (λ s. stream_after (tick_turn by_slots listed.now s)) streams.old }
    ensures taken { Taken (map (tick_turn by_slots listed.now) streams.old) output.old output.new }
    ensures bounded { output.new.made ≤ output.old.made + 640 }
{
    for s in streams.iter_mut() {
        s.tick(alloc, listed, output);
    }
}

/// Blocks of a data frame arrive at the streams that have them as members', and what is to leave leaves, stream after stream.
#[inline(never)]
pub(crate) fn measure_all(
    alloc: Global,
    listed: &ConfigList,
    frame: &DataFrame,
    places: &[usize],
    streams: &mut [Stream],
    blocks: &mut HeapCircularBuffer<SharedBlock>,
    stamps: &mut StampCache,
    output: &mut Output,
)
    requires places { All (λ i. i < length frame.now.config.parts) places.now }
    requires few_places { length places.now ≤ 16 }
    requires listed { AreListed listed.now (samples_at frame.now places.now) }
    requires fitted { AreFitted listed.now streams.old }
    requires ready { blocks.old.items ≡ all_wanted streams.old frame.now.quality (samples_at frame.now places.now) }
    requires streams { length streams.old ≤ 8 }
    requires few { output.old.kept ≤ output.old.made }
    requires bounded { output.old.made ≤ 1000 }
    ensures streams { streams.new ≡ map (λ s. stream_after (measure_turn by_slots listed.now frame.now.soc frame.now.quality frame.now.frac (samples_at frame.now places.now) s)) streams.old }
    ensures taken { Taken (map (measure_turn by_slots listed.now frame.now.soc frame.now.quality frame.now.frac (samples_at frame.now places.now)) streams.old) output.old output.new }
    ensures blocks { blocks.new.items ≡ [] }
    ensures capacity { blocks.new.capacity ≡ blocks.old.capacity }
    ensures bounded { output.new.made ≤ output.old.made + 640 }
{
    for s in streams.iter_mut() {
        s.measure(alloc, listed, frame, places, blocks, stamps, output);
    }
}

/// The same where the blocks leave no slot of a stream open behind them, so that no copies are asked for.
#[inline(never)]
pub(crate) fn measure_all_filled(
    alloc: Global,
    listed: &ConfigList,
    frame: &DataFrame,
    places: &[usize],
    streams: &mut [Stream],
    stamps: &mut StampCache,
    output: &mut Output,
)
    requires places { All (λ i. i < length frame.now.config.parts) places.now }
    requires listed { AreListed listed.now (samples_at frame.now places.now) }
    requires fitted { AreFitted listed.now streams.old }
    requires filled { NeedNoCopies frame.now.soc frame.now.quality frame.now.frac (samples_at frame.now places.now) streams.old }
    requires streams { length streams.old ≤ 8 }
    requires few { output.old.kept ≤ output.old.made }
    requires bounded { output.old.made ≤ 1000 }
    ensures streams { streams.new ≡ map (λ s. stream_after (measure_turn by_slots listed.now frame.now.soc frame.now.quality frame.now.frac (samples_at frame.now places.now) s)) streams.old }
    ensures taken { Taken (map (measure_turn by_slots listed.now frame.now.soc frame.now.quality frame.now.frac (samples_at frame.now places.now)) streams.old) output.old output.new }
    ensures bounded { output.new.made ≤ output.old.made + 640 }
{
    for s in streams.iter_mut() {
        s.measure_filled(alloc, listed, frame, places, stamps, output);
    }
}

/// The same for a frame's only block, of which copies lie there, enough for all streams. Those that none keeps are given up.
#[inline(always)]
pub(crate) fn measure_all_one(
    alloc: Global,
    listed: &ConfigList,
    frame: &DataFrame,
    place: usize,
    streams: &mut [Stream],
    blocks: &mut HeapCircularBuffer<SharedBlock>,
    stamps: &mut StampCache,
    output: &mut Output,
)
    requires place { place < length frame.now.config.parts }
    requires listed { AreListed listed.now (samples_at frame.now (place ∷ [])) }
    requires fitted { AreFitted listed.now streams.old }
    requires copies { blocks.old.items ≡ replicate (length blocks.old.items) (piece_of frame.now place) }
    requires enough { all_kept streams.old frame.now.quality (samples_at frame.now (place ∷ [])) ≤ length blocks.old.items }
    requires streams { length streams.old ≤ 8 }
    requires few { output.old.kept ≤ output.old.made }
    requires bounded { output.old.made ≤ 1000 }
    ensures streams { streams.new ≡ map (λ s. stream_after (measure_turn by_slots listed.now frame.now.soc frame.now.quality frame.now.frac (samples_at frame.now (place ∷ [])) s)) streams.old }
    ensures taken { Taken (map (measure_turn by_slots listed.now frame.now.soc frame.now.quality frame.now.frac (samples_at frame.now (place ∷ []))) streams.old) output.old output.new }
    ensures blocks { blocks.new.items ≡ [] }
    ensures capacity { blocks.new.capacity ≡ blocks.old.capacity }
    ensures bounded { output.new.made ≤ output.old.made + 640 }
{
    for s in streams.iter_mut() {
        s.measure_one(alloc, listed, frame, place, blocks, stamps, output);
    }
    give_up(blocks);
}

/// Gives up the copies that lie there. Mostly none do.
#[inline(always)]
fn give_up(blocks: &mut HeapCircularBuffer<SharedBlock>)
    ensures blocks { blocks.new.items ≡ [] }
    ensures capacity { blocks.new.capacity ≡ blocks.old.capacity }
{
    if !blocks.is_empty() {
        blocks.clear();
    }
}

/// Whether the blocks leave no slot of a stream open behind them.
#[inline(always)]
pub(crate) fn are_filled(
    frame: &DataFrame,
    places: &[usize],
    streams: &[Stream],
    stamps: &mut StampCache,
) -> bool
    requires places { All (λ i. i < length frame.now.config.parts) places.now }
    ensures { result ≡ all_fill streams.now frame.now.soc frame.now.quality frame.now.frac (samples_at frame.now places.now) }
{
    for s in streams {
        if !s.is_filled(frame, places, stamps) {
            return false;
        }
    }
    true
}

/// All streams are switched off, and their open slots discarded.
pub(crate) fn stop_all(streams: &mut [Stream])
    ensures { streams.new ≡ map (stopped by_slots by_gaps) streams.old }
{
    for s in streams.iter_mut() {
        s.stop();
    }
}

/// The stream of a number.
pub(crate) fn stream_of(streams: &[Stream], number: u16) -> Option<&Stream>
    ensures { option_map (λ s. s.now) result ≡ stream_at streams.now number }
{
    for s in streams {
        if s.number().get() == number {
            return Some(s);
        }
    }
    None
}

/// How the stream and the member at a place stand, by these grants and this CFG-1 list.
pub(crate) fn stream_standing_at(
    streams: &[Stream],
    place: MemberPlace,
    grants: &Grants,
    listed: &ConfigList,
) -> Option<StreamStanding>
    ensures { result ≡ option_map (stream_standing by_slots grants.now listed.now place.member) (slice_get streams.now place.stream) }
{
    match streams.get(usize::from(place.stream)) {
        None => None,
        Some(s) => Some(s.standing(grants, listed, place.member)),
    }
}

/// The streams of a number are removed.
pub(crate) fn remove_streams(streams: &mut Vec<Stream>, number: u16)
    ensures list { streams.new.items ≡ filter (λ s. not (s.definition.stream == number)) streams.old.items }
    ensures few { vec_len streams.new ≤ vec_len streams.old }
    ensures room { vec_capacity streams.new ≡ vec_capacity streams.old }
{
    streams.retain(|s| s.number().get() != number);
}

/// The word of a command switches the streams of a number: 1 off, 2 on.
pub(crate) fn switch_streams(streams: &mut [Stream], number: u16, word: u16)
    ensures { streams.new ≡ map (at_stream by_slots by_gaps number (switched by_slots by_gaps word)) streams.old }
{
    for s in streams.iter_mut() {
        switch_if(s, number, word);
    }
}

/// Switches a stream, where it has this number.
fn switch_if(s: &mut Stream, number: u16, word: u16)
    ensures { s.new ≡ at_stream by_slots by_gaps number (switched by_slots by_gaps word) s.old }
{
    if s.number().get() == number {
        match word {
            1 => s.stop(),
            2 => s.start(),
            _ => {}
        }
    }
}
