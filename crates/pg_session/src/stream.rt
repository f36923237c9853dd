//! One stream of a subscriber.

ghost use Rattle.std.specs.Prelude.{◌≡◌, ◌+◌, ◌<◌, ◌≤◌, ◌^◌, ◌++◌, ◌∷◌, [], ℕ, List, length, map, drop, replicate, not, All, IfOk, IfErr, IfSome, OnOk, IsOk, IsTrue, IsSome, Ok, is_some, option_map, ◌/◌, if◌then◌else◌, true, false};
ghost use Rattle.std.specs.Arc.{arc_value};
ghost use Rattle.circular_buffer.specs.Buffer.{Buffer};
ghost use Rattle.pg_data.specs.Pieces.{Piece, piece_of};
ghost use Rattle.pg_stream.specs.Limits.{IsWithinLimits};
ghost use Rattle.pg_align.specs.Slots.{none_open, with_shape, with_start, with_none, with_last, head_with};
ghost use Rattle.pg_outcfg.specs.Listing.{config_at};
ghost use Rattle.pg_outcfg.specs.Ordered.{AreBlocks, AreMembers, pieces_in};
ghost use Rattle.pg_outcfg.specs.Frames.{changed, header_frame, cfg1_frame, cfg2_frame};
ghost use Rattle.pg_session.specs.Events.{samples_at};
ghost use Rattle.pg_session.specs.Shape.{same_list, same_shape};
ghost use Rattle.pg_session.specs.Changing.{IsOfParts, list_after};
ghost use Rattle.pg_session.specs.Streams.{StreamOf, place_of, placed, effective_in, first_layout, frame_len, slot_frame, reshape_turn, tick_turn, measure_turn};
ghost use Rattle.pg_session.specs.Private.{stopped, started};
ghost use Rattle.pg_session.specs.Sending.{Sending, Sends};
ghost use Rattle.pg_session.specs.Kept.{by_slots, by_gaps};
ghost use Rattle.pg_session.specs.Ready.{GoesOn};
ghost use Rattle.pg_session.specs.Fields.{IsStream, AreListed, NeedsNoCopy, kept_of, turn_stats, with_stats};
ghost use Rattle.pg_session.specs.Filling.{can_leave, fills, may_keep};
ghost use Rattle.pg_stream.specs.Slots.{slot_at};
ghost use Rattle.pg_data.specs.Measurements.{resolution};
ghost use Rattle.pg_session.specs.Wanted.{wanted_of};
ghost use Rattle.pg_session.specs.Standing.{stream_standing};

use crate::accepting::after_members;
use crate::arriving::{arrive_all_in, arrive_one, count_placed, has_placed, pass_all};
use crate::change::{Change, config_of};
use crate::copying::{copy_members, prepare_copy};
use crate::filling::{Brought, place_all, place_one, send_filled};
use crate::layouts::{Layouts, frame_len, frame_len_after};
use crate::leaving::{flush_all, leave_all};
use crate::output::Output;
use crate::standing::{StreamStanding, count_effective, member_standing};
use circular_buffer::HeapCircularBuffer;
use pg_align::Align;
use pg_data::{DataFrame, SharedBlock};
use pg_entitle::Grants;
use pg_outcfg::{ConfigList, HeadPrefix, OutCfg, StampCache, header};
use pg_stream::Definition;
use pg_wire::{PmuKey, Refusal, StreamId};
use std::alloc::Global;
use std::marker::Model;
use std::sync::Arc;

/// The most members of a stream.
const MOST_MEMBERS: usize = 32;

/// A stream: its definition, its open slots, and the count of changes of the CFG-1 list since its definition. `prefix` is that of
/// its last data frame, a good guess for the next one, or of none where its effective members have changed since. `guess` is the index of
/// the member whose block is expected next.
#[derive(Drop)]
pub(crate) struct Stream {
    definition: Definition,
    align: Align,
    changes: OutCfg,
    prefix: HeadPrefix,
    guess: usize,
    layouts: Layouts,
}

impl Model for Stream {
    ghost use Rattle.pg_data.specs.Pieces.{Piece};
    ghost use Rattle.pg_align.specs.Slots.{Aligned};
    ghost use Rattle.pg_session.specs.Streams.{StreamOf};
    ghost use Rattle.pg_session.specs.Fields.{IsStream, AreListed, turn_stats, with_stats};
    ghost use Rattle.pg_session.specs.Wanted.{wanted_of};

    ghost Value = { StreamOf (Aligned Piece) };

    ghost view = { λ s. record { definition = s.definition; slots = s.align; count = s.changes; layouts = s.layouts } };

    ghost invariant = { λ s. IsStream (record { definition = s.definition; slots = s.align; count = s.changes; layouts = s.layouts }) };
}

/// Which members a CFG-1 list has.
fn mark_listed(listed: &ConfigList, members: &[PmuKey], effective: &mut [bool])
    requires { length effective.old ≡ length members.now }
    ensures { effective.new ≡ effective_in listed.now members.now }
{
    for (i, key) in members.iter().enumerate() {
        effective[i] = config_of(listed, key).is_some();
    }
}

/// Which members a CFG-1 list has after a change.
fn mark_changed<'a>(
    listed: &'a ConfigList,
    change: &'a Change<'a>,
    members: &[PmuKey],
    effective: &mut [bool],
)
    requires len { length effective.old ≡ length members.now }
    requires places { IsOfParts change.now }
    ensures { effective.new ≡ effective_in (list_after listed.now change.now) members.now }
{
    for (i, key) in members.iter().enumerate() {
        effective[i] = change.after(listed, key).is_some();
    }
}

/// The place of a PMU among the members of a stream.
pub(crate) fn place_in(definition: &Definition, key: &PmuKey) -> Option<usize>
    ensures { result ≡ place_of definition.now.members key.now }
{
    definition
        .members
        .as_slice()
        .iter()
        .position(|member| *member == *key)
}

/// The same for a PMU that is guessed to be the member at the place `next`: where it is, no other is looked at. `next` is then the
/// place behind the one where it was found, so that members which come in their order are found at once.
#[inline(always)]
pub(crate) fn place_next(definition: &Definition, key: &PmuKey, next: &mut usize) -> Option<usize>
    requires limits { IsWithinLimits definition.now }
    ensures { result ≡ place_of definition.now.members key.now }
{
    let guess = *next;
    if is_member_at(definition, key, guess) {
        *next = guess.wrapping_add(1);
        return Some(guess);
    }
    // A copy of its own, so that the key needs no place in memory where it is found above.
    let sought = *key;
    let place = place_near(definition, &sought, guess);
    if let Some(place) = place {
        *next = place.wrapping_add(1);
    }
    place
}

/// The same where the guess for the next frame is kept: behind the last member it is the first.
#[inline(always)]
fn place_near_guess(definition: &Definition, key: &PmuKey, guess: &mut usize) -> Option<usize>
    requires limits { IsWithinLimits definition.now }
    ensures { result ≡ place_of definition.now.members key.now }
{
    let mut next = *guess;
    let place = place_next(definition, key, &mut next);
    *guess = if next < definition.members.as_slice().len() {
        next
    } else {
        0
    };
    place
}

/// The same for a PMU that is not the member at the place `guess`, and may well be the one before it, or the first.
#[inline(never)]
fn place_near(definition: &Definition, key: &PmuKey, guess: usize) -> Option<usize>
    requires limits { IsWithinLimits definition.now }
    ensures { result ≡ place_of definition.now.members key.now }
{
    let before = guess.wrapping_sub(1);
    if is_member_at(definition, key, before) {
        return Some(before);
    }
    place_in(definition, key)
}

/// Whether a PMU is the member at a place.
#[inline(always)]
fn is_member_at(definition: &Definition, key: &PmuKey, at: usize) -> bool
    requires limits { IsWithinLimits definition.now }
    ensures { result ≡ true → place_of definition.now.members key.now ≡ Some at }
{
    let members = definition.members.as_slice();
    at < members.len() && members[at] == *key
}

/// Counts a change of the CFG-1 list, if it is one.
fn count_if(changes: &mut OutCfg, counts: bool)
    ensures { changes.new ≡ (if counts then changed changes.old else changes.old) }
{
    if counts {
        changes.changed();
    }
}

impl Stream {
    /// A stream that is off, whose effective members are those that the CFG-1 list has, of the definition of this number among
    /// those of its subscriber. It asks for a definition within the limits. The one refusal is `NoMemory`.
    pub fn new(
        alloc: Global,
        definition: Definition,
        listed: &ConfigList,
        number: u64,
    ) -> Result<Stream, Refusal>
        requires limits { IsWithinLimits definition }
        ensures stream { IfOk result (λ s. s ≡ record {
          definition = definition;
          slots = with_shape (none_open definition.window definition.wait (length definition.members)) (effective_in listed.now definition.members);
          count = 0;
          layouts = first_layout number (frame_len listed.now definition.members);
        }) }
        ensures memory { IfErr result (λ refusal. refusal ≡ Refusal.NoMemory) }
    {
        let mut align = Align::new(alloc, &definition)?;
        let members = definition.members.as_slice();
        let mut effective = [false; MOST_MEMBERS];
        let effective = &mut effective[..members.len()];
        mark_listed(listed, members, effective);
        align.reshape(effective);
        let layouts = Layouts::first(number, frame_len(listed, members));
        Ok(Stream {
            definition,
            align,
            changes: OutCfg::new(),
            prefix: HeadPrefix::new(),
            guess: 0,
            layouts,
        })
    }

    /// Its number.
    pub fn number(&self) -> StreamId
        ensures { result ≡ self.now.definition.stream }
    {
        self.definition.stream
    }

    /// Whether it is on.
    pub fn is_on(&self) -> bool
        ensures { result ≡ self.now.slots.is_on }
    {
        self.align.is_on()
    }

    /// How it stands, and the member at this place, by these grants and this CFG-1 list.
    pub fn standing(&self, grants: &Grants, listed: &ConfigList, member: u8) -> StreamStanding
        ensures { result ≡ stream_standing by_slots grants.now listed.now member self.now }
    {
        let members = self.definition.members.as_slice();
        let counts = self.align.counts();
        StreamStanding {
            stream: self.definition.stream,
            is_on: self.align.is_on(),
            effective: count_effective(listed, members),
            members: members.len() as u16,
            layouts: self.layouts,
            complete: counts.complete,
            waited: counts.waited,
            pushed: counts.pushed,
            changed: counts.changed,
            member: member_standing(grants, listed, counts, members, member),
        }
    }

    /// Switches it on, with no open slot. One that is on stays as it is.
    pub fn start(&mut self)
        ensures { self.new ≡ started by_slots by_gaps self.old }
    {
        self.align.start();
    }

    /// Switches it off, and discards its open slots.
    pub fn stop(&mut self)
        ensures { self.new ≡ stopped by_slots by_gaps self.old }
    {
        self.align.discard();
    }

    /// Whether a change of the CFG-1 list changes its effective members or their blocks, CFGCNT aside.
    fn is_reshaped<'a>(&self, listed: &'a ConfigList, change: &'a Change<'a>) -> bool
        requires places { IsOfParts change.now }
        ensures { result ≡ not (same_shape self.now.definition.members listed.now (list_after listed.now change.now)) }
    {
        for key in self.definition.members.as_slice() {
            if change.concerns(listed, key) {
                return true;
            }
        }
        false
    }

    /// The CFG-1 list is about to change. Where that changes the stream's effective blocks, its open slots all leave by the
    /// list as it is. `counts` says whether the list itself changes.
    pub fn reshape<'a>(
        &mut self,
        alloc: Global,
        listed: &'a ConfigList,
        change: &'a Change<'a>,
        counts: bool,
        output: &mut Output,
    )
        requires places { IsOfParts change.now }
        requires counts { counts ≡ not (same_list listed.now (list_after listed.now change.now)) }
        requires few { output.old.kept ≤ output.old.made }
        requires bounded { output.old.made < 2 ^ 31 }
        ensures stream { self.new ≡ (reshape_turn by_slots listed.now (list_after listed.now change.now) self.old).stream }
        ensures sends { Sends (reshape_turn by_slots listed.now (list_after listed.now change.now) self.old).frames output.old output.new }
        ensures bounded { output.new.made ≤ output.old.made + 64 }
    {
        count_if(&mut self.changes, counts);
        if self.is_reshaped(listed, change) {
            flush_all(
                alloc,
                &self.definition,
                listed,
                &mut self.align,
                &mut self.prefix,
                &mut StampCache::new(),
                output,
            );
            self.prefix = HeadPrefix::new();
            let members = self.definition.members.as_slice();
            let mut effective = [false; MOST_MEMBERS];
            let effective = &mut effective[..members.len()];
            mark_changed(listed, change, members, effective);
            self.align.reshape(effective);
            self.layouts
                .change_to(frame_len_after(listed, change, members));
        }
    }

    /// A tick: what is due then leaves. Nothing where it is off.
    pub fn tick(&mut self, alloc: Global, listed: &ConfigList, output: &mut Output)
        requires few { output.old.kept ≤ output.old.made }
        requires bounded { output.old.made < 2 ^ 31 }
        ensures stream { self.new ≡ (tick_turn by_slots listed.now self.old).stream }
        ensures sends { Sends (tick_turn by_slots listed.now self.old).frames output.old output.new }
        ensures bounded { output.new.made ≤ output.old.made + 64 }
    {
        if self.align.is_on() {
            self.align.tick();
            leave_all(
                alloc,
                &self.definition,
                listed,
                &mut self.align,
                &mut self.prefix,
                &mut StampCache::new(),
                output,
            );
        }
    }

    /// Those blocks of a data frame that are members' arrive, and then what is to leave leaves. Nothing where the stream is off, or
    /// no block is a member's. The copies of these blocks are taken from the front of `blocks`.
    pub fn measure(
        &mut self,
        alloc: Global,
        listed: &ConfigList,
        frame: &DataFrame,
        places: &[usize],
        blocks: &mut HeapCircularBuffer<SharedBlock>,
        stamps: &mut StampCache,
        output: &mut Output,
    )
        requires places { All (λ i. i < length frame.now.config.parts) places.now }
        requires few { length places.now ≤ 16 }
        requires listed { AreListed listed.now (samples_at frame.now places.now) }
        requires effective { self.old.slots.effective ≡ effective_in listed.now self.old.definition.members }
        requires ready { blocks.old.items ≡ wanted_of self.old frame.now.quality (samples_at frame.now places.now)
            ++ drop (length (wanted_of self.old frame.now.quality (samples_at frame.now places.now))) blocks.old.items }
        requires kept { output.old.kept ≤ output.old.made }
        requires bounded { output.old.made < 2 ^ 31 }
        ensures stream { self.new ≡ (measure_turn by_slots listed.now frame.now.soc frame.now.quality frame.now.frac (samples_at frame.now places.now) self.old).stream }
        ensures sends { Sends (measure_turn by_slots listed.now frame.now.soc frame.now.quality frame.now.frac (samples_at frame.now places.now) self.old).frames
            (with_stats output.old (turn_stats (measure_turn by_slots listed.now frame.now.soc frame.now.quality frame.now.frac (samples_at frame.now places.now) self.old) output.old.output.stats))
            output.new }
        ensures blocks { blocks.new.items ≡ drop (length (wanted_of self.old frame.now.quality (samples_at frame.now places.now))) blocks.old.items }
        ensures capacity { blocks.new.capacity ≡ blocks.old.capacity }
        ensures bounded { output.new.made ≤ output.old.made + 80 }
    {
        if !self.align.is_on() {
            return;
        }
        match stamps.slot_of(self.definition.rate, frame.base(), frame.soc, frame.frac) {
            Ok(slot) => {
                let some = arrive_all_in(
                    &self.definition,
                    frame,
                    places,
                    slot,
                    &mut self.guess,
                    &mut self.align,
                    blocks,
                    output,
                );
                if !some {
                    return;
                }
                leave_all(
                    alloc,
                    &self.definition,
                    listed,
                    &mut self.align,
                    &mut self.prefix,
                    stamps,
                    output,
                );
            }
            Err(_) => {
                if !has_placed(&self.definition, frame, places, self.guess) {
                    return;
                }
                let count = count_placed(&self.definition, frame, places);
                pass_all(count, blocks, output);
            }
        }
    }

    /// Whether those blocks of a data frame leave no slot open behind them: no slot is open, and they are no member's, or those of all
    /// members for a slot that is not late. So it is with a stream that is off. It asks for no copies then.
    #[inline(always)]
    pub fn is_filled(&self, frame: &DataFrame, places: &[usize], stamps: &mut StampCache) -> bool
        requires places { All (λ i. i < length frame.now.config.parts) places.now }
        ensures { result ≡ fills self.now frame.now.soc frame.now.quality frame.now.frac (samples_at frame.now places.now) }
    {
        if !self.align.is_on() {
            return true;
        }
        if self.align.open_slots() > 0 {
            return false;
        }
        let _count = frame.count();
        let mut order = [None; MOST_MEMBERS];
        let order = &mut order[..self.definition.members.as_slice().len()];
        let mut next = self.guess;
        match place_all(&self.definition, frame, places, &mut next, order) {
            Brought::Nothing => true,
            Brought::Some => false,
            Brought::All => self.slot_for(frame, stamps).is_some(),
        }
    }

    /// The slot of a data frame, if it is not late and not past the end of time.
    #[inline(always)]
    fn slot_for(&self, frame: &DataFrame, stamps: &mut StampCache) -> Option<u64>
        ensures some { IfSome result (λ slot. slot_at self.now.definition.rate (resolution frame.now.config) frame.now.soc frame.now.frac ≡ Ok slot) }
        ensures timed { IfSome result (λ slot. slot / self.now.definition.rate < 2 ^ 32) }
        ensures value { is_some result ≡ can_leave self.now.slots.last (slot_at self.now.definition.rate (resolution frame.now.config) frame.now.soc frame.now.frac) }
    {
        match stamps.slot_of(self.definition.rate, frame.base(), frame.soc, frame.frac) {
            Ok(slot) if self.align.is_after_last(slot) => Some(slot),
            _ => None,
        }
    }

    /// The same as `measure`, for blocks that leave no slot open behind them, or of which none is a member's. No copies are asked for.
    #[inline(always)]
    pub fn measure_filled(
        &mut self,
        alloc: Global,
        listed: &ConfigList,
        frame: &DataFrame,
        places: &[usize],
        stamps: &mut StampCache,
        output: &mut Output,
    )
        requires places { All (λ i. i < length frame.now.config.parts) places.now }
        requires listed { AreListed listed.now (samples_at frame.now places.now) }
        requires effective { self.old.slots.effective ≡ effective_in listed.now self.old.definition.members }
        requires filled { NeedsNoCopy self.old frame.now.soc frame.now.quality frame.now.frac (samples_at frame.now places.now) }
        requires kept { output.old.kept ≤ output.old.made }
        requires bounded { output.old.made < 2 ^ 31 }
        ensures stream { self.new ≡ (measure_turn by_slots listed.now frame.now.soc frame.now.quality frame.now.frac (samples_at frame.now places.now) self.old).stream }
        ensures sends { Sends (measure_turn by_slots listed.now frame.now.soc frame.now.quality frame.now.frac (samples_at frame.now places.now) self.old).frames
            (with_stats output.old (turn_stats (measure_turn by_slots listed.now frame.now.soc frame.now.quality frame.now.frac (samples_at frame.now places.now) self.old) output.old.output.stats))
            output.new }
        ensures bounded { output.new.made ≤ output.old.made + 80 }
    {
        if !self.align.is_on() {
            return;
        }
        let _count = frame.count();
        let mut order = [None; MOST_MEMBERS];
        let order = &mut order[..self.definition.members.as_slice().len()];
        let Brought::All = place_all(&self.definition, frame, places, &mut self.guess, order) else {
            return;
        };
        let Some(slot) = self.slot_for(frame, stamps) else {
            unreachable!();
        };
        self.leave_filled(alloc, listed, slot, frame, order, stamps, output);
    }

    /// Whether a frame's only block may stay with it: it is on, and has several members or an open slot. Else that block leaves at once,
    /// if it is the member's.
    #[inline(always)]
    fn may_keep(&self) -> bool
        ensures { result ≡ may_keep self.now }
    {
        self.align.is_on()
            && (self.definition.members.as_slice().len() > 1 || self.align.open_slots() > 0)
    }

    /// Prepares a copy of a frame's only block, where that may stay with it. The one refusal is `NoMemory`.
    #[inline(always)]
    pub fn prepare_one(
        &self,
        frame: &Arc<DataFrame>,
        place: usize,
        blocks: &mut HeapCircularBuffer<SharedBlock>,
    ) -> Result<(), Refusal>
        requires place { place < length (arc_value frame.now).config.parts }
        requires room { length blocks.old.items < blocks.old.capacity }
        ensures prepared { OnOk result (blocks.new.items ≡ blocks.old.items ++ replicate (if may_keep self.now then 1 else 0) (piece_of (arc_value frame.now) place)) }
        ensures few { OnOk result (length blocks.new.items ≤ length blocks.old.items + 1) }
        ensures capacity { blocks.new.capacity ≡ blocks.old.capacity }
    {
        if !self.may_keep() {
            return Ok(());
        }
        prepare_copy(frame, place, blocks)?;
        Ok(())
    }

    /// The same as `measure`, for a frame's only block, of which copies lie there. It takes one where the block stays.
    #[inline(always)]
    pub fn measure_one(
        &mut self,
        alloc: Global,
        listed: &ConfigList,
        frame: &DataFrame,
        place: usize,
        blocks: &mut HeapCircularBuffer<SharedBlock>,
        stamps: &mut StampCache,
        output: &mut Output,
    )
        requires place { place < length frame.now.config.parts }
        requires listed { AreListed listed.now (samples_at frame.now (place ∷ [])) }
        requires effective { self.old.slots.effective ≡ effective_in listed.now self.old.definition.members }
        requires copies { blocks.old.items ≡ replicate (length blocks.old.items) (piece_of frame.now place) }
        requires enough { kept_of self.old frame.now.quality (samples_at frame.now (place ∷ [])) ≤ length blocks.old.items }
        requires kept { output.old.kept ≤ output.old.made }
        requires bounded { output.old.made < 2 ^ 31 }
        ensures stream { self.new ≡ (measure_turn by_slots listed.now frame.now.soc frame.now.quality frame.now.frac (samples_at frame.now (place ∷ [])) self.old).stream }
        ensures sends { Sends (measure_turn by_slots listed.now frame.now.soc frame.now.quality frame.now.frac (samples_at frame.now (place ∷ [])) self.old).frames
            (with_stats output.old (turn_stats (measure_turn by_slots listed.now frame.now.soc frame.now.quality frame.now.frac (samples_at frame.now (place ∷ [])) self.old) output.old.output.stats))
            output.new }
        ensures copies { blocks.new.items ≡ replicate (length blocks.new.items) (piece_of frame.now place) }
        ensures left { length blocks.old.items ≤ length blocks.new.items + kept_of self.old frame.now.quality (samples_at frame.now (place ∷ [])) }
        ensures capacity { blocks.new.capacity ≡ blocks.old.capacity }
        ensures bounded { output.new.made ≤ output.old.made + 80 }
    {
        if !self.align.is_on() {
            return;
        }
        if self.may_keep() {
            self.keep_one(alloc, listed, frame, place, blocks, stamps, output);
        } else {
            self.pass_one(alloc, listed, frame, place, stamps, output);
        }
    }

    /// The same, where it is on and the block may stay.
    #[inline(always)]
    fn keep_one(
        &mut self,
        alloc: Global,
        listed: &ConfigList,
        frame: &DataFrame,
        place: usize,
        blocks: &mut HeapCircularBuffer<SharedBlock>,
        stamps: &mut StampCache,
        output: &mut Output,
    )
        requires on { self.old.slots.is_on ≡ true }
        requires place { place < length frame.now.config.parts }
        requires listed { AreListed listed.now (samples_at frame.now (place ∷ [])) }
        requires effective { self.old.slots.effective ≡ effective_in listed.now self.old.definition.members }
        requires copies { blocks.old.items ≡ replicate (length blocks.old.items) (piece_of frame.now place) }
        requires enough { length (placed self.old.definition.members frame.now.quality (samples_at frame.now (place ∷ []))) ≤ length blocks.old.items }
        requires kept { output.old.kept ≤ output.old.made }
        requires bounded { output.old.made < 2 ^ 31 }
        ensures stream { self.new ≡ (measure_turn by_slots listed.now frame.now.soc frame.now.quality frame.now.frac (samples_at frame.now (place ∷ [])) self.old).stream }
        ensures sends { Sends (measure_turn by_slots listed.now frame.now.soc frame.now.quality frame.now.frac (samples_at frame.now (place ∷ [])) self.old).frames
            (with_stats output.old (turn_stats (measure_turn by_slots listed.now frame.now.soc frame.now.quality frame.now.frac (samples_at frame.now (place ∷ [])) self.old) output.old.output.stats))
            output.new }
        ensures copies { blocks.new.items ≡ replicate (length blocks.new.items) (piece_of frame.now place) }
        ensures left { length blocks.old.items ≤ length blocks.new.items + length (placed self.old.definition.members frame.now.quality (samples_at frame.now (place ∷ []))) }
        ensures capacity { blocks.new.capacity ≡ blocks.old.capacity }
        ensures bounded { output.new.made ≤ output.old.made + 80 }
    {
        let _count = frame.count();
        let Some(member) = place_near_guess(&self.definition, &frame.key(place), &mut self.guess)
        else {
            return;
        };
        match stamps.slot_of(self.definition.rate, frame.base(), frame.soc, frame.frac) {
            Ok(slot) => {
                let Some(block) = blocks.pop_back() else {
                    unreachable!();
                };
                arrive_one(&mut self.align, slot, member, block, output);
                leave_all(
                    alloc,
                    &self.definition,
                    listed,
                    &mut self.align,
                    &mut self.prefix,
                    stamps,
                    output,
                );
            }
            Err(_) => output.count_past(),
        }
    }

    /// The same, where it is on, has one member and no open slot: the block leaves at once, or is counted.
    #[inline(always)]
    fn pass_one(
        &mut self,
        alloc: Global,
        listed: &ConfigList,
        frame: &DataFrame,
        place: usize,
        stamps: &mut StampCache,
        output: &mut Output,
    )
        requires on { self.old.slots.is_on ≡ true }
        requires keeps { may_keep self.old ≡ false }
        requires place { place < length frame.now.config.parts }
        requires listed { AreListed listed.now (samples_at frame.now (place ∷ [])) }
        requires effective { self.old.slots.effective ≡ effective_in listed.now self.old.definition.members }
        requires kept { output.old.kept ≤ output.old.made }
        requires bounded { output.old.made < 2 ^ 31 }
        ensures stream { self.new ≡ (measure_turn by_slots listed.now frame.now.soc frame.now.quality frame.now.frac (samples_at frame.now (place ∷ [])) self.old).stream }
        ensures sends { Sends (measure_turn by_slots listed.now frame.now.soc frame.now.quality frame.now.frac (samples_at frame.now (place ∷ [])) self.old).frames
            (with_stats output.old (turn_stats (measure_turn by_slots listed.now frame.now.soc frame.now.quality frame.now.frac (samples_at frame.now (place ∷ [])) self.old) output.old.output.stats))
            output.new }
        ensures bounded { output.new.made ≤ output.old.made + 80 }
    {
        let _count = frame.count();
        let members = self.definition.members.as_slice();
        let mut order = [None];
        let Brought::All = place_one(&members[0], frame, place, &mut order) else {
            return;
        };
        match stamps.slot_of(self.definition.rate, frame.base(), frame.soc, frame.frac) {
            Ok(slot) if self.align.is_after_last(slot) => {
                self.leave_filled(alloc, listed, slot, frame, &order, stamps, output);
            }
            Ok(_) => {
                self.align.note_late(0);
                output.count_late();
            }
            Err(_) => output.count_past(),
        }
    }

    /// A slot leaves for which a frame brought the blocks of all members, where none is open.
    #[inline(always)]
    fn leave_filled(
        &mut self,
        alloc: Global,
        listed: &ConfigList,
        slot: u64,
        frame: &DataFrame,
        order: &[Option<u8>],
        stamps: &mut StampCache,
        output: &mut Output,
    )
        requires none_open { self.old.slots.slots ≡ [] }
        requires time { slot / self.old.definition.rate < 2 ^ 32 }
        requires members { length order.now ≡ length self.old.definition.members }
        requires blocks { AreBlocks (length frame.now.config.parts) order.now }
        requires listed { AreMembers listed.now self.old.definition.members }
        requires few { output.old.kept ≤ output.old.made }
        requires bounded { output.old.made < 2 ^ 32 }
        ensures stream { self.new ≡ record self.old { slots = with_last self.old.slots slot } }
        ensures sends { Sends (slot_frame self.old.definition listed.now (head_with slot (pieces_in frame.now order.now)) ∷ []) output.old output.new }
    {
        self.align.leave_at_once(slot);
        send_filled(
            alloc,
            &self.definition,
            listed,
            slot,
            frame,
            order,
            &mut self.prefix,
            stamps,
            output,
        );
    }

    /// If the stream is on, takes a reference to the block of each of its members. The one refusal is `NoMemory`; some references may then
    /// have been taken.
    #[inline(always)]
    pub fn prepare_copies(
        &self,
        frame: &Arc<DataFrame>,
        places: &[usize],
        blocks: &mut HeapCircularBuffer<SharedBlock>,
    ) -> Result<(), Refusal>
        requires places { All (λ i. i < length (arc_value frame.now).config.parts) places.now }
        requires room { length blocks.old.items + length places.now ≤ blocks.old.capacity }
        ensures prepared { OnOk result (blocks.new.items ≡ blocks.old.items ++ wanted_of self.now (arc_value frame.now).quality (samples_at (arc_value frame.now) places.now)) }
        ensures few { length blocks.new.items ≤ length blocks.old.items + length places.now }
        ensures needless { wanted_of self.now (arc_value frame.now).quality (samples_at (arc_value frame.now) places.now) ≡ [] → IsOk result }
        ensures capacity { blocks.new.capacity ≡ blocks.old.capacity }
        ensures memory { IfErr result (λ refusal. refusal ≡ Refusal.NoMemory) }
    {
        if !self.align.is_on() {
            return Ok(());
        }
        copy_members(&self.definition, frame, places, self.guess, blocks)?;
        Ok(())
    }

    /// Where the copies go on behind those that it asks for; or these do not lie next.
    pub fn after_copies(
        &self,
        frame: &DataFrame,
        places: &[usize],
        blocks: &HeapCircularBuffer<SharedBlock>,
        next: usize,
    ) -> Option<usize>
        requires within { next ≤ length blocks.now.items }
        ensures { GoesOn blocks.now.items next (wanted_of self.now frame.now.quality (samples_at frame.now places.now)) result }
    {
        if !self.align.is_on() {
            return Some(next);
        }
        after_members(&self.definition, frame, places, blocks, next)
    }

    /// Its header frame, with this SOC. The one refusal is `NoMemory`.
    pub fn header(&self, alloc: Global, soc: u32) -> Result<Vec<u8>, Refusal>
        ensures frame { IfOk result (λ v. v.items ≡ header_frame self.now.definition soc) }
        ensures bytes { IfOk result (λ v. 0 < length v.items) }
        ensures memory { IfErr result (λ refusal. refusal ≡ Refusal.NoMemory) }
    {
        header(alloc, &self.definition, soc)
    }

    /// Its CFG-1, with this SOC. The one refusal is `NoMemory`.
    pub fn cfg1(&self, alloc: Global, soc: u32, listed: &ConfigList) -> Result<Vec<u8>, Refusal>
        ensures frame { IfOk result (λ v. v.items ≡ cfg1_frame self.now.definition self.now.count soc listed.now) }
        ensures bytes { IfOk result (λ v. 0 < length v.items) }
        ensures memory { IfErr result (λ refusal. refusal ≡ Refusal.NoMemory) }
    {
        self.changes.cfg1(alloc, &self.definition, soc, listed)
    }

    /// Its CFG-2, with this SOC. The one refusal is `NoMemory`.
    pub fn cfg2(&self, alloc: Global, soc: u32, listed: &ConfigList) -> Result<Vec<u8>, Refusal>
        ensures frame { IfOk result (λ v. v.items ≡ cfg2_frame self.now.definition self.now.count soc listed.now) }
        ensures bytes { IfOk result (λ v. 0 < length v.items) }
        ensures memory { IfErr result (λ refusal. refusal ≡ Refusal.NoMemory) }
    {
        self.changes.cfg2(alloc, &self.definition, soc, listed)
    }
}
