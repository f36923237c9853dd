//! The alignment of a stream. A clause sees it as its open slots.
ghost use Rattle.std.specs.Prelude.{◌≡◌, ◌<◌, ◌≤◌, ℕ, List, [], ◌∷◌, length, slice_index_or, option_map, Option, Some, None, IsTrue, IfSome, IfNone, ◌++◌, is_some, IfOk, IfErr, nat_le, Bool, false};
ghost use Rattle.std.specs.Borrow.{sem};
ghost use Rattle.pg_data.specs.Pieces.{Piece};
ghost use Rattle.pg_stream.specs.Limits.{IsWithinLimits};
ghost use Rattle.pg_align.specs.Histories.{Departed, StreamHistory, answer_to, is_above, discarded, next_to_flush, next_to_leave, open_slots, opening, reshaped, started, take_arrival, ticked};
ghost use Rattle.pg_align.specs.Slots.{Aligned, HavePlaces, answer_at, flushed_of, front_of, head_with, least_of, leaves_now, leaving_of, none_open, others_than, with_arrival, with_last, with_late, with_none, with_shape, with_start, with_tick};
ghost use Rattle.pg_align.specs.Counts.{counts_of};
ghost use Rattle.pg_align.specs.Shown.{Shows};
ghost use Rattle.pg_align.specs.Fields.{slots_of, AreCounted};
ghost use Rattle.pg_align.specs.declared.slot.Slot.{Slot};

use crate::answer::Arrived;
use crate::counts::{Cause, SlotCounts};
use crate::slot::{
    Opening, Slot, add_arrival, cause_of, count_effective, free_all, free_slots, is_after,
    take_back, take_least, tick_all,
};
use pg_data::SharedBlock;
use pg_stream::Definition;
use pg_wire::Refusal;
use std::alloc::Global;
use std::marker::Model;

/// A stream's open slots, by rising number, in places that were reserved: one slot more than the window. Only
/// `new` takes memory. A block that came is kept until its slot has left, and is given up at the next call that changes
/// anything.
#[derive(Drop)]
pub struct Align {
    window: usize,
    wait: u32,
    effective: Vec<bool>,
    wanted: u32,
    is_on: bool,
    last: Option<u64>,
    slots: Vec<Slot>,
    spare: Vec<Slot>,
    lent: bool,
    counts: SlotCounts,
}

impl Model for Align {
    ghost use Rattle.pg_data.specs.Pieces.{Piece};
    ghost use Rattle.pg_align.specs.Slots.{Aligned};

    ghost Value = { Aligned Piece };

    ghost use Rattle.pg_align.specs.Fields.{aligned_of, AlignIsKept};

    ghost view = { aligned_of };

    ghost invariant = { AlignIsKept };
}

/// A slot that left, lent until the next call.
#[derive(Drop)]
pub struct Left<'a> {
    /// The slot's number.
    pub slot: u64,
    /// For each member, in the definition's order, its data block, or none where it did not come.
    pub parts: &'a [Option<SharedBlock>],
}

impl Align {
    ghost use Rattle.pg_align.specs.Lending.{LendsLeaving, LendsLeast};

    /// The alignment of a stream that is off and has no effective member, with its slots and places reserved. It asks for
    /// a definition within the limits. Refused with `NoMemory` alone.
    #[tactic(auto, using(crate::proofs::Counting::none_wanted))]
    pub fn new(alloc: Global, definition: &Definition) -> Result<Align, Refusal>
        requires { IsWithinLimits definition.now }
        ensures shown { IfOk result (λ align.
            align ≡ none_open definition.now.window definition.now.wait (length definition.now.members)) }
        ensures history { IfOk result (λ align.
            Shows align (opening definition.now.window definition.now.wait (length definition.now.members))) }
        ensures memory { IfErr result (λ refusal. refusal ≡ Refusal.NoMemory) }
    {
        let window = definition.window as usize;
        let places = definition.members.as_slice().len();
        let effective = vec![in alloc; false; places]?;
        let slots = Vec::with_capacity(alloc, window + 1)?;
        let spare = free_slots(alloc, window + 1, places)?;
        Ok(Align {
            window,
            wait: definition.wait,
            effective,
            wanted: 0,
            is_on: false,
            last: None,
            slots,
            spare,
            lent: false,
            counts: SlotCounts::new(),
        })
    }

    /// Whether the stream is on.
    pub fn is_on(&self) -> bool
        ensures shown { result ≡ self.now.is_on }
        ensures history { (h : StreamHistory Piece) → Shows self.now h → result ≡ h.is_on }
    {
        self.is_on
    }

    /// The number of open slots. It is at most the window once `leave_next` has answered `None`.
    pub fn open_slots(&self) -> usize
        ensures shown { result ≡ length self.now.slots }
        ensures history { (h : StreamHistory Piece) → Shows self.now h → result ≡ length (open_slots h) }
    {
        self.slots.len()
    }

    /// Whether at most the window's slots are open, as they are once `leave_next` has answered `None`: then there is room
    /// for any arrival.
    pub fn has_room(&self) -> bool
        ensures shown { result ≡ nat_le (length self.now.slots) self.now.window }
        ensures room { IsTrue result → (slot : ℕ) → others_than slot self.now.slots ≤ self.now.window }
    {
        self.slots.len() <= self.window
    }

    /// Whether the member at this place in the definition's order is effective.
    pub fn is_effective(&self, place: usize) -> bool
        ensures shown { result ≡ slice_index_or self.now.effective place false }
        ensures history { (h : StreamHistory Piece) → Shows self.now h → result ≡ slice_index_or h.effective place false }
    {
        place < self.effective.len() && self.effective[place]
    }

    /// How many slots left since the stream was defined, and which members were missing or late.
    pub fn counts(&self) -> &SlotCounts
        ensures shown { result.now ≡ self.now.counts }
        ensures history { (h : StreamHistory Piece) → Shows self.now h → result.now ≡ counts_of h.past }
    {
        &self.counts
    }

    /// Switches the stream on, with no last slot and no open slot. A stream that is on stays as it is.
    pub fn start(&mut self)
        ensures shown { self.new ≡ with_start self.old }
        ensures history { (h : StreamHistory Piece) → Shows self.old h → Shows self.new (started h) }
    {
        if !self.is_on {
            self.is_on = true;
            self.last = None;
        }
    }

    /// Switches the stream off; its open slots are discarded.
    pub fn discard(&mut self)
        ensures shown { self.new ≡ with_none self.old }
        ensures history { (h : StreamHistory Piece) → Shows self.old h → Shows self.new (discarded h) }
    {
        take_back(&mut self.lent, &mut self.spare);
        free_all(&mut self.slots, &mut self.spare);
        self.is_on = false;
    }

    /// Takes other members for effective: one `bool` for each, in the definition's order. It asks that no slot is open.
    pub fn reshape(&mut self, effective: &[bool])
        requires members { length effective.now ≡ length self.old.effective }
        requires none_open { self.old.slots ≡ [] }
        ensures shown { self.new ≡ with_shape self.old effective.now }
        ensures history { (h : StreamHistory Piece) → Shows self.old h → Shows self.new (reshaped h effective.now) }
    {
        self.effective.copy_from_slice(effective);
        self.wanted = count_effective(effective);
    }

    /// Takes a member's data block for a slot, where `place` is the member's in the definition's order. A slot at or below
    /// the last one that left is late, and a second block of a member for a slot is ignored. It asks that the stream is
    /// on, that the member is effective, and that at most the window's slots are open besides this one.
    #[inline(always)]
    pub fn arrive(&mut self, slot: u64, place: usize, block: SharedBlock) -> Arrived
        requires on { IsTrue self.old.is_on }
        requires effective { IsTrue (slice_index_or self.old.effective place false) }
        requires room { others_than slot self.old.slots ≤ self.old.window }
        ensures answer { result ≡ answer_at self.old slot place }
        ensures shown { self.new ≡ with_arrival self.old slot place block }
        // A further block for the same slot finds the same room.
        ensures room { others_than slot self.new.slots ≡ others_than slot self.old.slots }
        ensures history { (h : StreamHistory Piece) → Shows self.old h
            → (result ≡ answer_to h slot place) × Shows self.new (take_arrival h slot place block) }
    {
        take_back(&mut self.lent, &mut self.spare);
        let opening = Opening {
            last: self.last,
            places: self.effective.len(),
            wait: self.wait,
            missing: self.wanted,
        };
        let arrived = add_arrival(
            &mut self.slots,
            &mut self.spare,
            opening,
            slot,
            place,
            block,
        );
        self.counts.count_if_late(arrived, place);
        arrived
    }

    /// A tick: one less is left for each open slot.
    #[tactic(auto, using(crate::proofs::Kept::kept_steps))]
    pub fn tick(&mut self)
        ensures shown { self.new ≡ with_tick self.old }
        ensures history { (h : StreamHistory Piece) → Shows self.old h → Shows self.new (ticked h) }
    {
        tick_all(&mut self.slots);
    }

    /// Whether a slot comes after the last one that left in this on-period: an arrival for it is not late.
    #[inline(always)]
    pub fn is_after_last(&self, slot: u64) -> bool
        ensures shown { result ≡ is_above self.now.last slot }
        ensures history { (h : StreamHistory Piece) → Shows self.now h → result ≡ is_above h.last slot }
    {
        is_after(self.last, slot)
    }

    /// The block of the member at this place came for a slot at or below the last one that left: as `arrive` does, it is counted.
    #[inline(never)]
    pub fn note_late(&mut self, place: usize)
        requires place { place < length self.old.effective }
        ensures shown { self.new ≡ with_late self.old place }
    {
        self.counts.count_late(place);
    }

    /// A slot leaves that was never open, as one frame brought the blocks of all its members. It is the last one that left. It asks
    /// that no slot is open.
    #[inline(always)]
    pub fn leave_at_once(&mut self, slot: u64)
        requires none_open { self.old.slots ≡ [] }
        ensures shown { self.new ≡ with_last self.old slot }
    {
        take_back(&mut self.lent, &mut self.spare);
        self.last = Some(slot);
        self.counts.count_complete();
    }

    /// Whether a slot is to leave: `leave_next` would answer with one.
    #[inline(always)]
    pub fn is_leaving(&self) -> bool
        ensures shown { result ≡ is_some (leaving_of self.now) }
        ensures history { (h : StreamHistory Piece) → Shows self.now h → result ≡ is_some (next_to_leave h) }
    {
        least_is_leaving(&self.slots, self.window)
    }

    /// The least open slot leaves if each effective member has come, if it is due, or if more than the window are open. It
    /// is lent until the next call.
    #[tactic(auto, using(crate::proofs::Kept::kept_steps))]
    pub fn leave_next(&mut self) -> Option<Left<'_>>
        ensures* after { sem 𝓛 (LendsLeaving self.entry) }
        ensures leaves { option_map (λ left. head_with left.slot left.parts.now) result ≡ leaving_of self.old }
        ensures members { IfSome result (λ left. length left.parts.now ≡ length self.old.effective) }
        ensures few { IfNone result (length self.old.slots ≤ self.old.window) }
        ensures history { (h : StreamHistory Piece) → Shows self.old h
            → option_map (λ left. head_with left.slot left.parts.now) result ≡ next_to_leave h }
    {
        take_back(&mut self.lent, &mut self.spare);
        if !least_is_leaving(&self.slots, self.window) {
            return None;
        }
        let least = take_least(&mut self.slots);
        self.last = Some(least.number);
        self.counts
            .count_left(cause_of(&least), &self.effective, &least.parts);
        self.spare.push_reserved(least);
        self.lent = true;
        Some(lend(&self.spare))
    }

    /// The least open slot leaves, whatever has come: a flush is this until it answers `None`. It is lent until the next
    /// call.
    #[tactic(auto, using(crate::proofs::Kept::kept_steps))]
    pub fn flush_next(&mut self) -> Option<Left<'_>>
        ensures* after { sem 𝓛 (LendsLeast self.entry) }
        ensures leaves { option_map (λ left. head_with left.slot left.parts.now) result ≡ flushed_of self.old }
        ensures members { IfSome result (λ left. length left.parts.now ≡ length self.old.effective) }
        ensures none { IfNone result (self.old.slots ≡ []) }
        ensures history { (h : StreamHistory Piece) → Shows self.old h
            → option_map (λ left. head_with left.slot left.parts.now) result ≡ next_to_flush h }
    {
        take_back(&mut self.lent, &mut self.spare);
        if self.slots.is_empty() {
            return None;
        }
        let first = take_least(&mut self.slots);
        self.last = Some(first.number);
        self.counts
            .count_left(Cause::Changed, &self.effective, &first.parts);
        self.spare.push_reserved(first);
        self.lent = true;
        Some(lend(&self.spare))
    }
}

/// Whether the least slot is complete or due, or one of more than the window.
#[inline(always)]
fn least_is_leaving(slots: &[Slot], window: usize) -> bool
    ensures leaves { (effective : List Bool) → AreCounted effective slots.now
        → result ≡ leaves_now window effective (slots_of slots.now) }
    ensures some_slot { IsTrue result → 0 < length slots.now }
    ensures few { result ≡ false → length slots.now ≤ window }
{
    match slots.first() {
        None => false,
        Some(least) => least.missing == 0 || least.ticks_left == 0 || slots.len() > window,
    }
}

/// Lends the slot that left, which stands last of those that are not open.
#[inline(always)]
fn lend(spare: &[Slot]) -> Left<'_>
    requires some { 0 < length spare.now }
    ensures lent { (before : List Slot) (slot : Slot) → spare.now ≡ before ++ slot ∷ []
        → (result.slot ≡ slot.number) × (result.parts.now ≡ slot.parts.items) }
{
    let slot = &spare[spare.len() - 1];
    Left {
        slot: slot.number,
        parts: slot.parts.as_slice(),
    }
}
