//! One open slot, and lists of them: the open ones by rising number, and the free ones.
ghost use Rattle.std.specs.Prelude.{◌≡◌, ◌+◌, ◌-◌, ◌<◌, ◌≤◌, ℕ, Bool, List, [], ◌∷◌, length, replicate, slice_set, slice_get, slice_index_or, Some, None, is_some, vec_len, vec_capacity, IsTrue, IfOk, IfErr, true, false, if◌then◌else◌, map, insert};
ghost use Rattle.pg_data.specs.Pieces.{Piece};
ghost use Rattle.pg_align.specs.Histories.{is_above};
ghost use Rattle.pg_align.specs.Slots.{one_tick_less, AreFree, AreRising, HavePlaces, OpenSlot, StandsAt, cause_at, count_below, others_than, put_into, part_at, with_part, fresh_slot};
ghost use Rattle.pg_align.specs.Fields.{slot_of, slots_of, lacking, AreAbove, AreBeforeLent, AreCounted, AreSpare};

use crate::answer::Arrived;
use crate::counts::Cause;
use pg_data::SharedBlock;
use std::alloc::{AllocError, Global};

/// A slot: its number, the ticks that are left until it is due, and a block or none for each member. While it is open `missing`
/// counts the effective members whose block has not come, so that "complete" is one comparison.
#[derive(Drop)]
pub(crate) struct Slot {
    pub(crate) number: u64,
    pub(crate) ticks_left: u32,
    pub(crate) missing: u32,
    pub(crate) parts: Vec<Option<SharedBlock>>,
}

/// How a slot opens: after the last one that left, with its places, the ticks until it is due, and the effective members, whose blocks
/// are all missing yet.
#[derive(Clone, Copy)]
pub(crate) struct Opening {
    pub(crate) last: Option<u64>,
    pub(crate) places: usize,
    pub(crate) wait: u32,
    pub(crate) missing: u32,
}

/// Gives up all parts; their places stay.
fn clear_parts(parts: &mut [Option<SharedBlock>])
    ensures { parts.new ≡ replicate (length parts.old) None }
{
    for part in parts.iter_mut() {
        *part = None;
    }
}

/// How many members are effective.
pub(crate) fn count_effective(effective: &[bool]) -> u32
    requires { length effective.now ≤ 32 }
    ensures { result ≡ lacking effective.now [] }
{
    let mut count = 0;
    for wanted in effective {
        if *wanted {
            count += 1;
        }
    }
    count
}

/// Puts a part into its place, unless one is there.
#[inline(always)]
#[tactic(auto, using(crate::proofs::Parts::part_steps))]
fn put_part(parts: &mut [Option<SharedBlock>], place: usize, part: SharedBlock) -> bool
    requires { place < length parts.old }
    ensures kept { IsTrue result → (slice_index_or parts.old place None ≡ None)
        × (parts.new ≡ slice_set parts.old place (Some part)) }
    ensures twice { result ≡ false → IsTrue (is_some (slice_index_or parts.old place None)) × (parts.new ≡ parts.old) }
{
    if parts[place].is_some() {
        return false;
    }
    parts[place] = Some(part);
    true
}

/// One tick less is left for each.
pub(crate) fn tick_all(slots: &mut [Slot])
    ensures ticked { slots_of slots.new ≡ map one_tick_less (slots_of slots.old) }
    ensures counted { (effective : List Bool) → AreCounted effective slots.old → AreCounted effective slots.new }
{
    for slot in slots.iter_mut() {
        slot.ticks_left = slot.ticks_left.saturating_sub(1);
    }
}

/// Why a slot is to leave by itself.
#[tactic(auto, using(crate::proofs::Counting::complete))]
pub(crate) fn cause_of(slot: &Slot) -> Cause
    ensures { (effective : List Bool) → slot.now.missing ≡ lacking effective slot.now.parts.items
        → result ≡ cause_at effective (slot_of slot.now) }
{
    if slot.missing == 0 {
        Cause::Complete
    } else if slot.ticks_left == 0 {
        Cause::Waited
    } else {
        Cause::Pushed
    }
}

/// Takes the first slot out.
pub(crate) fn take_least(slots: &mut Vec<Slot>) -> Slot
    requires { 0 < vec_len slots.old }
    ensures whole { slots.old.items ≡ result ∷ slots.new.items }
    ensures slots { slots_of slots.old.items ≡ slot_of result ∷ slots_of slots.new.items }
    ensures len { length slots.old.items ≡ length slots.new.items + 1 }
    ensures capacity { vec_capacity slots.new ≡ vec_capacity slots.old }
{
    // Mostly it is the only one, and then none is moved.
    if slots.len() == 1
        && let Some(only) = slots.pop()
    {
        return only;
    }
    slots.remove(0)
}

/// Takes back the slot that was lent, if one was, and gives up its parts: it stands last of those that are not open.
#[inline(always)]
pub(crate) fn take_back(lent: &mut bool, spare: &mut Vec<Slot>)
    ensures none { lent.new ≡ false }
    ensures len { length spare.new.items ≡ length spare.old.items }
    ensures free { (places : ℕ) → AreSpare places lent.old spare.old.items → AreFree places (slots_of spare.new.items) }
    ensures capacity { vec_capacity spare.new ≡ vec_capacity spare.old }
{
    if *lent {
        *lent = false;
        give_back(spare);
    }
}

/// Gives up the parts of the last slot, which was lent.
#[inline(never)]
fn give_back(spare: &mut Vec<Slot>)
    ensures len { length spare.new.items ≡ length spare.old.items }
    ensures free { (places : ℕ) → AreBeforeLent places spare.old.items → AreFree places (slots_of spare.new.items) }
    ensures capacity { vec_capacity spare.new ≡ vec_capacity spare.old }
{
    if spare.is_empty() {
        return;
    }
    let last = spare.len() - 1;
    let slot = &mut spare[last];
    clear_parts(&mut slot.parts);
}

/// Gives up the parts of all slots; these are free then.
#[tactic(auto, using(crate::proofs::Kept::kept_steps))]
pub(crate) fn free_all(slots: &mut Vec<Slot>, spare: &mut Vec<Slot>)
    requires room { length slots.old.items + length spare.old.items ≤ vec_capacity spare.old }
    ensures none { slots.new.items ≡ [] }
    ensures len { length spare.new.items ≡ length slots.old.items + length spare.old.items }
    ensures free { (places : ℕ) → AreFree places (slots_of spare.old.items)
        → HavePlaces places (slots_of slots.old.items) → AreFree places (slots_of spare.new.items) }
    ensures capacity { (vec_capacity slots.new ≡ vec_capacity slots.old)
        × (vec_capacity spare.new ≡ vec_capacity spare.old) }
{
    while let Some(mut slot) = slots.pop() {
        clear_parts(&mut slot.parts);
        spare.push_reserved(slot);
    }
}

/// The place of the first slot whose number is not below this one, looked for from the newest end: most arrivals are for
/// the newest slot or one near it.
fn first_from(slots: &[Slot], number: u64) -> usize
    requires rising { AreRising (slots_of slots.now) }
    ensures place { result ≡ count_below number (slots_of slots.now) }
    ensures within { result ≤ length slots.now }
{
    let mut place = slots.len();
    while place > 0 && slots[place - 1].number >= number {
        place -= 1;
    }
    place
}

/// Where a slot stands among the open ones, or else where it would.
#[inline(always)]
fn place_of(slots: &[Slot], number: u64) -> Result<usize, usize>
    requires rising { AreRising (slots_of slots.now) }
    ensures stands { IfOk result (λ at. StandsAt number (slots_of slots.now) at) }
    ensures inside { IfOk result (λ at. at < length slots.now) }
    ensures away { IfErr result (λ at. (at ≡ count_below number (slots_of slots.now))
        × (others_than number (slots_of slots.now) ≡ length slots.now)) }
    ensures within { IfErr result (λ at. at ≤ length slots.now) }
{
    if slots.is_empty() {
        return Err(0);
    }
    // Mostly it is the newest one.
    let newest = slots.len() - 1;
    if slots[newest].number == number {
        return Ok(newest);
    }
    place_among(slots, number)
}

/// The same, mostly called where it is not the newest one. Open slots mostly follow one another without a gap, so it is looked for first
/// where it stands then.
#[inline(never)]
fn place_among(slots: &[Slot], number: u64) -> Result<usize, usize>
    requires rising { AreRising (slots_of slots.now) }
    ensures stands { IfOk result (λ at. StandsAt number (slots_of slots.now) at) }
    ensures inside { IfOk result (λ at. at < length slots.now) }
    ensures away { IfErr result (λ at. (at ≡ count_below number (slots_of slots.now))
        × (others_than number (slots_of slots.now) ≡ length slots.now)) }
    ensures within { IfErr result (λ at. at ≤ length slots.now) }
{
    let guess = place_without_gap(slots, number);
    if guess < slots.len() && slots[guess].number == number {
        return Ok(guess);
    }
    let at = first_from(slots, number);
    if at < slots.len() && slots[at].number == number {
        Ok(at)
    } else {
        Err(at)
    }
}

/// Where a slot stands if there is no gap between the open ones before it.
fn place_without_gap(slots: &[Slot], number: u64) -> usize {
    match slots.first() {
        None => 0,
        Some(least) => usize::try_from(number.saturating_sub(least.number)).unwrap_or(0),
    }
}

/// Puts a part into the slot at `at`, unless one is there.
#[inline(always)]
#[tactic(auto, using(crate::proofs::Parts::part_steps))]
fn add_part(slots: &mut Vec<Slot>, at: usize, place: usize, part: SharedBlock) -> bool
    requires within { at < vec_len slots.old }
    requires places { (slot : OpenSlot Piece) → slice_get (slots_of slots.old.items) at ≡ Some slot
        → place < length slot.parts }
    ensures kept { IsTrue result → (slot : OpenSlot Piece) → slice_get (slots_of slots.old.items) at ≡ Some slot
        → (slice_index_or slot.parts place None ≡ None)
        × (slots_of slots.new.items ≡ slice_set (slots_of slots.old.items) at (put_into slot place part)) }
    ensures twice { result ≡ false → (slots_of slots.new.items ≡ slots_of slots.old.items)
        × ((slot : OpenSlot Piece) → slice_get (slots_of slots.old.items) at ≡ Some slot
        → IsTrue (is_some (slice_index_or slot.parts place None))) }
    ensures counted { (effective : List Bool) → AreCounted effective slots.old.items
        → IsTrue (slice_index_or effective place false) → AreCounted effective slots.new.items }
    ensures len { length slots.new.items ≡ length slots.old.items }
    ensures capacity { vec_capacity slots.new ≡ vec_capacity slots.old }
{
    let slot = &mut slots[at];
    if !put_part(&mut slot.parts, place, part) {
        return false;
    }
    slot.missing = slot.missing.saturating_sub(1);
    true
}

/// Opens a slot at `at` with one part, in places that were free: its member's is missing no longer.
#[inline(never)]
#[tactic(auto, using(crate::proofs::Parts::part_steps))]
fn open_slot(slots: &mut Vec<Slot>, at: usize, mut fresh: Slot, place: usize, part: SharedBlock)
    requires room { vec_len slots.old < vec_capacity slots.old }
    requires within { at ≤ vec_len slots.old }
    requires place { place < vec_len fresh.parts }
    ensures slots { slots_of slots.new.items ≡ insert (slots_of slots.old.items) at (put_into (slot_of fresh) place part) }
    ensures counted { (effective : List Bool) → AreCounted effective slots.old.items
        → fresh.missing ≡ lacking effective fresh.parts.items → IsTrue (slice_index_or effective place false)
        → slice_index_or fresh.parts.items place None ≡ None → AreCounted effective slots.new.items }
    ensures len { length slots.new.items ≡ length slots.old.items + 1 }
    ensures capacity { vec_capacity slots.new ≡ vec_capacity slots.old }
{
    fresh.parts[place] = Some(part);
    fresh.missing = fresh.missing.saturating_sub(1);
    // Mostly the slot is the newest, and then none is moved.
    if at == slots.len() {
        slots.push_reserved(fresh);
        return;
    }
    let Ok(()) = slots.insert(at, fresh) else {
        unreachable!();
    };
}

/// Whether a slot comes after the last one that left.
pub(crate) fn is_after(last: Option<u64>, slot: u64) -> bool
    ensures { result ≡ is_above last slot }
{
    match last {
        None => true,
        Some(last) => last < slot,
    }
}

/// What became of a part whose slot is open.
fn told(kept: bool) -> Arrived
    ensures { result ≡ (if kept then Arrived.Kept else Arrived.Twice) }
{
    if kept { Arrived::Kept } else { Arrived::Twice }
}

/// Puts a part of a slot into its place, and opens the slot if it is not open: each slot has that many places. Nothing
/// changes if a part is there, or if the slot does not come after the last one that left, as all that are open do.
#[inline(always)]
pub(crate) fn add_arrival(
    slots: &mut Vec<Slot>,
    spare: &mut Vec<Slot>,
    opening: Opening,
    slot: u64,
    place: usize,
    part: SharedBlock,
) -> Arrived
    requires above { AreAbove opening.last (slots_of slots.old.items) }
    requires room { others_than slot (slots_of slots.old.items) < vec_capacity slots.old }
    requires spare { others_than slot (slots_of slots.old.items) < length slots.old.items + length spare.old.items }
    requires place { place < opening.places }
    requires places { HavePlaces opening.places (slots_of slots.old.items) }
    requires rising { AreRising (slots_of slots.old.items) }
    requires free { AreFree opening.places (slots_of spare.old.items) }
    ensures late { result ≡ Arrived.Late → (is_above opening.last slot ≡ false) × (slots_of slots.new.items ≡ slots_of slots.old.items) }
    ensures kept { result ≡ Arrived.Kept → (is_above opening.last slot ≡ true) × (part_at (slots_of slots.old.items) slot place ≡ None)
        × (slots_of slots.new.items ≡ with_part (fresh_slot slot opening.wait opening.places place part) place part (slots_of slots.old.items)) }
    ensures twice { result ≡ Arrived.Twice → (is_above opening.last slot ≡ true) × IsTrue (is_some (part_at (slots_of slots.old.items) slot place))
        × (slots_of slots.new.items ≡ slots_of slots.old.items) }
    ensures count { length slots.new.items + length spare.new.items ≡ length slots.old.items + length spare.old.items }
    ensures counted { (effective : List Bool) → AreCounted effective slots.old.items → opening.missing ≡ lacking effective []
        → IsTrue (slice_index_or effective place false) → AreCounted effective slots.new.items }
    ensures places { HavePlaces opening.places (slots_of slots.new.items) }
    ensures rising { AreRising (slots_of slots.new.items) }
    ensures above { AreAbove opening.last (slots_of slots.new.items) }
    ensures free { AreFree opening.places (slots_of spare.new.items) }
    ensures capacity { (vec_capacity slots.new ≡ vec_capacity slots.old)
        × (vec_capacity spare.new ≡ vec_capacity spare.old) }
{
    let at = match place_of(slots, slot) {
        Ok(at) => return told(add_part(slots, at, place, part)),
        Err(at) => at,
    };
    if !is_after(opening.last, slot) {
        return Arrived::Late;
    }
    let Some(mut fresh) = spare.pop() else {
        unreachable!();
    };
    fresh.number = slot;
    fresh.ticks_left = opening.wait;
    fresh.missing = opening.missing;
    open_slot(slots, at, fresh, place, part);
    Arrived::Kept
}

/// Places for parts, all free.
fn free_parts(alloc: Global, places: usize) -> Result<Vec<Option<SharedBlock>>, AllocError>
    ensures { IfOk result (λ parts. parts.items ≡ replicate places None) }
{
    let mut parts = Vec::with_capacity(alloc, places)?;
    for _place in 0..places {
        parts.push_reserved(None);
    }
    Ok(parts)
}

/// Slots with places that are all free.
#[tactic(auto, using(crate::proofs::Kept::kept_steps))]
pub(crate) fn free_slots(
    alloc: Global,
    count: usize,
    places: usize,
) -> Result<Vec<Slot>, AllocError>
    ensures count { IfOk result (λ slots. length slots.items ≡ count) }
    ensures room { IfOk result (λ slots. vec_capacity slots ≡ count) }
    ensures free { IfOk result (λ slots. AreFree places (slots_of slots.items)) }
{
    let mut slots = Vec::with_capacity(alloc, count)?;
    for _slot in 0..count {
        let parts = free_parts(alloc, places)?;
        slots.push_reserved(Slot {
            number: 0,
            ticks_left: 0,
            missing: 0,
            parts,
        });
    }
    Ok(slots)
}
