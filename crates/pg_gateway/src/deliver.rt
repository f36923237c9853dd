//! A data frame, delivered to the subscribers that are granted a PMU of it.

ghost use Rattle.std.specs.Prelude.{◌≡◌, ◌<◌, ◌≤◌, [], ◌∷◌, ℕ, List, nat_eq, length, vec_capacity, IfOk, IfErr, IsOk};
ghost use Rattle.std.specs.Int.{bit_at};
ghost use Rattle.std.specs.Arc.{arc_value};
ghost use Rattle.indexmap.specs.IndexMap.{index_map_len};
ghost use Rattle.pg_session.specs.Ready.{AreRising};
ghost use Rattle.pg_gateway.specs.Related.{Related};
ghost use Rattle.pg_gateway.specs.Sharing.{SubscriberSlots};
ghost use Rattle.pg_gateway.specs.Shown.{SlotShows};
ghost use Rattle.pg_gateway.specs.Taking.{measured, Awaits, HasNone, Fits, IsBroadcast};
ghost use Rattle.pg_gateway.specs.Frugal.{AllSlots, Spares};
ghost use Rattle.pg_gateway.specs.Routes.{WhereBit, HasBits, HoldsPart, IsPassed, SharesTold};

use crate::broadcast::forget_all;
use crate::slot::SubscriberSlot;
use crate::state::MOST_SUBS;
use indexmap::IndexMap;
use pg_data::DataFrame;
use pg_outcfg::StampCache;
use pg_wire::{Refusal, SubId};
use std::sync::Arc;

/// Applies a data frame to the subscribers of the mask `granted_some`, in their order: those that are granted a block at one of these places.
/// `granted_all` is the mask of those that are granted every one of these blocks; for each other one, `granted_blocks` has the mask of its
/// blocks. Where there is one place, both masks are the same.
pub(crate) fn deliver_frame(
    subs: &mut IndexMap<SubId, SubscriberSlot>,
    granted_some: u64,
    frame: &Arc<DataFrame>,
    places: &[usize],
    granted_all: u64,
    granted_blocks: &[u16; MOST_SUBS],
    held: &mut Vec<usize>,
    stamps: &mut StampCache,
) -> (u64, u64)
    requires few { index_map_len subs.old ≤ 64 }
    requires bits { HasBits (index_map_len subs.old) granted_some }
    requires rising { AreRising 0 (length (arc_value frame.now).config.parts) places.now }
    requires places { length places.now ≤ 16 }
    requires some { 0 < length places.now }
    requires alone { length places.now ≡ 1 → granted_some ≡ granted_all }
    requires tell { SharesTold granted_all granted_blocks.now (arc_value frame.now).config places.now granted_some subs.old.entries }
    requires room { 16 ≤ vec_capacity held.old }
    requires awaits { WhereBit 1 granted_some (Awaits (measured (arc_value frame.now) places.now)) subs.old.entries }
    requires passed { WhereBit 0 granted_some (IsPassed (measured (arc_value frame.now) places.now)) subs.old.entries }
    requires none { WhereBit 0 granted_some HasNone subs.old.entries }
    ensures broadcast { (slots : SubscriberSlots) → Related SlotShows subs.old.entries slots
        → IsBroadcast (measured (arc_value frame.now) places.now) result.0 result.1 slots subs.new.entries }
    ensures none { AllSlots HasNone subs.new.entries }
    ensures kept { result.1 ≤ result.0 }
    ensures len { index_map_len subs.new ≡ index_map_len subs.old }
    ensures room { 16 ≤ vec_capacity held.new }
{
    if places.len() == 1 {
        return deliver_block(subs, granted_some, frame, places[0], stamps);
    }
    let mut made = 0;
    let mut kept = 0;
    let mut lost = false;
    let mut left = granted_some;
    'granted: while left != 0 {
        let bit = left.trailing_zeros();
        left &= !(1u64 << bit);
        let whole = has_bit(granted_all, bit);
        let number = u64::from(granted_blocks[bit as usize]);
        let (more, more_kept) = subs[bit as usize].apply_measured(
            frame, places, whole, number, held, lost, stamps,
        );
        made += more;
        kept += more_kept;
        if more_kept < more {
            lost = true;
        }
    }
    (made, kept)
}

/// Prepares the references that each subscriber of the mask `granted_some` needs. Nothing that it shows changes.
///
/// # Errors
///
/// `NoMemory`, and then no references lie ready.
pub(crate) fn prepare_frame(
    subs: &mut IndexMap<SubId, SubscriberSlot>,
    granted_some: u64,
    frame: &Arc<DataFrame>,
    places: &[usize],
    granted_all: u64,
    granted_blocks: &[u16; MOST_SUBS],
    held: &mut Vec<usize>,
    stamps: &mut StampCache,
) -> Result<(), Refusal>
    requires bits { HasBits (index_map_len subs.old) granted_some }
    requires rising { AreRising 0 (length (arc_value frame.now).config.parts) places.now }
    requires places { length places.now ≤ 16 }
    requires some { 0 < length places.now }
    requires alone { length places.now ≡ 1 → granted_some ≡ granted_all }
    requires tell { SharesTold granted_all granted_blocks.now (arc_value frame.now).config places.now granted_some subs.old.entries }
    requires room { 16 ≤ vec_capacity held.old }
    requires none { AllSlots HasNone subs.old.entries }
    requires fits { AllSlots (Fits (measured (arc_value frame.now) places.now)) subs.old.entries }
    requires passed { WhereBit 0 granted_some (IsPassed (measured (arc_value frame.now) places.now)) subs.old.entries }
    ensures prepared { IfOk result (λ u. WhereBit 1 granted_some (Awaits (measured (arc_value frame.now) places.now)) subs.new.entries) }
    ensures passed { IfOk result (λ u. WhereBit 0 granted_some (IsPassed (measured (arc_value frame.now) places.now)) subs.new.entries) }
    ensures tell { IfOk result (λ u. SharesTold granted_all granted_blocks.now (arc_value frame.now).config places.now granted_some subs.new.entries) }
    ensures passed_none { IfOk result (λ u. WhereBit 0 granted_some HasNone subs.new.entries) }
    ensures none { IfErr result (λ refusal. AllSlots HasNone subs.new.entries) }
    ensures memory { IfErr result (λ refusal. refusal ≡ Refusal.NoMemory) }
    ensures needless { AllSlots (Spares (measured (arc_value frame.now) places.now)) subs.old.entries → IsOk result }
    ensures shows { (slots : SubscriberSlots) → Related SlotShows subs.old.entries slots → Related SlotShows subs.new.entries slots }
    ensures len { index_map_len subs.new ≡ index_map_len subs.old }
    ensures room { 16 ≤ vec_capacity held.new }
{
    match prepare_each(
        subs,
        granted_some,
        frame,
        places,
        granted_all,
        granted_blocks,
        held,
        stamps,
    ) {
        Ok(_) => Ok(()),
        Err(refusal) => {
            forget_all(subs);
            Err(refusal)
        }
    }
}

/// Whether a bit of a number is set.
fn has_bit(number: u64, bit: u32) -> bool
    requires bit { bit < 64 }
    ensures { result ≡ nat_eq (bit_at number bit) 1 }
{
    (number >> bit) & 1 == 1
}

/// The same up to the first subscriber that finds no memory. References that were prepared before stay.
fn prepare_each(
    subs: &mut IndexMap<SubId, SubscriberSlot>,
    granted_some: u64,
    frame: &Arc<DataFrame>,
    places: &[usize],
    granted_all: u64,
    granted_blocks: &[u16; MOST_SUBS],
    held: &mut Vec<usize>,
    stamps: &mut StampCache,
) -> Result<(), Refusal>
    requires bits { HasBits (index_map_len subs.old) granted_some }
    requires rising { AreRising 0 (length (arc_value frame.now).config.parts) places.now }
    requires places { length places.now ≤ 16 }
    requires some { 0 < length places.now }
    requires alone { length places.now ≡ 1 → granted_some ≡ granted_all }
    requires tell { SharesTold granted_all granted_blocks.now (arc_value frame.now).config places.now granted_some subs.old.entries }
    requires room { 16 ≤ vec_capacity held.old }
    requires none { AllSlots HasNone subs.old.entries }
    requires fits { AllSlots (Fits (measured (arc_value frame.now) places.now)) subs.old.entries }
    requires passed { WhereBit 0 granted_some (IsPassed (measured (arc_value frame.now) places.now)) subs.old.entries }
    ensures prepared { IfOk result (λ u. WhereBit 1 granted_some (Awaits (measured (arc_value frame.now) places.now)) subs.new.entries) }
    ensures passed { IfOk result (λ u. WhereBit 0 granted_some (IsPassed (measured (arc_value frame.now) places.now)) subs.new.entries) }
    ensures tell { IfOk result (λ u. SharesTold granted_all granted_blocks.now (arc_value frame.now).config places.now granted_some subs.new.entries) }
    ensures passed_none { IfOk result (λ u. WhereBit 0 granted_some HasNone subs.new.entries) }
    ensures memory { IfErr result (λ refusal. refusal ≡ Refusal.NoMemory) }
    ensures needless { AllSlots (Spares (measured (arc_value frame.now) places.now)) subs.old.entries → IsOk result }
    ensures shows { (slots : SubscriberSlots) → Related SlotShows subs.old.entries slots → Related SlotShows subs.new.entries slots }
    ensures len { index_map_len subs.new ≡ index_map_len subs.old }
    ensures room { 16 ≤ vec_capacity held.new }
{
    if places.len() == 1 {
        return prepare_block(subs, granted_some, frame, places[0], stamps);
    }
    let mut left = granted_some;
    'granted: while left != 0 {
        let bit = left.trailing_zeros();
        left &= !(1u64 << bit);
        let whole = has_bit(granted_all, bit);
        let number = u64::from(granted_blocks[bit as usize]);
        subs[bit as usize].prepare_measured(frame, places, whole, number, held, stamps)?;
    }
    Ok(())
}

/// The same for a frame with one accepted block: each subscriber of the mask is granted it.
fn prepare_block(
    subs: &mut IndexMap<SubId, SubscriberSlot>,
    granted_some: u64,
    frame: &Arc<DataFrame>,
    place: usize,
    stamps: &mut StampCache,
) -> Result<(), Refusal>
    requires bits { HasBits (index_map_len subs.old) granted_some }
    requires place { place < length (arc_value frame.now).config.parts }
    requires holds { WhereBit 1 granted_some (HoldsPart (arc_value frame.now).config place) subs.old.entries }
    requires none { AllSlots HasNone subs.old.entries }
    requires fits { AllSlots (Fits (measured (arc_value frame.now) (place ∷ []))) subs.old.entries }
    requires passed { WhereBit 0 granted_some (IsPassed (measured (arc_value frame.now) (place ∷ []))) subs.old.entries }
    ensures prepared { IfOk result (λ u. WhereBit 1 granted_some (Awaits (measured (arc_value frame.now) (place ∷ []))) subs.new.entries) }
    ensures passed { IfOk result (λ u. WhereBit 0 granted_some (IsPassed (measured (arc_value frame.now) (place ∷ []))) subs.new.entries) }
    ensures holds { IfOk result (λ u. WhereBit 1 granted_some (HoldsPart (arc_value frame.now).config place) subs.new.entries) }
    ensures passed_none { IfOk result (λ u. WhereBit 0 granted_some HasNone subs.new.entries) }
    ensures memory { IfErr result (λ refusal. refusal ≡ Refusal.NoMemory) }
    ensures needless { AllSlots (Spares (measured (arc_value frame.now) (place ∷ []))) subs.old.entries → IsOk result }
    ensures shows { (slots : SubscriberSlots) → Related SlotShows subs.old.entries slots → Related SlotShows subs.new.entries slots }
    ensures len { index_map_len subs.new ≡ index_map_len subs.old }
{
    let mut left = granted_some;
    'granted: while left != 0 {
        let bit = left.trailing_zeros();
        left &= !(1u64 << bit);
        subs[bit as usize].prepare_block(frame, place, stamps)?;
    }
    Ok(())
}

/// Applies a frame's one accepted block to the subscribers of the mask, in their order: those that are granted it.
fn deliver_block(
    subs: &mut IndexMap<SubId, SubscriberSlot>,
    granted_some: u64,
    frame: &Arc<DataFrame>,
    place: usize,
    stamps: &mut StampCache,
) -> (u64, u64)
    requires few { index_map_len subs.old ≤ 64 }
    requires bits { HasBits (index_map_len subs.old) granted_some }
    requires place { place < length (arc_value frame.now).config.parts }
    requires holds { WhereBit 1 granted_some (HoldsPart (arc_value frame.now).config place) subs.old.entries }
    requires awaits { WhereBit 1 granted_some (Awaits (measured (arc_value frame.now) (place ∷ []))) subs.old.entries }
    requires passed { WhereBit 0 granted_some (IsPassed (measured (arc_value frame.now) (place ∷ []))) subs.old.entries }
    requires none { WhereBit 0 granted_some HasNone subs.old.entries }
    ensures broadcast { (slots : SubscriberSlots) → Related SlotShows subs.old.entries slots
        → IsBroadcast (measured (arc_value frame.now) (place ∷ [])) result.0 result.1 slots subs.new.entries }
    ensures none { AllSlots HasNone subs.new.entries }
    ensures kept { result.1 ≤ result.0 }
    ensures len { index_map_len subs.new ≡ index_map_len subs.old }
{
    let mut made = 0;
    let mut kept = 0;
    let mut lost = false;
    let mut left = granted_some;
    'granted: while left != 0 {
        let bit = left.trailing_zeros();
        left &= !(1u64 << bit);
        let (more, more_kept) = subs[bit as usize].apply_block(frame, place, lost, stamps);
        made += more;
        kept += more_kept;
        if more_kept < more {
            lost = true;
        }
    }
    (made, kept)
}
