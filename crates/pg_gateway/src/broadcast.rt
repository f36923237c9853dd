//! An event for all subscribers, except a data frame.

ghost use Rattle.std.specs.Prelude.{◌≡◌, ◌≤◌, ℕ, List, vec_capacity, IfOk, IfErr, IsOk};
ghost use Rattle.indexmap.specs.IndexMap.{index_map_len};
ghost use Rattle.pg_gateway.specs.Related.{Related};
ghost use Rattle.pg_gateway.specs.Sharing.{SubscriberSlots};
ghost use Rattle.pg_gateway.specs.Shown.{SlotShows};
ghost use Rattle.pg_gateway.specs.Taking.{broadcast_of, IsNoFrame, IsRising, Awaits, HasNone, Fits, IsBroadcast};
ghost use Rattle.pg_gateway.specs.Frugal.{AllSlots, Spares};

use crate::event::Event;
use crate::slot::SubscriberSlot;
use indexmap::IndexMap;
use pg_wire::{Refusal, SubId};

/// Applies each subscriber's share of the event, in their order. Once a data frame found no memory, all later ones of the event are
/// lost. The result is the number of frames made, and of those kept.
pub(crate) fn broadcast(
    subs: &mut IndexMap<SubId, SubscriberSlot>,
    event: &Event,
    places: &[usize],
    held: &mut Vec<usize>,
) -> (u64, u64)
    requires few { index_map_len subs.old ≤ 64 }
    requires event { IsNoFrame event.now }
    requires rising { IsRising event.now places.now }
    requires room { 16 ≤ vec_capacity held.old }
    requires awaits { AllSlots (Awaits (broadcast_of event.now places.now)) subs.old.entries }
    ensures broadcast { (slots : SubscriberSlots) → Related SlotShows subs.old.entries slots
        → IsBroadcast (broadcast_of event.now places.now) result.0 result.1 slots subs.new.entries }
    ensures none { AllSlots HasNone subs.new.entries }
    ensures kept { result.1 ≤ result.0 }
    ensures len { index_map_len subs.new ≡ index_map_len subs.old }
    ensures room { 16 ≤ vec_capacity held.new }
{
    let mut made = 0;
    let mut kept = 0;
    let mut lost = false;
    for i in 0..subs.len() {
        let (more, more_kept) = subs[i].apply_share(event, places, held, lost);
        made += more;
        kept += more_kept;
        if more_kept < more {
            lost = true;
        }
    }
    (made, kept)
}

/// Prepares the references that each subscriber's share needs. Nothing that it shows changes.
///
/// # Errors
///
/// `NoMemory`, and then no references lie ready.
pub(crate) fn prepare_copies(
    subs: &mut IndexMap<SubId, SubscriberSlot>,
    event: &Event,
    places: &[usize],
    held: &mut Vec<usize>,
) -> Result<(), Refusal>
    requires event { IsNoFrame event.now }
    requires rising { IsRising event.now places.now }
    requires room { 16 ≤ vec_capacity held.old }
    requires none { AllSlots HasNone subs.old.entries }
    requires fits { AllSlots (Fits (broadcast_of event.now places.now)) subs.old.entries }
    ensures prepared { IfOk result (λ u. AllSlots (Awaits (broadcast_of event.now places.now)) subs.new.entries) }
    ensures none { IfErr result (λ refusal. AllSlots HasNone subs.new.entries) }
    ensures memory { IfErr result (λ refusal. refusal ≡ Refusal.NoMemory) }
    ensures needless { AllSlots (Spares (broadcast_of event.now places.now)) subs.old.entries → IsOk result }
    ensures shows { (slots : SubscriberSlots) → Related SlotShows subs.old.entries slots → Related SlotShows subs.new.entries slots }
    ensures len { index_map_len subs.new ≡ index_map_len subs.old }
    ensures room { 16 ≤ vec_capacity held.new }
{
    match prepare_all(subs, event, places, held) {
        Ok(_) => Ok(()),
        Err(refusal) => {
            forget_all(subs);
            Err(refusal)
        }
    }
}

/// The same up to the first subscriber that finds no memory. References that were prepared before stay.
fn prepare_all(
    subs: &mut IndexMap<SubId, SubscriberSlot>,
    event: &Event,
    places: &[usize],
    held: &mut Vec<usize>,
) -> Result<(), Refusal>
    requires event { IsNoFrame event.now }
    requires rising { IsRising event.now places.now }
    requires room { 16 ≤ vec_capacity held.old }
    requires none { AllSlots HasNone subs.old.entries }
    requires fits { AllSlots (Fits (broadcast_of event.now places.now)) subs.old.entries }
    ensures prepared { IfOk result (λ u. AllSlots (Awaits (broadcast_of event.now places.now)) subs.new.entries) }
    ensures memory { IfErr result (λ refusal. refusal ≡ Refusal.NoMemory) }
    ensures needless { AllSlots (Spares (broadcast_of event.now places.now)) subs.old.entries → IsOk result }
    ensures shows { (slots : SubscriberSlots) → Related SlotShows subs.old.entries slots → Related SlotShows subs.new.entries slots }
    ensures len { index_map_len subs.new ≡ index_map_len subs.old }
    ensures room { 16 ≤ vec_capacity held.new }
{
    for i in 0..subs.len() {
        subs[i].prepare(event, places, held)?;
    }
    Ok(())
}

/// Gives up the references that lie ready at each subscriber.
pub(crate) fn forget_all(subs: &mut IndexMap<SubId, SubscriberSlot>)
    ensures none { AllSlots HasNone subs.new.entries }
    ensures shows { (slots : SubscriberSlots) → Related SlotShows subs.old.entries slots → Related SlotShows subs.new.entries slots }
    ensures len { index_map_len subs.new ≡ index_map_len subs.old }
{
    for i in 0..subs.len() {
        subs[i].forget();
    }
}
