//! Events for one subscriber alone.

ghost use Rattle.std.specs.Prelude.{◌≡◌, ◌≤◌, ◌+◌, ◌++◌, [], ◌∷◌, false, Some, None, nat_eq, length, filter, ℕ, List, IfOk, IfErr};
ghost use Rattle.std.specs.Prelude.{◌≢◌, true, option_map, IfSome};
ghost use Rattle.std.specs.Map.{lookup};
ghost use Rattle.std.specs.Arc.{arc_value};
ghost use Rattle.pg_config.specs.Parts.{block_id};
ghost use Rattle.pg_session.specs.Events.{grant};
ghost use Rattle.pg_session.specs.Ready.{IsPlain as PlainReply, NeedsNone};
ghost use Rattle.pg_gateway.specs.Taking.{GrantsAt};
ghost use Rattle.indexmap.specs.IndexMap.{index_map_len, get};
ghost use Rattle.pg_session.specs.Events.{subscriber_event, drain};
ghost use Rattle.pg_session.specs.Ready.{ReturnsBuffer};
ghost use Rattle.pg_session.specs.Private.{told as private_told, refused};
ghost use Rattle.pg_gateway.specs.GatewayEvents.{told, tells};
ghost use Rattle.pg_gateway.specs.Related.{Related};
ghost use Rattle.pg_gateway.specs.Sharing.{SubscriberSlots};
ghost use Rattle.pg_gateway.specs.State.{noted_as, code_of, at_slot, with_note, added, slot_of, grant_refusal};
ghost use Rattle.pg_gateway.specs.Shown.{SlotShows, slot_waits};
ghost use Rattle.pg_gateway.specs.Taking.{AsksNothing, TakesAt, DrainsAt, HasNone};
ghost use Rattle.pg_gateway.specs.Posting.{IsPlain, KeepsBuffer};
ghost use Rattle.pg_gateway.specs.Frugal.{AllSlots};

use crate::event::Reply;
use crate::slot::SubscriberSlot;
use indexmap::IndexMap;
use pg_audit::What;
use pg_config::PmuConfig;
use pg_ring::{RingBytes, RingSize};
use pg_session::{PrivateEvent, PrivateReply};
use pg_wire::{PmuKey, Refusal, SubId};
use std::alloc::Global;
use std::sync::Arc;

/// Why an event was refused, if it was.
pub(crate) fn code(reply: &PrivateReply) -> Option<Refusal>
    ensures { result ≡ code_of (private_told reply.now) }
{
    match reply {
        PrivateReply::Refused(refusal) => Some(*refusal),
        PrivateReply::Drained {
            out: Err(refusal),
            ..
        } => Some(*refusal),
        _ => None,
    }
}

/// The subscriber of a number takes an event for it alone, and has it noted.
pub(crate) fn ask_at(
    subs: &mut IndexMap<SubId, SubscriberSlot>,
    sub: SubId,
    what: What,
    event: PrivateEvent<'_>,
) -> PrivateReply
    requires own { AsksNothing event }
    requires noted { noted_as (subscriber_event event) ≡ Some what }
    requires none { AllSlots HasNone subs.old.entries }
    ensures takes { (slots : SubscriberSlots) → Related SlotShows subs.old.entries slots
        → TakesAt sub (subscriber_event event.entry) (private_told result) slots subs.new.entries }
    ensures plain { PlainReply result }
    ensures none { AllSlots HasNone subs.new.entries }
    ensures len { index_map_len subs.new ≡ index_map_len subs.old }
{
    match subs.get_mut(&sub) {
        None => PrivateReply::Refused(Refusal::NoSuchSub),
        Some(slot) => slot.ask(what, event),
    }
}

/// What the gateway answers, where one subscriber answered this.
pub(crate) fn reply_of(reply: PrivateReply) -> Reply
    ensures told { told result ≡ tells (private_told reply) }
    ensures plain { PlainReply reply → IsPlain result }
    ensures buffer { (bytes : List ℕ) → ReturnsBuffer bytes reply → KeepsBuffer bytes result }
{
    match reply {
        PrivateReply::Done { made, kept } => Reply::Done { made, kept },
        PrivateReply::Refused(refusal) => Reply::Refused(refusal),
        PrivateReply::Drained { buf, out } => Reply::Drained { buf, out },
    }
}

/// The bytes of the subscriber of a number are handed out.
pub(crate) fn drain_at(
    subs: &mut IndexMap<SubId, SubscriberSlot>,
    sub: SubId,
    buf: Vec<u8>,
) -> Reply
    requires none { AllSlots HasNone subs.old.entries }
    ensures takes { (slots : SubscriberSlots) → Related SlotShows subs.old.entries slots
        → DrainsAt sub (length buf.items) (told result) slots subs.new.entries }
    ensures buffer { KeepsBuffer buf.items result }
    ensures none { AllSlots HasNone subs.new.entries }
    ensures len { index_map_len subs.new ≡ index_map_len subs.old }
{
    match subs.get_mut(&sub) {
        None => Reply::Drained {
            buf,
            out: Err(Refusal::NoSuchSub),
        },
        Some(slot) => reply_of(slot.drain(buf)),
    }
}

/// The subscriber of a number, where there is one, has something noted.
pub(crate) fn note_at(
    subs: &mut IndexMap<SubId, SubscriberSlot>,
    sub: SubId,
    what: What,
    code: Option<Refusal>,
)
    requires none { AllSlots HasNone subs.old.entries }
    ensures notes { (slots : SubscriberSlots) → Related SlotShows subs.old.entries slots
        → Related SlotShows subs.new.entries (at_slot sub (with_note (what, code)) slots) }
    ensures none { AllSlots HasNone subs.new.entries }
    ensures len { index_map_len subs.new ≡ index_map_len subs.old }
{
    match subs.get_mut(&sub) {
        None => {}
        Some(slot) => slot.note(what, code),
    }
}

/// A new subscriber stands last, and that it was added is noted. The one refusal is `NoMemory`, and nothing changes then.
pub(crate) fn insert_new(
    alloc: Global,
    subs: &mut IndexMap<SubId, SubscriberSlot>,
    sub: SubId,
    ring: RingSize,
    bytes: RingBytes,
    last: Option<u32>,
) -> Result<(), Refusal>
    requires new { get nat_eq subs.old sub ≡ None }
    requires none { AllSlots HasNone subs.old.entries }
    ensures added { IfOk result (λ u. (slots : SubscriberSlots) → Related SlotShows subs.old.entries slots
        → Related SlotShows subs.new.entries (slots ++ (sub, with_note (What.AddSub, None) (added ring bytes last)) ∷ [])) }
    ensures refused { IfErr result (λ refusal. subs.new.entries ≡ subs.old.entries) }
    ensures memory { IfErr result (λ refusal. refusal ≡ Refusal.NoMemory) }
    ensures none { AllSlots HasNone subs.new.entries }
    ensures len { index_map_len subs.new ≤ index_map_len subs.old + 1 }
{
    let mut slot = SubscriberSlot::new(alloc, ring, bytes, last)?;
    slot.note(What::AddSub, None);
    match subs.insert(sub, slot) {
        Ok(_) => Ok(()),
        Err(_) => Err(Refusal::NoMemory),
    }
}

/// A PMU is granted to the subscriber of a number, with what it has announced.
pub(crate) fn grant_at(
    subs: &mut IndexMap<SubId, SubscriberSlot>,
    sub: SubId,
    key: &PmuKey,
    config: Option<&Arc<PmuConfig>>,
) -> PrivateReply
    requires none { AllSlots HasNone subs.old.entries }
    requires keyed { IfSome (option_map (λ c. arc_value c.now) config) (λ c. block_id c.block ≡ key.now.pmu) }
    ensures takes { (slots : SubscriberSlots) → Related SlotShows subs.old.entries slots
        → GrantsAt sub (grant key.now (option_map (λ c. arc_value c.now) config.entry)) (private_told result) slots subs.new.entries }
    ensures frugal { (slots : SubscriberSlots) → Related SlotShows subs.old.entries slots
        → grant_refusal (slot_of sub slots) true (grant key.now (option_map (λ c. arc_value c.now) config.entry)) ≡ None
        → IfSome (lookup (nat_eq sub) subs.old.entries) (λ v. NeedsNone v.subscriber (grant key.now (option_map (λ c. arc_value c.now) config.entry)))
        → private_told result ≢ refused Refusal.NoMemory }
    ensures plain { PlainReply result }
    ensures none { AllSlots HasNone subs.new.entries }
    ensures len { index_map_len subs.new ≡ index_map_len subs.old }
{
    match subs.get_mut(&sub) {
        None => PrivateReply::Refused(Refusal::NoSuchSub),
        Some(slot) => slot.grant_noted(key, config),
    }
}

/// Those of these subscribers for which something waits to be handed out, in the same order and memory.
pub(crate) fn waiting_among(
    subs: &IndexMap<SubId, SubscriberSlot>,
    mut asked: Vec<SubId>,
) -> Vec<SubId>
    ensures { result.items ≡ filter (λ u. slot_waits (lookup (nat_eq u) subs.now.entries)) asked.items }
{
    asked.retain(|sub| waits(subs, *sub));
    asked
}

/// Whether something waits to be handed out to a subscriber, which may not be there. Where subscribers were added in the order of their numbers from 1
/// and none was dropped, it stands at the place of its number and need not be searched for.
#[inline(always)]
fn waits(subs: &IndexMap<SubId, SubscriberSlot>, sub: SubId) -> bool
    ensures { result ≡ slot_waits (lookup (nat_eq sub) subs.now.entries) }
{
    match subs.get_index(usize::from(sub.get()) - 1) {
        Some((found, slot)) if *found == sub => slot.has_waiting(),
        _ => waits_anywhere(subs, sub),
    }
}

/// The same of a subscriber that stands anywhere.
fn waits_anywhere(subs: &IndexMap<SubId, SubscriberSlot>, sub: SubId) -> bool
    ensures { result ≡ slot_waits (lookup (nat_eq sub) subs.now.entries) }
{
    match subs.get(&sub) {
        None => false,
        Some(slot) => slot.has_waiting(),
    }
}
