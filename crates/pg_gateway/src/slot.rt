//! One subscriber with its audit.

ghost use Rattle.std.specs.Prelude.{◌≡◌, ◌<◌, ◌≤◌, [], ◌∷◌, ℕ, List, nat_eq, true, false, length, filter, vec_capacity, slice_get, IfOk, IfErr, Some, None, option_map, IfSome};
ghost use Rattle.std.specs.Arc.{arc_value};
ghost use Rattle.std.specs.Int.{bit_at};
ghost use Rattle.pg_audit.specs.Noting.{newest_at};
ghost use Rattle.pg_config.specs.Parts.{block_id};
ghost use Rattle.pg_session.specs.Events.{grant};
ghost use Rattle.pg_session.specs.Ready.{IsPlain as PlainReply};
ghost use Rattle.pg_entitle.specs.Grants.{has_key};
ghost use Rattle.pg_session.specs.Events.{subscriber_event, drain, announced_at};
ghost use Rattle.pg_session.specs.Private.{told};
ghost use Rattle.pg_session.specs.Steps.{MakesFew};
ghost use Rattle.pg_session.specs.Standing.{standing_of};
ghost use Rattle.pg_session.specs.Ready.{ReturnsBuffer, AreRising};
ghost use Rattle.pg_gateway.specs.Sharing.{SubscriberSlot as SlotState, announces, revokes};
ghost use Rattle.pg_gateway.specs.State.{added, with_note, noted_as};
ghost use Rattle.pg_gateway.specs.Shown.{SlotShows, slot_waits};
ghost use Rattle.pg_gateway.specs.Taking.{Asks, AsksNothing, HasNone, broadcast_of, measured, part_passes, IsNoFrame, IsRising, Fits, PreparesShare, Awaits, TakesBroadcast, TakesGrant, counts_of};
ghost use Rattle.pg_gateway.specs.Routes.{HasBits, HoldsPart, IsOnlyBit, places_at, TellsShare};

use crate::asking::code;
use crate::event::Event;
use pg_audit::{Audit, Entry, Stats, What};
use pg_config::{PmuConfig, SourceConfig};
use pg_data::DataFrame;
use pg_outcfg::StampCache;
use pg_ring::{RingBytes, RingSize};
use pg_session::{MemberPlace, PrivateEvent, PrivateReply, Standing, Subscriber};
use pg_wire::{PmuKey, Refusal};
use std::alloc::Global;
use std::marker::Model;
use std::sync::Arc;

/// A subscriber, and the audit of what was asked of it.
#[derive(Drop)]
pub(crate) struct SubscriberSlot {
    pub(crate) subscriber: Subscriber,
    audit: Audit,
    // The event of which references were prepared has no share for it.
    spared: bool,
}

impl Model for SubscriberSlot {
    ghost use Rattle.pg_gateway.specs.Shown.{SlotValue};

    ghost Value = { SlotValue };

    ghost view = { λ s. record { subscriber = s.subscriber; audit = s.audit; spared = s.spared } };
}

impl SubscriberSlot {
    /// A subscriber that was just added, with nothing noted. The one refusal is `NoMemory`.
    pub(crate) fn new(
        alloc: Global,
        ring: RingSize,
        bytes: RingBytes,
        last: Option<u32>,
    ) -> Result<SubscriberSlot, Refusal>
        ensures shows { IfOk result (λ s. SlotShows s (added ring bytes last)) }
        ensures none { IfOk result (λ s. HasNone s) }
        ensures memory { IfErr result (λ refusal. refusal ≡ Refusal.NoMemory) }
    {
        Ok(SubscriberSlot {
            subscriber: Subscriber::new(alloc, ring, bytes, last)?,
            audit: Audit::new(alloc)?,
            spared: false,
        })
    }

    /// Notes what was asked, and why it was refused.
    pub(crate) fn note(&mut self, what: What, code: Option<Refusal>)
        ensures shows { (s : SlotState) → SlotShows self.old s → SlotShows self.new (with_note (what, code) s) }
        ensures subscriber { self.new.subscriber ≡ self.old.subscriber }
        ensures spared { self.new.spared ≡ self.old.spared }
    {
        self.audit.note(what, code);
    }

    /// Takes an event for it alone, which is noted.
    pub(crate) fn ask(&mut self, what: What, event: PrivateEvent<'_>) -> PrivateReply
        requires own { AsksNothing event }
        requires noted { noted_as (subscriber_event event) ≡ Some what }
        requires none { HasNone self.old }
        ensures takes { (s : SlotState) → SlotShows self.old s
            → Asks s (subscriber_event event.entry) (told result) (Some what) self.new }
        ensures plain { PlainReply result }
        ensures none { HasNone self.new }
    {
        let reply = self.subscriber.take(event, false);
        self.audit.note(what, code(&reply));
        reply
    }

    /// Takes a grant of a PMU, with what that has announced. The copy that it needs is made before anything changes.
    pub(crate) fn grant(&mut self, key: &PmuKey, config: Option<&Arc<PmuConfig>>) -> PrivateReply
        requires none { HasNone self.old }
        requires keyed { IfSome (option_map (λ c. arc_value c.now) config) (λ c. block_id c.block ≡ key.now.pmu) }
        ensures takes { TakesGrant (grant key.now (option_map (λ c. arc_value c.now) config.entry)) None self.old (told result) self.new }
        ensures plain { PlainReply result }
    {
        let event = PrivateEvent::Grant(*key, config);
        match self.subscriber.copies(&event) {
            Err(refusal) => return PrivateReply::Refused(refusal),
            Ok(_) => {}
        }
        self.subscriber.take(event, false)
    }

    /// The same, which is noted.
    pub(crate) fn grant_noted(
        &mut self,
        key: &PmuKey,
        config: Option<&Arc<PmuConfig>>,
    ) -> PrivateReply
        requires none { HasNone self.old }
        requires keyed { IfSome (option_map (λ c. arc_value c.now) config) (λ c. block_id c.block ≡ key.now.pmu) }
        ensures takes { TakesGrant (grant key.now (option_map (λ c. arc_value c.now) config.entry)) (Some What.Grant) self.old (told result) self.new }
        ensures plain { PlainReply result }
    {
        let reply = self.grant(key, config);
        self.audit.note(What::Grant, code(&reply));
        reply
    }

    /// Hands out its bytes.
    pub(crate) fn drain(&mut self, buf: Vec<u8>) -> PrivateReply
        requires none { HasNone self.old }
        ensures takes { (s : SlotState) → SlotShows self.old s → Asks s (drain (length buf.items)) (told result) None self.new }
        ensures buffer { ReturnsBuffer buf.items result }
        ensures none { HasNone self.new }
    {
        self.subscriber.take(PrivateEvent::Drain(buf), false)
    }

    /// Its counters.
    pub(crate) fn stats(&self) -> &Stats
        ensures { result.now ≡ self.now.subscriber.own.output.stats }
    {
        self.subscriber.stats()
    }

    /// How it stands, with the stream and the member at this place.
    pub(crate) fn standing(&self, place: MemberPlace) -> Standing
        ensures { (s : SlotState) → SlotShows self.now s → result ≡ standing_of s.own place }
    {
        self.subscriber.standing(place)
    }

    /// Whether something waits to be handed out.
    pub(crate) fn has_waiting(&self) -> bool
        ensures { result ≡ slot_waits (Some self.now) }
    {
        self.subscriber.queue().frames_to_leave() > 0
    }

    /// What was noted of it: 0 the newest.
    pub(crate) fn noted(&self, index: u8) -> Option<Entry>
        ensures { (s : SlotState) → SlotShows self.now s → result ≡ newest_at s.noted index }
    {
        self.audit.last(usize::from(index))
    }

    /// Prepares the references that its share of an event needs, except of a data frame. Nothing else changes. The one refusal is
    /// `NoMemory`.
    pub(crate) fn prepare(
        &mut self,
        event: &Event,
        places: &[usize],
        held: &mut Vec<usize>,
    ) -> Result<(), Refusal>
        requires event { IsNoFrame event.now }
        requires rising { IsRising event.now places.now }
        requires room { 16 ≤ vec_capacity held.old }
        requires none { HasNone self.old }
        requires fit { Fits (broadcast_of event.now places.now) self.old }
        ensures prepares { PreparesShare (broadcast_of event.now places.now) self.old result self.new }
        ensures room { 16 ≤ vec_capacity held.new }
    {
        match event {
            Event::Announce(config) => {
                let config = announced(config);
                self.prepare_announced(config, places, held)
            }
            _ => Ok(()),
        }
    }

    /// Prepares the references to what granted PMUs announced.
    fn prepare_announced(
        &mut self,
        config: &SourceConfig,
        places: &[usize],
        held: &mut Vec<usize>,
    ) -> Result<(), Refusal>
        requires rising { AreRising 0 (length config.now.parts) places.now }
        requires room { 16 ≤ vec_capacity held.old }
        requires none { HasNone self.old }
        requires fit { Fits (announces (announced_at config.now places.now)) self.old }
        ensures prepares { PreparesShare (announces (announced_at config.now places.now)) self.old result self.new }
        ensures room { 16 ≤ vec_capacity held.new }
    {
        if !hold(&self.subscriber, config, places, held) {
            self.spared = true;
            return Ok(());
        }
        self.subscriber
            .copies(&PrivateEvent::Announce(config, held))?;
        Ok(())
    }

    /// Prepares the references to granted blocks that its streams need. The blocks at all of these places are granted to it where `whole`, else
    /// those in the mask `number`. Nothing else changes. The one refusal is `NoMemory`.
    pub(crate) fn prepare_measured(
        &mut self,
        frame: &Arc<DataFrame>,
        places: &[usize],
        whole: bool,
        number: u64,
        held: &mut Vec<usize>,
        stamps: &mut StampCache,
    ) -> Result<(), Refusal>
        requires rising { AreRising 0 (length (arc_value frame.now).config.parts) places.now }
        requires few { length places.now ≤ 16 }
        requires some { 0 < length places.now }
        requires tell { TellsShare whole number (arc_value frame.now).config places.now self.old }
        requires room { 16 ≤ vec_capacity held.old }
        requires none { HasNone self.old }
        requires fit { Fits (measured (arc_value frame.now) places.now) self.old }
        ensures prepares { PreparesShare (measured (arc_value frame.now) places.now) self.old result self.new }
        ensures room { 16 ≤ vec_capacity held.new }
    {
        if whole {
            return self.subscriber.prepare_frame(frame, places, stamps);
        }
        match only_bit(number) {
            Some(bit) => self.prepare_block(frame, places[bit as usize], stamps),
            None => self.prepare_some(frame, places, number, held, stamps),
        }
    }

    /// Prepares the references that its streams need to the only block of a frame that it is granted. Nothing else changes. The one refusal
    /// is `NoMemory`.
    #[inline(always)]
    pub(crate) fn prepare_block(
        &mut self,
        frame: &Arc<DataFrame>,
        place: usize,
        stamps: &mut StampCache,
    ) -> Result<(), Refusal>
        requires place { place < length (arc_value frame.now).config.parts }
        requires holds { HoldsPart (arc_value frame.now).config place self.old }
        requires none { HasNone self.old }
        requires fit { Fits (measured (arc_value frame.now) (place ∷ [])) self.old }
        ensures prepares { PreparesShare (measured (arc_value frame.now) (place ∷ [])) self.old result self.new }
    {
        self.subscriber.prepare_block(frame, place, stamps)
    }

    /// Prepares the references to the blocks in the mask `number`, which may be empty.
    #[inline(never)]
    fn prepare_some(
        &mut self,
        frame: &Arc<DataFrame>,
        places: &[usize],
        number: u64,
        held: &mut Vec<usize>,
        stamps: &mut StampCache,
    ) -> Result<(), Refusal>
        requires rising { AreRising 0 (length (arc_value frame.now).config.parts) places.now }
        requires few { length places.now ≤ 16 }
        requires tell { TellsShare false number (arc_value frame.now).config places.now self.old }
        requires room { 16 ≤ vec_capacity held.old }
        requires none { HasNone self.old }
        requires fit { Fits (measured (arc_value frame.now) places.now) self.old }
        ensures prepares { PreparesShare (measured (arc_value frame.now) places.now) self.old result self.new }
        ensures room { 16 ≤ vec_capacity held.new }
    {
        if number == 0 {
            return Ok(());
        }
        hold_all(places, number, held);
        self.subscriber.prepare_frame(frame, held, stamps)
    }

    /// Gives up the references that lie ready. Nothing else changes.
    pub(crate) fn forget(&mut self)
        ensures none { HasNone self.new }
        ensures own { self.new.subscriber.own ≡ self.old.subscriber.own }
        ensures audit { self.new.audit ≡ self.old.audit }
    {
        self.subscriber.forget();
        self.spared = false;
    }

    /// Applies its share of an event, if it has one, except of a data frame. With `lost` all data frames that it makes are lost. The result is
    /// the number of frames made, and of those kept.
    pub(crate) fn apply_share(
        &mut self,
        event: &Event,
        places: &[usize],
        held: &mut Vec<usize>,
        lost: bool,
    ) -> (u64, u64)
        requires event { IsNoFrame event.now }
        requires rising { IsRising event.now places.now }
        requires room { 16 ≤ vec_capacity held.old }
        requires awaits { Awaits (broadcast_of event.now places.now) self.old }
        ensures takes { TakesBroadcast (broadcast_of event.now places.now) lost self.old result self.new }
        ensures spared { self.new.spared ≡ false }
        ensures room { 16 ≤ vec_capacity held.new }
    {
        if self.spared {
            self.spared = false;
            return (0, 0);
        }
        match event {
            Event::DropPmu(key) => self.apply_revoked(key, lost),
            Event::Announce(config) => {
                let config = announced(config);
                self.apply_announced(config, places, held, lost)
            }
            Event::Tick(soc) => counts(self.subscriber.take(PrivateEvent::Tick(*soc), lost)),
            _ => (0, 0),
        }
    }

    /// A PMU is dropped, and so revoked where it is granted.
    fn apply_revoked(&mut self, key: &PmuKey, lost: bool) -> (u64, u64)
        requires awaits { Awaits (revokes key.now) self.old }
        ensures takes { TakesBroadcast (revokes key.now) lost self.old result self.new }
        ensures spared { self.new.spared ≡ self.old.spared }
    {
        if !self.subscriber.holds(*key) {
            return (0, 0);
        }
        self.audit.note(What::Revoke, None);
        counts(self.subscriber.take(PrivateEvent::Revoke(*key), lost))
    }

    /// Registered PMUs announced.
    fn apply_announced(
        &mut self,
        config: &SourceConfig,
        places: &[usize],
        held: &mut Vec<usize>,
        lost: bool,
    ) -> (u64, u64)
        requires rising { AreRising 0 (length config.now.parts) places.now }
        requires room { 16 ≤ vec_capacity held.old }
        requires awaits { Awaits (announces (announced_at config.now places.now)) self.old }
        ensures takes { TakesBroadcast (announces (announced_at config.now places.now)) lost self.old result self.new }
        ensures spared { self.new.spared ≡ self.old.spared }
        ensures room { 16 ≤ vec_capacity held.new }
    {
        if !hold(&self.subscriber, config, places, held) {
            return (0, 0);
        }
        counts(
            self.subscriber
                .take(PrivateEvent::Announce(config, held), lost),
        )
    }

    /// Applies its share of a data frame's blocks, if it has one, as `apply_share` does with other events. The blocks at all of these places are
    /// granted to it where `whole`, else those in the mask `number`.
    pub(crate) fn apply_measured(
        &mut self,
        frame: &Arc<DataFrame>,
        places: &[usize],
        whole: bool,
        number: u64,
        held: &mut Vec<usize>,
        lost: bool,
        stamps: &mut StampCache,
    ) -> (u64, u64)
        requires rising { AreRising 0 (length (arc_value frame.now).config.parts) places.now }
        requires few { length places.now ≤ 16 }
        requires some { 0 < length places.now }
        requires tell { TellsShare whole number (arc_value frame.now).config places.now self.old }
        requires room { 16 ≤ vec_capacity held.old }
        requires awaits { Awaits (measured (arc_value frame.now) places.now) self.old }
        ensures takes { TakesBroadcast (measured (arc_value frame.now) places.now) lost self.old result self.new }
        ensures spared { self.new.spared ≡ false }
        ensures room { 16 ≤ vec_capacity held.new }
    {
        if whole {
            return counts(self.subscriber.apply_frame(frame, places, lost, stamps));
        }
        match only_bit(number) {
            Some(bit) => {
                let place = places[bit as usize];
                self.apply_block(frame, place, lost, stamps)
            }
            None => self.apply_some(frame, places, number, held, lost, stamps),
        }
    }

    /// Applies the only block of a frame that it is granted.
    #[inline(always)]
    pub(crate) fn apply_block(
        &mut self,
        frame: &Arc<DataFrame>,
        place: usize,
        lost: bool,
        stamps: &mut StampCache,
    ) -> (u64, u64)
        requires place { place < length (arc_value frame.now).config.parts }
        requires holds { HoldsPart (arc_value frame.now).config place self.old }
        requires awaits { Awaits (measured (arc_value frame.now) (place ∷ [])) self.old }
        ensures takes { TakesBroadcast (measured (arc_value frame.now) (place ∷ [])) lost self.old result self.new }
        ensures spared { self.new.spared ≡ false }
    {
        counts(self.subscriber.apply_block(frame, place, lost, stamps))
    }

    /// Applies the blocks in the mask `number`, which may be empty.
    #[inline(never)]
    fn apply_some(
        &mut self,
        frame: &Arc<DataFrame>,
        places: &[usize],
        number: u64,
        held: &mut Vec<usize>,
        lost: bool,
        stamps: &mut StampCache,
    ) -> (u64, u64)
        requires rising { AreRising 0 (length (arc_value frame.now).config.parts) places.now }
        requires few { length places.now ≤ 16 }
        requires tell { TellsShare false number (arc_value frame.now).config places.now self.old }
        requires room { 16 ≤ vec_capacity held.old }
        requires awaits { Awaits (measured (arc_value frame.now) places.now) self.old }
        ensures takes { TakesBroadcast (measured (arc_value frame.now) places.now) lost self.old result self.new }
        ensures spared { self.new.spared ≡ false }
        ensures room { 16 ≤ vec_capacity held.new }
    {
        if number == 0 {
            self.spared = false;
            return (0, 0);
        }
        hold_all(places, number, held);
        counts(self.subscriber.apply_frame(frame, held, lost, stamps))
    }
}

/// What a reply counts: the frames made, and those kept.
fn counts(reply: PrivateReply) -> (u64, u64)
    ensures counts { result ≡ counts_of (told reply) }
    ensures few { MakesFew (told reply) → (result.0 ≤ 640) × (result.1 ≤ result.0) }
{
    match reply {
        PrivateReply::Done { made, kept } => (made, kept),
        _ => (0, 0),
    }
}

/// Whether the PMU at a place is granted to the subscriber.
fn is_held(subscriber: &Subscriber, config: &SourceConfig, place: usize) -> bool
    requires place { place < length config.now.parts }
    ensures { result ≡ part_passes (has_key subscriber.now.own.grants) config.now (slice_get config.now.parts place) }
{
    subscriber.holds(config.key(place))
}

/// Of a source's PMUs at these places, those that the subscriber is granted. It answers whether there are any.
fn hold(
    subscriber: &Subscriber,
    config: &SourceConfig,
    places: &[usize],
    held: &mut Vec<usize>,
) -> bool
    requires rising { AreRising 0 (length config.now.parts) places.now }
    requires room { 16 ≤ vec_capacity held.old }
    ensures some { result ≡ true → 0 < length held.new.items }
    ensures none { result ≡ false → length held.new.items ≡ 0 }
    ensures rising { AreRising 0 (length config.now.parts) held.new.items }
    ensures held { held.new.items
        ≡ filter (λ i. part_passes (has_key subscriber.now.own.grants) config.now (slice_get config.now.parts i)) places.now }
    ensures room { 16 ≤ vec_capacity held.new }
{
    let _count = config.count();
    held.clear();
    for place in places {
        if is_held(subscriber, config, *place) {
            held.push_reserved(*place);
        }
    }
    !held.is_empty()
}

/// The only bit that is set in a numberif it is known.
#[inline(always)]
fn only_bit(number: u64) -> Option<u32>
    ensures { IfSome result (λ bit. IsOnlyBit number bit) }
{
    if number == 0 {
        return None;
    }
    let first = number.trailing_zeros();
    let more = number & !(1u64 << first);
    if more != 0 {
        return None;
    }
    Some(first)
}

/// Those of these places whose bits a mask has.
fn hold_all(places: &[usize], number: u64, held: &mut Vec<usize>)
    requires bits { HasBits (length places.now) number }
    requires few { length places.now ≤ 16 }
    requires room { 16 ≤ vec_capacity held.old }
    ensures held { held.new.items ≡ places_at number 0 places.now }
    ensures room { 16 ≤ vec_capacity held.new }
{
    held.clear();
    let mut left = number;
    'held: while left != 0 {
        let place = left.trailing_zeros();
        left &= !(1u64 << place);
        held.push_reserved(places[place as usize]);
    }
}

/// The configuration that is announced.
pub(crate) fn announced(config: &Arc<SourceConfig>) -> &SourceConfig
    ensures { result.now ≡ arc_value config.now }
{
    config
}
