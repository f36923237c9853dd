//! The gateway of one thread: one method for each event.

ghost use Rattle.std.specs.Prelude.{◌≡◌, ◌+◌, ◌≤◌, [], ℕ, Some, None, true, false, nat_eq, length, vec_len, nat_le, is_some, option_map, IfOk, IfErr};
ghost use Rattle.indexmap.specs.IndexMap.{index_map_len, get};
ghost use Rattle.pg_session.specs.Events.{announced_at, subscriber_event, drain};
ghost use Rattle.pg_session.specs.Private.{told as private_told};
ghost use Rattle.pg_gateway.specs.Related.{Related};
ghost use Rattle.pg_gateway.specs.Sharing.{SubscriberSlots, announces, revokes, ticks};
ghost use Rattle.pg_gateway.specs.GatewayEvents.{gateway_event, told, tells, add_pmu, drop_pmu, add_sub, drop_sub, asks, tick, stats, pmu_stats, audit, standing, who_waits, announce, measure, grant, inquires};
ghost use Rattle.std.specs.Map.{lookup};
ghost use Rattle.std.specs.Option.{option_map_or};
ghost use Rattle.pg_registry.specs.Registered.{has_source};
ghost use Rattle.pg_gateway.specs.State.{SharedMachine, added, noted_as, slot_of, own_of};
ghost use Rattle.pg_gateway.specs.Shown.{SlotShows, SlotValue, GatewayShows, Goes, IsWithinLimits};
ghost use Rattle.pg_gateway.specs.Taking.{broadcast_of, IsNoFrame, IsRising, AsksNothing, HasNone};
ghost use Rattle.pg_gateway.specs.Frugal.{AllSlots, Frugal};
ghost use Rattle.pg_gateway.specs.Posting.{IsPlain, KeepsBuffer};
ghost use Rattle.pg_gateway.specs.Taking.{MayCopy};
ghost use Rattle.pg_gateway.specs.Consistent.{IsReached};
ghost use Rattle.pg_gateway.specs.Posting.{Answers};
ghost use Rattle.pg_gateway.specs.Taking.{IsForAll, told_to_all};
ghost use Rattle.pg_gateway.specs.Routes.{IsRouted};
ghost use Rattle.pg_session.specs.Ready.{AreRising};
ghost use Rattle.std.specs.Arc.{arc_value};
ghost use Rattle.std.specs.Prelude.{List};

use crate::announcing::{announce_all, copy_announced, count_first};
use crate::asking::{ask_at, drain_at, grant_at, insert_new, note_at, reply_of, waiting_among};
use crate::blocks::{count_blocks, count_memory, first_refusal, has_registered, judge_shared};
use crate::broadcast::broadcast;
use crate::deliver::{deliver_frame, prepare_frame};
use crate::event::{Event, Reply};
use crate::routes::Routes;
use crate::slot::{SubscriberSlot, announced};
use circular_buffer::HeapCircularBuffer;
use indexmap::IndexMap;
use pg_audit::What;
use pg_config::{PmuConfig, SourceConfig};
use pg_data::DataFrame;
use pg_outcfg::StampCache;
use pg_registry::Registry;
use pg_ring::{OutQueue, RingBytes, RingSize};
use pg_session::{MemberPlace, PrivateEvent};
use pg_wire::{PmuId, PmuKey, Refusal, SubId};
use std::alloc::Global;
use std::marker::Model;
use std::sync::Arc;

/// The most registered PMUs.
const MOST_PMUS: usize = 256;

/// The most subscribers.
pub(crate) const MOST_SUBS: usize = 64;

/// The most blocks of a frame.
const MOST_BLOCKS: usize = 16;

/// The gateway of one thread, without what its callers need not know.
#[derive(Drop)]
pub(crate) struct GatewayState {
    alloc: Global,
    registry: Registry,
    subs: IndexMap<SubId, SubscriberSlot>,
    last_tick: Option<u32>,
    // Room for the places of a frame's accepted blocks, and of those of them that one subscriber is granted.
    taken: Vec<usize>,
    held: Vec<usize>,
    // For each subscriber the mask of the accepted blocks that it is granted.
    granted_blocks: [u16; MOST_SUBS],
    // Room for the judgement of each registered block: the place of its PMU in the registry, and the refusal, if there is one.
    judged: Vec<(usize, Option<Refusal>)>,
    // The slot and the stamp that were computed last, for streams of one rate.
    stamps: StampCache,
    // Where the registry is searched first for the PMU of the next frame's first block.
    near: usize,
    // Room for the references to announced configurations, on their way to the registry.
    copies: HeapCircularBuffer<Arc<PmuConfig>>,
}

impl Model for GatewayState {
    ghost use Rattle.std.specs.Prelude.{◌≡◌, ◌≤◌, vec_capacity};
    ghost use Rattle.indexmap.specs.IndexMap.{index_map_len};
    ghost use Rattle.pg_gateway.specs.Shown.{GatewayValue};
    ghost use Rattle.pg_gateway.specs.Taking.{HasNone};
    ghost use Rattle.pg_gateway.specs.Frugal.{AllSlots};

    ghost Value = { GatewayValue };

    ghost view = { λ g. record { pmus = g.registry; subs = g.subs.entries; last_tick = g.last_tick } };

    ghost invariant = { λ g. (index_map_len g.subs ≤ 64) × AllSlots HasNone g.subs.entries × (16 ≤ vec_capacity g.taken) × (16 ≤ vec_capacity g.held) × (16 ≤ vec_capacity g.judged) × (g.copies.capacity ≡ 16) };
}

impl GatewayState {
    /// No PMUs and no subscribers, with room reserved for 256 and 64. The one refusal is `NoMemory`.
    pub(crate) fn new(alloc: Global) -> Result<GatewayState, Refusal>
        ensures empty { IfOk result (λ core. core ≡ record { pmus = []; subs = []; last_tick = None }) }
        ensures memory { IfErr result (λ refusal. refusal ≡ Refusal.NoMemory) }
    {
        Ok(GatewayState {
            alloc,
            registry: Registry::new(alloc)?,
            subs: IndexMap::with_capacity(alloc, MOST_SUBS)?,
            last_tick: None,
            taken: Vec::with_capacity(alloc, MOST_BLOCKS)?,
            held: Vec::with_capacity(alloc, MOST_BLOCKS)?,
            granted_blocks: [0; MOST_SUBS],
            judged: Vec::with_capacity(alloc, MOST_BLOCKS)?,
            stamps: StampCache::new(),
            near: 0,
            copies: HeapCircularBuffer::with_capacity(alloc, MOST_BLOCKS)?,
        })
    }

    /// Applies one event. The masks of `routes` are computed again if a data frame needs them and they are not fresh.
    pub(crate) fn step(&mut self, event: Event, routes: &mut Routes) -> Reply
        requires reached { IsReached self.old }
        requires routed { IsRouted self.old routes.old }
        ensures routed { IsRouted self.old routes.new }
        ensures goes { Goes self.old (gateway_event event) (told result) self.new }
        ensures copies { MayCopy (gateway_event event) → Frugal self.old (gateway_event event) (told result) }
        ensures answers { Answers event result }
    {
        match event {
            Event::AddPmu(key) => self.add_pmu(key),
            Event::AddSub(sub, ring, bytes) => self.add_sub(sub, ring, bytes),
            Event::DropSub(sub) => self.drop_sub(sub),
            Event::Grant(sub, key) => self.grant(sub, &key),
            Event::Revoke(sub, key) => self.ask(sub, What::Revoke, PrivateEvent::Revoke(key)),
            Event::Define(sub, definition) => {
                self.ask(sub, What::Define, PrivateEvent::Define(definition))
            }
            Event::Remove(sub, stream) => self.ask(sub, What::Remove, PrivateEvent::Remove(stream)),
            Event::Connect(sub) => self.ask(sub, What::Connect, PrivateEvent::Connect),
            Event::Hangup(sub) => self.ask(sub, What::Hangup, PrivateEvent::Hangup),
            Event::Command(sub, asked) => {
                self.ask(sub, What::Command, PrivateEvent::Command(asked))
            }
            Event::Drain(sub, buf) => self.drain(sub, buf),
            Event::Stats(sub) => self.stats(sub),
            Event::PmuStats(key) => self.pmu_stats(key),
            Event::Audit(sub, index) => self.audit(sub, index),
            Event::Standing(sub, place) => self.standing(sub, place),
            Event::WhoWaits(subs) => self.who_waits(subs),
            for_all => reply_to_all(self.step_all(&for_all, routes)),
        }
    }

    /// An event for all subscribers: a dropped PMU, an announcement, a measurement, a tick. Another one has no reply. The result is the number
    /// of data frames made, and of those that found memory.
    fn step_all(&mut self, event: &Event, routes: &mut Routes) -> Result<(u64, u64), Refusal>
        requires all { IsForAll event.now }
        requires reached { IsReached self.old }
        requires routed { IsRouted self.old routes.old }
        ensures routed { IsRouted self.old routes.new }
        ensures goes { Goes self.old (gateway_event event.now) (told_to_all result) self.new }
        ensures copies { MayCopy (gateway_event event.now) → Frugal self.old (gateway_event event.now) (told_to_all result) }
    {
        match event {
            Event::DropPmu(key) => self.drop_pmu(event, key),
            Event::Announce(config) => {
                let config = announced(config);
                self.announce(event, config)
            }
            Event::Measure(frame) => self.measure(frame, routes),
            Event::Tick(soc) => self.tick(event, *soc),
            _ => unreachable!(),
        }
    }

    /// Whether a subscriber is there.
    pub(crate) fn has_sub(&self, sub: SubId) -> bool
        ensures value { (S : SharedMachine) → GatewayShows self.now S → result ≡ is_some (slot_of sub S.subs) }
    {
        self.subs.contains_key(&sub)
    }

    /// Whether a subscriber is there and connected.
    pub(crate) fn is_connected(&self, sub: SubId) -> bool
        ensures value { (S : SharedMachine) → GatewayShows self.now S → result ≡ option_map_or (λ p. p.connected) (own_of sub S) false }
    {
        match self.subs.get(&sub) {
            None => false,
            Some(slot) => slot.subscriber.is_connected(),
        }
    }

    /// Whether a PMU of a source is registered.
    pub(crate) fn has_source(&self, source: PmuId) -> bool
        ensures value { result ≡ has_source self.now.pmus source }
    {
        self.registry.has_source(source)
    }

    /// Whether no more PMUs can be registered.
    pub(crate) fn is_full(&self) -> bool
        ensures value { result ≡ nat_le 256 (length self.now.pmus) }
    {
        self.registry.len() >= MOST_PMUS
    }

    /// What waits to be handed out to a subscriber, where it is there.
    pub(crate) fn queue(&self, sub: SubId) -> Option<&OutQueue>
        ensures value { option_map (λ queue. queue.now) result
            ≡ option_map (λ (s : SlotValue). s.subscriber.own.output.queue) (lookup (nat_eq sub) self.now.subs) }
    {
        match self.subs.get(&sub) {
            None => None,
            Some(slot) => Some(slot.subscriber.queue()),
        }
    }

    /// Does nothing. Its contract states the limits.
    pub(crate) fn tell_limits(&self)
        ensures within { IsWithinLimits self.now }
    {
        let _pmus = self.registry.len();
        let _subs = self.subs.len();
    }

    /// A PMU is registered.
    pub(crate) fn add_pmu(&mut self, key: PmuKey) -> Reply
        ensures goes { Goes self.old (add_pmu key) (told result) self.new }
        ensures plain { IsPlain result }
    {
        match self.registry.add(key) {
            Err(refusal) => return Reply::Refused(refusal),
            Ok(_) => {}
        }
        Reply::Done { made: 0, kept: 0 }
    }

    /// A subscriber is added, or is there already.
    pub(crate) fn add_sub(&mut self, sub: SubId, ring: RingSize, bytes: RingBytes) -> Reply
        ensures goes { Goes self.old (add_sub sub ring bytes) (told result) self.new }
        ensures plain { IsPlain result }
    {
        if self.subs.contains_key(&sub) {
            note_at(&mut self.subs, sub, What::AddSub, Some(Refusal::SubExists));
            return Reply::Refused(Refusal::SubExists);
        }
        if self.subs.len() >= MOST_SUBS {
            return Reply::Refused(Refusal::SubsFull);
        }
        match insert_new(self.alloc, &mut self.subs, sub, ring, bytes, self.last_tick) {
            Err(refusal) => return Reply::Refused(refusal),
            Ok(_) => {}
        }
        Reply::Done { made: 0, kept: 0 }
    }

    /// A subscriber leaves.
    pub(crate) fn drop_sub(&mut self, sub: SubId) -> Reply
        ensures goes { Goes self.old (drop_sub sub) (told result) self.new }
        ensures plain { IsPlain result }
    {
        if !self.subs.contains_key(&sub) {
            return Reply::Refused(Refusal::NoSuchSub);
        }
        self.subs.shift_remove(&sub);
        Reply::Done { made: 0, kept: 0 }
    }

    /// A PMU is granted to a subscriber. The reference that it needs is taken before anything changes.
    pub(crate) fn grant(&mut self, sub: SubId, key: &PmuKey) -> Reply
        requires reached { IsReached self.old }
        ensures goes { Goes self.old (grant sub key.now) (told result) self.new }
        ensures frugal { Frugal self.old (grant sub key.now) (told result) }
        ensures plain { IsPlain result }
    {
        if !self.registry.has(*key) {
            if !self.subs.contains_key(&sub) {
                return Reply::Refused(Refusal::NoSuchSub);
            }
            note_at(&mut self.subs, sub, What::Grant, Some(Refusal::NoSuchPmu));
            return Reply::Refused(Refusal::NoSuchPmu);
        }
        let config = self.registry.config_of(*key);
        reply_of(grant_at(&mut self.subs, sub, key, config))
    }

    /// An event for one subscriber alone, which is noted.
    pub(crate) fn ask(&mut self, sub: SubId, what: What, event: PrivateEvent<'_>) -> Reply
        requires own { AsksNothing event }
        requires noted { noted_as (subscriber_event event) ≡ Some what }
        ensures goes { Goes self.old (asks sub (subscriber_event event.entry)) (told result) self.new }
        ensures plain { IsPlain result }
    {
        reply_of(ask_at(&mut self.subs, sub, what, event))
    }

    /// A subscriber's bytes are handed out.
    pub(crate) fn drain(&mut self, sub: SubId, buf: Vec<u8>) -> Reply
        ensures goes { Goes self.old (asks sub (drain (length buf.items))) (told result) self.new }
        ensures buffer { KeepsBuffer buf.items result }
    {
        drain_at(&mut self.subs, sub, buf)
    }

    /// A tick.
    fn tick(&mut self, event: &Event, soc: u32) -> Result<(u64, u64), Refusal>
        requires kind { IsNoFrame event.now }
        requires event { broadcast_of event.now [] ≡ ticks soc }
        requires rising { IsRising event.now [] }
        ensures goes { Goes self.old (tick soc) (told_to_all result) self.new }
    {
        let (made, kept) = broadcast(&mut self.subs, event, &[], &mut self.held);
        self.last_tick = Some(soc);
        Ok((made, kept))
    }

    /// A PMU leaves the registry, and each grant of it is revoked.
    fn drop_pmu(&mut self, event: &Event, key: &PmuKey) -> Result<(u64, u64), Refusal>
        requires kind { IsNoFrame event.now }
        requires event { broadcast_of event.now [] ≡ revokes key.now }
        requires rising { IsRising event.now [] }
        ensures goes { Goes self.old (drop_pmu key.now) (told_to_all result) self.new }
    {
        if !self.registry.has(*key) {
            return Err(Refusal::NoSuchPmu);
        }
        let _dropped = self.registry.drop_pmu(*key);
        let (made, kept) = broadcast(&mut self.subs, event, &[], &mut self.held);
        Ok((made, kept))
    }

    /// A source announced a configuration. All references are taken before anything changes.
    fn announce(&mut self, event: &Event, config: &SourceConfig) -> Result<(u64, u64), Refusal>
        requires kind { IsNoFrame event.now }
        requires event { (places : List ℕ) → broadcast_of event.now places ≡ announces (announced_at config.now places) }
        requires rising { (places : List ℕ) → AreRising 0 (length config.now.parts) places → IsRising event.now places }
        ensures goes { Goes self.old (announce config.now) (told_to_all result) self.new }
    {
        if !has_registered(config, &self.registry, &mut self.taken) {
            return Err(Refusal::NoSuchPmu);
        }
        match copy_announced(
            &mut self.subs,
            event,
            config,
            &self.taken,
            &mut self.held,
            &mut self.copies,
        ) {
            Err(refusal) => {
                self.copies.clear();
                count_first(&mut self.registry, config, &self.taken);
                return Err(refusal);
            }
            Ok(_) => {}
        }
        announce_all(&mut self.registry, config, &self.taken, &mut self.copies);
        let (made, kept) = broadcast(&mut self.subs, event, &self.taken, &mut self.held);
        Ok((made, kept))
    }

    /// A source sent a data frame. All references are taken before anything changes. Only subscribers that are granted an accepted block are
    /// visited.
    pub(crate) fn measure(
        &mut self,
        frame: &Arc<DataFrame>,
        routes: &mut Routes,
    ) -> Result<(u64, u64), Refusal>
        requires reached { IsReached self.old }
        requires routed { IsRouted self.old routes.old }
        ensures routed { IsRouted self.old routes.new }
        ensures goes { Goes self.old (measure (arc_value frame.now)) (told_to_all result) self.new }
        ensures frugal { Frugal self.old (measure (arc_value frame.now)) (told_to_all result) }
    {
        let some = judge_shared(
            frame,
            &self.registry,
            self.last_tick,
            &mut self.near,
            &mut self.judged,
            &mut self.taken,
        );
        if !some {
            count_blocks(&mut self.registry, &self.judged);
            return Err(first_refusal(&self.judged));
        }
        routes.refresh(&self.registry, &self.subs);
        let (granted_some, granted_all) = routes.shares_of(&self.judged, &mut self.granted_blocks);
        match prepare_frame(
            &mut self.subs,
            granted_some,
            frame,
            &self.taken,
            granted_all,
            &self.granted_blocks,
            &mut self.held,
            &mut self.stamps,
        ) {
            Err(refusal) => {
                count_memory(&mut self.registry, &self.judged);
                return Err(refusal);
            }
            Ok(_) => {}
        }
        count_blocks(&mut self.registry, &self.judged);
        let (made, kept) = deliver_frame(
            &mut self.subs,
            granted_some,
            frame,
            &self.taken,
            granted_all,
            &self.granted_blocks,
            &mut self.held,
            &mut self.stamps,
        );
        Ok((made, kept))
    }

    /// A subscriber's counters are asked for.
    pub(crate) fn stats(&self, sub: SubId) -> Reply
        ensures goes { Goes self.now (inquires (stats sub)) (told result) self.now }
        ensures plain { IsPlain result }
    {
        match self.subs.get(&sub) {
            None => Reply::Refused(Refusal::NoSuchSub),
            Some(slot) => Reply::Stats(*slot.stats()),
        }
    }

    /// A registered PMU's counters are asked for.
    pub(crate) fn pmu_stats(&self, key: PmuKey) -> Reply
        ensures goes { Goes self.now (inquires (pmu_stats key)) (told result) self.now }
        ensures plain { IsPlain result }
    {
        match self.registry.stats_of(key) {
            None => Reply::Refused(Refusal::NoSuchPmu),
            Some(stats) => Reply::PmuStats(*stats),
        }
    }

    /// An entry of a subscriber's audit is asked for.
    pub(crate) fn audit(&self, sub: SubId, index: u8) -> Reply
        ensures goes { Goes self.now (inquires (audit sub index)) (told result) self.now }
        ensures plain { IsPlain result }
    {
        match self.subs.get(&sub) {
            None => Reply::Refused(Refusal::NoSuchSub),
            Some(slot) => Reply::Audit(slot.noted(index)),
        }
    }

    /// How a subscriber stands is asked for.
    pub(crate) fn standing(&self, sub: SubId, place: MemberPlace) -> Reply
        ensures goes { Goes self.now (inquires (standing sub place)) (told result) self.now }
        ensures plain { IsPlain result }
    {
        match self.subs.get(&sub) {
            None => Reply::Refused(Refusal::NoSuchSub),
            Some(slot) => Reply::Standing(slot.standing(place)),
        }
    }

    /// For which of these subscribers something waits is asked for.
    pub(crate) fn who_waits(&self, subs: Vec<SubId>) -> Reply
        ensures goes { Goes self.now (inquires (who_waits subs.items)) (told result) self.now }
        ensures plain { IsPlain result }
    {
        Reply::Waiting(waiting_among(&self.subs, subs))
    }
}

/// The reply to an event for all.
pub(crate) fn reply_to_all(shared: Result<(u64, u64), Refusal>) -> Reply
    ensures told { told result ≡ told_to_all shared }
    ensures plain { IsPlain result }
{
    match shared {
        Ok((made, kept)) => Reply::Done { made, kept },
        Err(refusal) => Reply::Refused(refusal),
    }
}
