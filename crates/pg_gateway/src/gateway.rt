//! The gateway, as its callers know it.

ghost use Rattle.std.specs.Prelude.{◌≡◌, nat_eq, nat_le, length, is_some, option_map, true, false, IfOk, IfErr};
ghost use Rattle.std.specs.Map.{lookup};
ghost use Rattle.std.specs.Arc.{arc_value};
ghost use Rattle.std.specs.Option.{option_map_or};
ghost use Rattle.pg_registry.specs.Registered.{has_source};
ghost use Rattle.pg_session.specs.Events.{drain};
ghost use Rattle.pg_gateway.specs.GatewayEvents.{gateway_event, told, measure, asks};
ghost use Rattle.pg_gateway.specs.State.{SharedMachine, opening, slot_of, own_of};
ghost use Rattle.pg_gateway.specs.Shown.{SlotValue, GatewayShows, Goes, IsWithinLimits};
ghost use Rattle.pg_gateway.specs.Alike.{LeavesAlike, TakesOwnBlocks};
ghost use Rattle.pg_gateway.specs.Frugal.{Frugal};
ghost use Rattle.pg_gateway.specs.Posting.{Answers, KeepsBuffer};
ghost use Rattle.pg_gateway.specs.Taking.{told_to_all};
ghost use Rattle.pg_gateway.specs.Consistent.{IsPosted};
ghost use Rattle.pg_gateway.specs.Routes.{KeepsRoutes};

use crate::event::{Event, Reply};
use crate::routes::Routes;
use crate::slot::announced;
use crate::state::{GatewayState, reply_to_all};
use pg_data::DataFrame;
use pg_ring::OutQueue;
use pg_wire::{PmuId, Refusal, SubId};
use std::alloc::Global;
use std::marker::Model;
use std::sync::Arc;

/// The gateway of one thread: at most 256 registered PMUs and 64 subscribers.
#[derive(Drop)]
pub struct Gateway {
    state: GatewayState,
    routes: Routes,
}

impl Model for Gateway {
    ghost use Rattle.pg_gateway.specs.Shown.{GatewayValue};
    ghost use Rattle.pg_gateway.specs.Consistent.{IsReached};
    ghost use Rattle.pg_gateway.specs.Routes.{IsRouted};

    ghost Value = { GatewayValue };

    ghost view = { λ g. g.state };

    ghost invariant = { λ g. IsReached g.state × IsRouted g.state g.routes };
}

/// What an event says was read, where a source announced it.
fn posted(event: &Event)
    ensures { IsPosted (gateway_event event.now) }
{
    if let Event::Announce(config) = event {
        let _count = announced(config).count();
    }
}

/// Whether an event changes no grant, no subscriber's place and no PMU's place.
fn keeps_routes(event: &Event) -> bool
    ensures { result ≡ true → KeepsRoutes (gateway_event event.now) }
{
    match event {
        Event::AddPmu(_) => false,
        Event::DropPmu(_) => false,
        Event::AddSub(_, _, _) => false,
        Event::DropSub(_) => false,
        Event::Grant(_, _) => false,
        Event::Revoke(_, _) => false,
        _ => true,
    }
}

impl Gateway {
    /// No PMUs and no subscribers, with room reserved for 256 and 64. The one refusal is `NoMemory`.
    pub fn new(alloc: Global) -> Result<Gateway, Refusal>
        ensures shows { IfOk result (λ g. GatewayShows g opening) }
        ensures memory { IfErr result (λ refusal. refusal ≡ Refusal.NoMemory) }
    {
        Ok(Gateway {
            state: GatewayState::new(alloc)?,
            routes: Routes::new(alloc)?,
        })
    }

    /// Applies one event: an atomic step of the shared machine.
    ///
    /// A drain is answered with a drain's reply, and a buffer as long as the event's; all other events without a buffer.
    // Inlined, the reply to a data frame is made where it lies, and not filled and moved.
    #[inline(always)]
    pub fn step(&mut self, event: Event) -> Reply
        ensures goes { Goes self.old (gateway_event event) (told result) self.new }
        ensures alike { LeavesAlike self.old (gateway_event event) (told result) }
        ensures own_blocks { TakesOwnBlocks self.old (gateway_event event) (told result) }
        ensures frugal { Frugal self.old (gateway_event event) (told result) }
        ensures answers { Answers event result }
        ensures limits { IsWithinLimits self.new }
    {
        match event {
            Event::Measure(frame) => reply_to_all(self.measure(&frame)),
            Event::Drain(sub, buf) => self.drain(sub, buf),
            other => self.step_other(other),
        }
    }

    /// Applies one data frame: the step of its `Event::Measure`. The result is the number of data frames made for all subscribers, and of
    /// those that found memory. It is smaller than a reply, which has room for all counters.
    ///
    /// # Errors
    ///
    /// The refusal in the reply: the first of a block, `NoSuchPmu` where none is of a registered PMU, or `NoMemory`.
    pub fn measure(&mut self, frame: &Arc<DataFrame>) -> Result<(u64, u64), Refusal>
        ensures goes { Goes self.old (measure (arc_value frame.now)) (told_to_all result) self.new }
        ensures alike { LeavesAlike self.old (measure (arc_value frame.now)) (told_to_all result) }
        ensures own_blocks { TakesOwnBlocks self.old (measure (arc_value frame.now)) (told_to_all result) }
        ensures frugal { Frugal self.old (measure (arc_value frame.now)) (told_to_all result) }
        ensures limits { IsWithinLimits self.new }
    {
        let counts = self.state.measure(frame, &mut self.routes);
        self.state.tell_limits();
        counts
    }

    /// Applies a drain. It is a function of its own, so that nothing is set up that only other events need.
    #[inline(never)]
    fn drain(&mut self, sub: SubId, buf: Vec<u8>) -> Reply
        ensures goes { Goes self.old (asks sub (drain (length buf.items))) (told result) self.new }
        ensures alike { LeavesAlike self.old (asks sub (drain (length buf.items))) (told result) }
        ensures own_blocks { TakesOwnBlocks self.old (asks sub (drain (length buf.items))) (told result) }
        ensures frugal { Frugal self.old (asks sub (drain (length buf.items))) (told result) }
        ensures buffer { KeepsBuffer buf.items result }
        ensures limits { IsWithinLimits self.new }
    {
        let reply = self.state.drain(sub, buf);
        self.state.tell_limits();
        reply
    }

    /// Applies any event. It is a function of its own, so that nothing is set up for a data frame that only other events need.
    #[inline(never)]
    fn step_other(&mut self, event: Event) -> Reply
        ensures goes { Goes self.old (gateway_event event) (told result) self.new }
        ensures alike { LeavesAlike self.old (gateway_event event) (told result) }
        ensures own_blocks { TakesOwnBlocks self.old (gateway_event event) (told result) }
        ensures frugal { Frugal self.old (gateway_event event) (told result) }
        ensures answers { Answers event result }
        ensures limits { IsWithinLimits self.new }
    {
        posted(&event);
        let kept = keeps_routes(&event);
        let reply = self.state.step(event, &mut self.routes);
        self.state.tell_limits();
        self.routes.keep(kept);
        reply
    }

    /// Whether a subscriber is there.
    pub fn has_sub(&self, sub: SubId) -> bool
        ensures value { (S : SharedMachine) → GatewayShows self.now S → result ≡ is_some (slot_of sub S.subs) }
    {
        self.state.has_sub(sub)
    }

    /// Whether a subscriber is there and connected.
    pub fn is_connected(&self, sub: SubId) -> bool
        ensures value { (S : SharedMachine) → GatewayShows self.now S → result ≡ option_map_or (λ p. p.connected) (own_of sub S) false }
    {
        self.state.is_connected(sub)
    }

    /// Whether a PMU of a source is registered. It looks through the keys.
    pub fn has_source(&self, source: PmuId) -> bool
        ensures value { (S : SharedMachine) → GatewayShows self.now S → result ≡ has_source S.pmus source }
    {
        self.state.has_source(source)
    }

    /// Whether 256 PMUs are registered, so that there is no room for another.
    pub fn is_full(&self) -> bool
        ensures value { (S : SharedMachine) → GatewayShows self.now S → result ≡ nat_le 256 (length S.pmus) }
    {
        self.state.is_full()
    }

    /// What waits to be handed out to a subscriber, where it is there.
    pub fn queue(&self, sub: SubId) -> Option<&OutQueue>
        ensures value { option_map (λ queue. queue.now) result
            ≡ option_map (λ (s : SlotValue). s.subscriber.own.output.queue) (lookup (nat_eq sub) self.now.subs) }
    {
        self.state.queue(sub)
    }
}
