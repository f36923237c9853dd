//! The place where a subscriber connects.

ghost use Rattle.std.specs.Prelude.{◌≡◌, ◌↔◌, ◌⊎◌, ◌∷◌, [], if◌then◌else◌, true, false, None, is_some, option_and_then, option_map, ℕ, List, Option};
ghost use Rattle.std.specs.Duration.{as_nanos};
ghost use Rattle.std.specs.Time.{instant_nanos};
ghost use Rattle.std.specs.Net.Addr.{ipv4_bits};
ghost use Rattle.pg_limits.specs.Hosts.{is_allowed};
ghost use Rattle.pg_session.specs.Events.{connect};
ghost use Rattle.pg_gateway.specs.GatewayEvents.{asks, told};
ghost use Rattle.pg_gateway.specs.Posting.{Notes};
ghost use Rattle.pg_limits.specs.Timers.{acknowledging, left_by, timeout_by};
ghost use Rattle.pg_service.specs.Posts.{OwnOnly};
ghost use Rattle.pg_subscribers.specs.Endpoints.{Admits, HungUp, Connected, makes_room, refusal_of, with_room};

use crate::connection::{ServeResult, SubscriberConnection};
use pg_gateway::{Event, Gate, Reply};
use pg_limits::{Allow, Budget, ConnectionTimers, CountingIo, OnChange, Timeout};
use pg_service::{ConnectionRules, MeteredGate};
use pg_wire::{Refusal, SubId};
use std::alloc::Global;
use std::io::{Read, Write};
use std::marker::Model;
use std::net::Ipv4Addr;
use std::time::{Duration, Instant};

/// What becomes of a connection that was accepted.
#[derive(Clone, Copy, Debug, PartialEq, Eq)]
pub enum Admission {
    /// It is the subscriber's now. Where `replaced`, one that stood was hung up for it, and is to be closed.
    Accepted {
        /// Whether one that stood was hung up.
        replaced: bool,
    },
    /// Its host may not connect: nothing was posted, and it is to be closed.
    Forbidden,
    /// The gateway refuses it, or there is no memory for its session: it is to be closed. Where `replaced`, so is the one that
    /// stood.
    Refused {
        /// Why.
        refusal: Refusal,
        /// Whether one that stood was hung up.
        replaced: bool,
    },
}

/// The place where one subscriber connects, with its connection if there is one. A subscriber is known by the port
/// that it connects to. It knows neither sockets nor clocks.
#[derive(Drop)]
pub struct SubscriberEndpoint {
    sub: SubId,
    rules: ConnectionRules,
    connection: Option<SubscriberConnection>,
}

impl Model for SubscriberEndpoint {
    ghost use Rattle.std.specs.Prelude.{◌≡◌, IfSome, option_map};
    ghost use Rattle.std.specs.Duration.{as_nanos};
    ghost use Rattle.pg_subscribers.specs.Endpoints.{EndpointState};

    ghost Value = { EndpointState };

    ghost view = { λ d. record { sub = d.sub; allow = option_map (λ v. v.items) d.rules.allow.networks; takeover = d.rules.takeover; stall = option_map as_nanos d.rules.stall; idle = option_map as_nanos d.rules.idle; change = d.rules.change; connection = d.connection } };

    ghost invariant = { λ d. IfSome d.connection (λ v. v.session.sub ≡ d.sub) };
}

impl SubscriberEndpoint {
    /// The place where this subscriber connects. Nobody has.
    pub fn new(sub: SubId, rules: ConnectionRules) -> SubscriberEndpoint
        ensures sub { result.sub ≡ sub }
        ensures allow { result.allow ≡ option_map (λ v. v.items) rules.allow.networks }
        ensures takeover { result.takeover ≡ rules.takeover }
        ensures stall { result.stall ≡ option_map as_nanos rules.stall }
        ensures idle { result.idle ≡ option_map as_nanos rules.idle }
        ensures change { result.change ≡ rules.change }
        ensures nobody { result.connection ≡ None }
    {
        SubscriberEndpoint {
            sub,
            rules,
            connection: None,
        }
    }

    /// The subscriber.
    pub fn sub(&self) -> SubId
        ensures { result ≡ self.now.sub }
    {
        self.sub
    }

    /// The subscriber that connected, if one has.
    pub fn connection(&self) -> Option<&SubscriberConnection>
        ensures { option_map (λ g. g.now) result ≡ self.now.connection }
    {
        self.connection.as_ref()
    }

    /// A subscriber connects from this host: its connection is posted, unless its host may not connect or there is no memory for
    /// its session. With `takeover` it is posted before that the connection hangs up that stands, if it stands for 5 seconds at least.
    #[tactic(auto, using(crate::proofs::Own::own_as, crate::proofs::Own::own_nil, crate::proofs::Own::own_more))]
    pub fn admit<G: Gate>(
        &mut self,
        alloc: Global,
        gate: &mut G,
        host: Ipv4Addr,
        now: Instant,
    ) -> Admission
        ensures sub { self.new.sub ≡ self.old.sub }
        ensures same { self.new ≡ record self.old { connection = self.new.connection } }
        // A host that may not connect changes nothing.
        ensures foreign { (result ≡ Admission.Forbidden) ↔ (is_allowed (ipv4_bits host) self.old.allow ≡ false) }
        ensures unasked { result ≡ Admission.Forbidden → (G.posts gate.new ≡ G.posts gate.old) × (self.new ≡ self.old) }
        // One that may is the subscriber's just where the gateway answers so; or there is no memory, and nothing changes.
        ensures admits { is_allowed (ipv4_bits host) self.old.allow ≡ true →
            ((result ≡ Admission.Refused Refusal.NoMemory false) × (G.posts gate.new ≡ G.posts gate.old) × (self.new ≡ self.old))
            ⊎ Admits (instant_nanos now) self.old self.new result (G.posts gate.old) (G.posts gate.new) }
        // It posts of its own subscriber alone.
        ensures own { OwnOnly self.old.sub (G.posts gate.old) (G.posts gate.new) }
    {
        if !self.rules.allow.allows(host) {
            return Admission::Forbidden;
        }
        let timers = ConnectionTimers::new(self.rules.stall, self.rules.idle, now);
        let connection = match SubscriberConnection::new(alloc, self.sub, timers) {
            Ok(connection) => connection,
            Err(refusal) => {
                return Admission::Refused {
                    refusal,
                    replaced: false,
                };
            }
        };
        let replaced = self.make_room(gate, now);
        let reply = post_connect(self.sub, gate);
        match refusal_in(&reply) {
            Some(refusal) => Admission::Refused { refusal, replaced },
            None => {
                // Where the gateway knows of no connection, one that stood here was another subscriber's of the same number.
                let replaced = replaced || self.connection.is_some();
                self.connection = Some(connection);
                Admission::Accepted { replaced }
            }
        }
    }

    /// Whether the connection that stands is hung up for a new one: with `takeover`, once it stands for 5 seconds.
    fn gives_way(&self, now: Instant) -> bool
        ensures way { result ≡ makes_room (instant_nanos now) self.now }
        ensures some { result ≡ true → is_some self.now.connection ≡ true }
    {
        match &self.connection {
            Some(connection) => self.rules.takeover && connection.timers().is_settled(now),
            None => false,
        }
    }

    /// Hangs up the connection that stands, if it gives way to a new one, and returns whether it does.
    #[tactic(auto, using(crate::proofs::Own::own_nil))]
    fn make_room<G: Gate>(&mut self, gate: &mut G, now: Instant) -> bool
        ensures sub { self.new.sub ≡ self.old.sub }
        ensures same { self.new ≡ record self.old { connection = self.new.connection } }
        ensures room { self.new ≡ with_room (instant_nanos now) self.old }
        ensures stood { result ≡ makes_room (instant_nanos now) self.old }
        ensures hung { HungUp (makes_room (instant_nanos now) self.old) self.old.sub (G.posts gate.old) (G.posts gate.new) }
        ensures own { OwnOnly self.old.sub (G.posts gate.old) (G.posts gate.new) }
    {
        self.gives_way(now) && self.hang_up(gate)
    }

    /// Hangs up the subscriber that connected, and returns whether somebody had.
    #[tactic(auto, using(crate::proofs::Own::own_as, crate::proofs::Own::own_nil, crate::proofs::Own::own_more))]
    pub fn hang_up<G: Gate>(&mut self, gate: &mut G) -> bool
        ensures sub { self.new.sub ≡ self.old.sub }
        ensures same { self.new ≡ record self.old { connection = self.new.connection } }
        ensures nobody { self.new.connection ≡ None }
        ensures stood { result ≡ is_some self.old.connection }
        ensures hung { HungUp (is_some self.old.connection) self.old.sub (G.posts gate.old) (G.posts gate.new) }
        // It posts of its own subscriber alone.
        ensures own { OwnOnly self.old.sub (G.posts gate.old) (G.posts gate.new) }
    {
        match self.connection.take() {
            Some(connection) => {
                connection.hang_up(gate);
                true
            }
            None => false,
        }
    }

    /// Hangs up the subscriber that connected where it was waited for as long as it may be, and returns why.
    #[tactic(auto, using(crate::proofs::Own::own_as, crate::proofs::Own::own_nil, crate::proofs::Own::own_more))]
    pub fn expire<G: Gate>(&mut self, gate: &mut G, now: Instant) -> Option<Timeout>
        ensures sub { self.new.sub ≡ self.old.sub }
        ensures same { self.new ≡ record self.old { connection = self.new.connection } }
        ensures told { result ≡ option_and_then (λ v. timeout_by (instant_nanos now) v.timers) self.old.connection }
        ensures reason { self.new.connection ≡ (if is_some result then None else self.old.connection) }
        ensures hung { HungUp (is_some result) self.old.sub (G.posts gate.old) (G.posts gate.new) }
        // It posts of its own subscriber alone.
        ensures own { OwnOnly self.old.sub (G.posts gate.old) (G.posts gate.new) }
    {
        let timeout = self.connection.as_ref()?.timers().timeout(now)?;
        self.hang_up(gate);
        Some(timeout)
    }

    /// Whether the socket of the connection that stands takes no more bytes by now.
    pub fn is_blocked(&self) -> bool {
        self.connection
            .as_ref()
            .is_some_and(|connection| connection.timers().is_blocked())
    }

    /// What is done where the effective blocks of a stream change while it is on.
    pub fn change(&self) -> OnChange
        ensures { result ≡ self.now.change }
    {
        self.rules.change
    }

    /// Since this time none of the bytes that were sent to the subscriber that connected is acknowledged; `None` where all are.
    pub fn acknowledged(&mut self, since: Option<Instant>)
        ensures { self.new ≡ record self.old { connection = option_map (λ (v : Connected). record v { timers = acknowledging (option_map instant_nanos since) v.timers }) self.old.connection } }
    {
        if let Some(connection) = &mut self.connection {
            connection.acknowledged(since);
        }
    }

    /// How many bytes are left to write of what was drained for the connection that stands.
    pub fn pending(&self) -> usize {
        match &self.connection {
            Some(connection) => connection.pending(),
            None => 0,
        }
    }

    /// How long until the subscriber that connected is hung up, if nothing goes either way; `None` for ever.
    pub fn left(&self, now: Instant) -> Option<Duration>
        ensures { option_map as_nanos result ≡ option_and_then (λ v. left_by (instant_nanos now) v.timers) self.now.connection }
    {
        self.connection.as_ref()?.timers().left(now)
    }

    /// Serves the subscriber that connected. It is nobody's any more where the connection ended.
    #[tactic(auto, using(crate::proofs::Own::own_as, crate::proofs::Own::own_nil, crate::proofs::Own::own_more))]
    pub fn serve<R: Read, W: Write, G: Gate>(
        &mut self,
        reader: &mut Budget<CountingIo<R>>,
        writer: &mut CountingIo<W>,
        gate: &mut MeteredGate<G>,
        now: Instant,
    ) -> ServeResult
        ensures sub { self.new.sub ≡ self.old.sub }
        ensures same { self.new ≡ record self.old { connection = self.new.connection } }
        // It posts of its own subscriber alone.
        ensures own { OwnOnly self.old.sub (G.posts gate.old.gate) (G.posts gate.new.gate) }
    {
        let Some(connection) = &mut self.connection else {
            return ServeResult::Waits;
        };
        let outcome = connection.serve(reader, writer, gate, now);
        self.leave(outcome)
    }

    /// Hands out what waits for the subscriber that connected, unless its socket takes none now.
    #[tactic(auto, using(crate::proofs::Own::own_as, crate::proofs::Own::own_nil, crate::proofs::Own::own_more))]
    pub fn hand_out<W: Write, G: Gate>(
        &mut self,
        writer: &mut CountingIo<W>,
        gate: &mut MeteredGate<G>,
        now: Instant,
    ) -> ServeResult
        ensures sub { self.new.sub ≡ self.old.sub }
        ensures same { self.new ≡ record self.old { connection = self.new.connection } }
        // It posts of its own subscriber alone.
        ensures own { OwnOnly self.old.sub (G.posts gate.old.gate) (G.posts gate.new.gate) }
    {
        let Some(connection) = &mut self.connection else {
            return ServeResult::Waits;
        };
        if connection.timers().is_blocked() {
            return ServeResult::Waits;
        }
        let outcome = connection.hand_out(writer, gate, now);
        self.leave(outcome)
    }

    /// Forgets the subscriber that connected where the connection ended.
    fn leave(&mut self, outcome: ServeResult) -> ServeResult
        ensures sub { self.new.sub ≡ self.old.sub }
        ensures same { self.new ≡ record self.old { connection = self.new.connection } }
    {
        if let ServeResult::Closes(_) = outcome {
            self.connection = None;
        }
        outcome
    }
}

/// Posts that a subscriber connects.
fn post_connect<G: Gate>(sub: SubId, gate: &mut G) -> Reply
    ensures own { OwnOnly sub (G.posts gate.old) (G.posts gate.new) }
    ensures asked { Notes (G.posts gate.old) (G.posts gate.new) ((asks sub connect, told result) ∷ []) }
{
    gate.post(Event::Connect(sub))
}

/// Why a connection is refused that was answered so, if it is.
fn refusal_in(reply: &Reply) -> Option<Refusal>
    ensures { result ≡ refusal_of reply.now }
{
    match reply {
        Reply::Done { .. } => None,
        Reply::Refused(refusal) => Some(*refusal),
        // No gate answers a connection so.
        _ => Some(Refusal::NoMemory),
    }
}
