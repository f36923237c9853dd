//! A subscriber that has connected.

ghost use Rattle.std.specs.Prelude.{◌≡◌, ℕ, List, Option, IfOk, IfErr, length, option_map};
ghost use Rattle.std.specs.Time.{instant_nanos};
ghost use Rattle.pg_session.specs.Commands.{unheard};
ghost use Rattle.pg_session.specs.Events.{hangup};
ghost use Rattle.pg_limits.specs.Timers.{acknowledging};
ghost use Rattle.pg_service.specs.Posts.{Asks, OwnOnly};
ghost use Rattle.pg_shared.specs.Serving.{Ran};
ghost use Rattle.pg_subscribers.specs.Endpoints.{HasHeard};

use pg_gateway::{Event, Gate};
use pg_ingest::End;
use pg_limits::{AlwaysBlocked, Budget, ConnectionTimers, CountingIo, Timeout};
use pg_service::MeteredGate;
use pg_session::Session;
use pg_shared::serve_session;
use pg_wire::{Refusal, SubId};
use std::alloc::Global;
use std::io::{Read, Write};
use std::marker::Model;
use std::time::Instant;

/// The turns that a call of `serve_session` takes at most. The budget of reads ends before.
const TURNS: u64 = 10_000;

/// The bytes of a drain that was filled, behind which more may wait.
pub(crate) const FULL: usize = 16_384;

/// The drains of one turn, besides those at reads. What waits behind them is handed out in the next turn.
const DRAINS: u32 = 64;

/// Why a subscriber's connection ended.
#[derive(Clone, Copy, Debug, PartialEq, Eq)]
pub enum CloseReason {
    /// By itself: it was closed, or failed with this end.
    Ended(End),
    /// It was hung up.
    Timeout(Timeout),
}

/// How a subscriber was served.
#[derive(Clone, Copy, Debug, PartialEq, Eq)]
pub enum ServeResult {
    /// Nothing is left to do until its socket is ready or frames were made.
    Waits,
    /// Its reads or drains were used up: bytes may still wait.
    More,
    /// Its connection ended, and is to be closed.
    Closes(CloseReason),
}

/// A subscriber that has connected: its session, and how long it is waited for. It knows neither sockets nor clocks.
#[derive(Drop)]
pub struct SubscriberConnection {
    session: Session,
    timers: ConnectionTimers,
}

impl Model for SubscriberConnection {
    ghost use Rattle.pg_subscribers.specs.Endpoints.{HasHeard, Connected};

    ghost Value = { Connected };

    ghost view = { λ g. record { session = g.session; timers = g.timers } };

    ghost invariant = { λ g. HasHeard g.session };
}

impl SubscriberConnection {
    /// A subscriber that connects now, and is waited for so long.
    ///
    /// # Errors
    ///
    /// `NoMemory`.
    pub fn new(
        alloc: Global,
        sub: SubId,
        timers: ConnectionTimers,
    ) -> Result<SubscriberConnection, Refusal>
        ensures state { IfOk result (λ g. g ≡ record { session = unheard sub; timers = timers }) }
        ensures memory { IfErr result (λ refusal. refusal ≡ Refusal.NoMemory) }
    {
        Ok(SubscriberConnection {
            session: Session::new(alloc, sub)?,
            timers,
        })
    }

    /// The subscriber.
    pub fn sub(&self) -> SubId
        ensures { result ≡ self.now.session.sub }
    {
        self.session.sub()
    }

    /// How long it is waited for.
    pub fn timers(&self) -> &ConnectionTimers
        ensures { result.now ≡ self.now.timers }
    {
        &self.timers
    }

    /// Since this time none of the bytes that were sent to it is acknowledged; `None` where all are.
    pub fn acknowledged(&mut self, since: Option<Instant>)
        ensures { self.new ≡ record self.old { timers = acknowledging (option_map instant_nanos since) self.old.timers } }
    {
        self.timers.acknowledged(since);
    }

    /// How many bytes are left to write of what was drained.
    pub fn pending(&self) -> usize
        ensures { result ≡ length self.now.session.left }
    {
        self.session.left().len()
    }

    /// Posts that it hangs up.
    pub fn hang_up<G: Gate>(&self, gate: &mut G)
        // It posts of its own subscriber alone.
        ensures own { OwnOnly self.now.session.sub (G.posts gate.old) (G.posts gate.new) }
        ensures asked { Asks self.now.session.sub hangup (G.posts gate.old) (G.posts gate.new) }
    {
        post_hangup(self.session.sub(), gate);
    }

    /// Serves its connection: reads until the budget is used up or the reader would block, and then hands out until nothing
    /// waits or the writer would block. Where the connection ended or failed, it was posted that it hangs up.
    pub fn serve<R: Read, W: Write, G: Gate>(
        &mut self,
        reader: &mut Budget<CountingIo<R>>,
        writer: &mut CountingIo<W>,
        gate: &mut MeteredGate<G>,
        now: Instant,
    ) -> ServeResult
        ensures sub { self.new.session.sub ≡ self.old.session.sub }
        // It posts of its own subscriber alone.
        ensures own { OwnOnly self.old.session.sub (G.posts gate.old.gate) (G.posts gate.new.gate) }
        // The commands of what it read are posted, and what its drains handed out is written in order, but for what is left to write.
        ensures ran { Ran self.old.session self.new.session (R.remaining reader.old.reader.inner) (R.remaining reader.new.reader.inner)
            (W.contents writer.old.inner) (W.contents writer.new.inner) (G.posts gate.old.gate) (G.posts gate.new.gate) }
    {
        let before = (reader.reader.moved, writer.moved);
        let end = read_and_drain(&mut self.session, reader, writer, gate);
        let came = before.0 < reader.reader.moved;
        let took = before.1 < writer.moved;
        self.timers.served(now, came, took, end == End::Stalled);
        outcome_of(end, reader.is_used_up() || gate.handed() == FULL)
    }

    /// Hands out what waits, without a read: of a subscriber that has nothing to say now.
    pub fn hand_out<W: Write, G: Gate>(
        &mut self,
        writer: &mut CountingIo<W>,
        gate: &mut MeteredGate<G>,
        now: Instant,
    ) -> ServeResult
        ensures sub { self.new.session.sub ≡ self.old.session.sub }
        // It posts of its own subscriber alone.
        ensures own { OwnOnly self.old.session.sub (G.posts gate.old.gate) (G.posts gate.new.gate) }
        // It reads nothing. What its drains handed out is written in order, but for what is left to write.
        ensures ran { (r : Option (List ℕ)) → Ran self.old.session self.new.session r r
            (W.contents writer.old.inner) (W.contents writer.new.inner) (G.posts gate.old.gate) (G.posts gate.new.gate) }
    {
        let before = writer.moved;
        let end = drain_once_and_on(&mut self.session, writer, gate);
        let took = before < writer.moved;
        self.timers.served(now, false, took, end == End::Stalled);
        outcome_of(end, gate.handed() == FULL)
    }
}

/// Posts that a subscriber hangs up.
fn post_hangup<G: Gate>(sub: SubId, gate: &mut G)
    ensures own { OwnOnly sub (G.posts gate.old) (G.posts gate.new) }
    ensures asked { Asks sub hangup (G.posts gate.old) (G.posts gate.new) }
{
    gate.post(Event::Hangup(sub));
}

/// How a subscriber was served whose loop ended so.
fn outcome_of(end: End, is_more: bool) -> ServeResult {
    match end {
        End::Quiet if is_more => ServeResult::More,
        End::Quiet | End::Stalled => ServeResult::Waits,
        End::Closed | End::Fault(_) => ServeResult::Closes(CloseReason::Ended(end)),
    }
}

/// One call of the session's loop.
fn serve_once<R: Read, W: Write, G: Gate>(
    session: &mut Session,
    reader: &mut R,
    writer: &mut W,
    gate: &mut MeteredGate<G>,
    turns: u64,
) -> End
    requires heard { HasHeard session.old }
    ensures heard { HasHeard session.new }
    ensures sub { session.new.sub ≡ session.old.sub }
    ensures own { OwnOnly session.old.sub (G.posts gate.old.gate) (G.posts gate.new.gate) }
    ensures ran { Ran session.old session.new (R.remaining reader.old) (R.remaining reader.new)
        (W.contents writer.old) (W.contents writer.new) (G.posts gate.old.gate) (G.posts gate.new.gate) }
{
    serve_session(session, reader, writer, gate, turns)
}

/// Reads until the reader would block, and then drains.
fn read_and_drain<R: Read, W: Write, G: Gate>(
    session: &mut Session,
    reader: &mut R,
    writer: &mut W,
    gate: &mut MeteredGate<G>,
) -> End
    requires heard { HasHeard session.old }
    ensures heard { HasHeard session.new }
    ensures sub { session.new.sub ≡ session.old.sub }
    ensures own { OwnOnly session.old.sub (G.posts gate.old.gate) (G.posts gate.new.gate) }
    ensures ran { Ran session.old session.new (R.remaining reader.old) (R.remaining reader.new)
        (W.contents writer.old) (W.contents writer.new) (G.posts gate.old.gate) (G.posts gate.new.gate) }
{
    let end = serve_once(session, reader, writer, gate, TURNS);
    drain_on(session, writer, gate, end)
}

/// Drains without a read.
fn drain_once_and_on<W: Write, G: Gate>(
    session: &mut Session,
    writer: &mut W,
    gate: &mut MeteredGate<G>,
) -> End
    requires heard { HasHeard session.old }
    ensures heard { HasHeard session.new }
    ensures sub { session.new.sub ≡ session.old.sub }
    ensures own { OwnOnly session.old.sub (G.posts gate.old.gate) (G.posts gate.new.gate) }
    ensures ran { (r : Option (List ℕ)) → Ran session.old session.new r r
        (W.contents writer.old) (W.contents writer.new) (G.posts gate.old.gate) (G.posts gate.new.gate) }
{
    let end = serve_once(session, &mut AlwaysBlocked, writer, gate, 1);
    drain_on(session, writer, gate, end)
}

/// After a call that ended so: drains again while the last drain was filled, so many times at most.
fn drain_on<W: Write, G: Gate>(
    session: &mut Session,
    writer: &mut W,
    gate: &mut MeteredGate<G>,
    last: End,
) -> End
    requires heard { HasHeard session.old }
    ensures heard { HasHeard session.new }
    ensures sub { session.new.sub ≡ session.old.sub }
    ensures own { OwnOnly session.old.sub (G.posts gate.old.gate) (G.posts gate.new.gate) }
    ensures ran { (r : Option (List ℕ)) → Ran session.old session.new r r
        (W.contents writer.old) (W.contents writer.new) (G.posts gate.old.gate) (G.posts gate.new.gate) }
{
    let mut end = last;
    'drains: for _ in 0..DRAINS {
        if end != End::Quiet || gate.handed() < FULL {
            break;
        }
        end = serve_once(session, &mut AlwaysBlocked, writer, gate, 1);
    }
    end
}
