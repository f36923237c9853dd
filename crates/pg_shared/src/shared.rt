//! A gateway that many threads share.

ghost use Rattle.std.specs.Prelude.{◌≡◌, ℕ, ◌+◌, ◌≤◌, [], ◌++◌, IfOk, IfErr, IfSome};
ghost use Rattle.pg_turn.specs.Known.{times};
ghost use Rattle.pg_turn.specs.Turns.{IsLonger};
ghost use Rattle.pg_gateway.specs.State.{opening};
ghost use Rattle.pg_gateway.specs.Shown.{GatewayShows};
ghost use Rattle.pg_shared.specs.Sharing.{history_of, PostedCall, IsLastPlace, HandsByViews, AnswersByView, Closed};

use pg_gateway::{Event, Gateway, Reply};
use pg_turn::Turnstile;
use pg_wire::Refusal;
use std::alloc::Global;
use std::marker::Model;
use std::sync::Wait;

/// A caller's place at a shared gateway. It may go to another thread.
///
/// Contracts see of it the shared gateway that it is of, the calls as far as it has seen them, and the places of its own
/// calls among these.
pub type Seat = pg_turn::Seat<Gateway>;

/// One gateway that many threads post to. All calls, of all threads, are one legal history of a gateway of one thread, from
/// its beginning without PMUs and subscribers.
///
/// Threads share it by reference. Contracts see it as a name: a seat is one of this gateway where `seat.table` is that name.
#[derive(Drop)]
pub struct Shared {
    turns: Turnstile<Gateway>,
}

impl Model for Shared {
    ghost use Rattle.atomic_table.specs.Seated.{TableId, table_id_coded};

    ghost Value = { TableId };

    ghost coded = { table_id_coded };

    ghost view = { λ s. s.turns };
}

impl Shared {
    /// A gateway that threads share, as `Gateway::new` made it, and a first seat at it, which has seen no call and made none. The
    /// one refusal is `NoMemory`, and then the gateway is dropped.
    pub fn new(alloc: Global, gateway: Gateway) -> Result<(Shared, Seat), Refusal>
        requires opening { GatewayShows gateway opening }
        ensures seat { IfOk result (λ s. (s.1.table ≡ s.0) × (s.1.seen ≡ []) × (s.1.own ≡ [])) }
        ensures memory { IfErr result (λ refusal. refusal ≡ Refusal.NoMemory) }
    {
        let (turns, seat) = Turnstile::new(alloc, gateway)?;
        Ok((Shared { turns }, seat))
    }

    /// The gateway takes the event once it is the caller's turn. The seat is one of this gateway.
    ///
    /// It waits by parking, and what is promised holds if it returns. The reply is one that a gateway of one thread may give at
    /// the end of a legal history, which begins with all that the seat had seen, ends with this call, and has of the seat's own
    /// calls exactly those that it made, each once, in their order. Where no answer of the history reports a loss or want of
    /// memory, what its drains hand to a subscriber is what a private gateway of that subscriber's view of the history hands
    /// out, and so is this reply where the event asks something for a subscriber.
    #[inline(always)]
    pub fn post<R: Wait>(&self, rt: &R, seat: Seat, event: Event) -> (Seat, Reply)
        requires table { seat.table ≡ self.now }
        ensures seat { result.0.table ≡ seat.table }
        ensures posted { PostedCall seat event result.1 result.0 }
        ensures handed { HandsByViews (history_of result.0.seen) }
        ensures own { AnswersByView (history_of result.0.seen) }
    {
        self.turns.call(rt, seat, event)
    }

    /// The same, and the call's place in the history: how many calls came before it, of all threads. It is the last of the seat's own
    /// places, and stays at `u64::MAX` once it has come there.
    #[inline(always)]
    pub fn post_placed<R: Wait>(&self, rt: &R, seat: Seat, event: Event) -> (Seat, Reply, u64)
        requires table { seat.table ≡ self.now }
        ensures seat { result.0.table ≡ seat.table }
        ensures posted { PostedCall seat event result.1 result.0 }
        ensures place { IsLastPlace result.2 result.0.own }
        ensures handed { HandsByViews (history_of result.0.seen) }
        ensures own { AnswersByView (history_of result.0.seen) }
    {
        self.turns.call_placed(rt, seat, event)
    }

    /// The seat as it was, and a second one of this gateway, which has seen what the first has and has made no call. It takes no
    /// memory and waits for nobody.
    pub fn split(&self, seat: Seat) -> (Seat, Seat)
        requires table { seat.table ≡ self.now }
        ensures first { result.0 ≡ seat }
        ensures second { (result.1.table ≡ seat.table) × (result.1.seen ≡ seat.seen) × (result.1.own ≡ []) }
    {
        let (first, second) = self.turns.split(seat);
        (first, second)
    }

    /// One seat of two. Of what the two have seen one begins the other, and the seat has seen the longer. Its own places are
    /// those of both, which have none in common. It takes no memory and waits for nobody.
    pub fn join(&self, seat: Seat, other: Seat) -> Seat
        requires table { (seat.table ≡ self.now) × (other.table ≡ self.now) }
        ensures seat { result.table ≡ seat.table }
        ensures seen { IsLonger seat.seen other.seen result.seen }
        ensures own { result.own ≡ seat.own ++ other.own }
        ensures apart { (place : ℕ) → times place seat.own + times place other.own ≤ 1 }
    {
        let joined = self.turns.join(seat, other);
        joined
    }

    /// Ends the sharing and hands back the gateway. It is where a legal history leaves it that begins with all that the seat,
    /// one of this gateway, had seen. `None` is answered only where the gateway is not at home. A post borrows the shared
    /// gateway, so that none is under way here; that the gateway is therefore at home is shown by tests and not proved.
    pub fn close(self, seat: Seat) -> Option<Gateway>
        requires table { seat.table ≡ self }
        ensures closed { IfSome result (λ g. Closed seat g) }
    {
        let closed = self.turns.close(seat);
        closed
    }
}
