//! A gate that posts to a shared gateway.

ghost use Rattle.std.specs.Prelude.{◌≡◌, Bool, true, false, [], ◌∷◌, Some};
ghost use Rattle.pg_gateway.specs.GatewayEvents.{GatewayEvent, gateway_event, told};
ghost use Rattle.pg_gateway.specs.Posting.{Answers, Notes};
ghost use Rattle.pg_shared.specs.Gates.{said_at};
ghost use Rattle.pg_shared.specs.Continuing.{goes_on_same, goes_on_more};
ghost use Rattle.pg_shared.specs.Onward.{GoesOn};
ghost use Rattle.pg_shared.specs.Sharing.{history_of, PostedCall, IsLastPlace, HandsByViews, AnswersByView};

use crate::shared::{Seat, Shared};
use pg_gateway::{Event, Gate, Reply};
use pg_wire::Refusal;
use std::marker::Model;
use std::sync::Wait;

/// A gate that holds a seat of a shared gateway, and posts at it. Contracts see it as its seat.
///
/// What it says of its posts is what stands at the seat's own places in the history.
#[derive(Drop)]
pub struct SeatGate<'a, R: Wait> {
    rt: &'a R,
    gateway: &'a Shared,
    seat: Option<Seat>,
}

impl<'a, R: Wait> Model for SeatGate<'a, R> {
    ghost use Rattle.pg_gateway.specs.declared.event.Event.{Event};
    ghost use Rattle.pg_gateway.specs.declared.event.Reply.{Reply};
    ghost use Rattle.pg_turn.specs.Known.{Known};
    ghost use Rattle.pg_shared.specs.Gates.{seat_in, IsHeld};

    ghost Value = { Known Event Reply };

    ghost view = { λ g. seat_in g.gateway.now g.seat };

    ghost invariant = { λ g. IsHeld g.gateway.now g.seat };
}

impl<'a, R: Wait> SeatGate<'a, R> {
    /// A gate that holds this seat, which is one of the gateway.
    pub fn new(rt: &'a R, gateway: &'a Shared, seat: Seat) -> SeatGate<'a, R>
        requires table { seat.table ≡ gateway.now }
        ensures seat { result ≡ seat }
    {
        SeatGate {
            rt,
            gateway,
            seat: Some(seat),
        }
    }

    /// The gateway that it posts to, which its seat is one of.
    pub fn gateway(&self) -> &'a Shared
        ensures table { self.now.table ≡ result.now }
    {
        self.gateway
    }

    /// Posts at its seat as `post` does, and returns the call's place in the history too: how many calls came before it, of all threads,
    /// and `u64::MAX` where it is no less.
    #[inline(always)]
    pub fn post_placed(&mut self, event: Event) -> (Reply, u64)
        ensures table { self.new.table ≡ self.old.table }
        // All that `Shared::post_placed` promises of the seat.
        ensures seat { PostedCall self.old event result.0 self.new }
        ensures place { IsLastPlace result.1 self.new.own }
        ensures handed { HandsByViews (history_of self.new.seen) }
        ensures own { AnswersByView (history_of self.new.seen) }
        ensures answers { Answers event result.0 }
        ensures posted { Notes (Some (said_at self.old.seen self.old.own)) (Some (said_at self.new.seen self.new.own))
            ((gateway_event event, told result.0) ∷ []) }
        ensures goes_on { GoesOn self.old self.new }
    {
        let Some(seat) = self.seat.take() else {
            unreachable!();
        };
        let (seat, reply, place) = self.gateway.post_placed(self.rt, seat, event);
        self.seat = Some(seat);
        (reply, place)
    }

    /// Gives its seat back.
    pub fn into_seat(self) -> Seat
        ensures seat { result ≡ self.entry }
    {
        let Some(seat) = self.seat else {
            unreachable!();
        };
        seat
    }
}

impl<R: Wait> Gate for SeatGate<'_, R> {
    ghost posts = { λ g. Some (said_at g.seen g.own) };

    ghost goes_on = { λ g h. GoesOn g h };

    ghost frames = { λ _ _ e. absurd (cc e) };

    ghost stays = { λ g. goes_on_same g };

    ghost joins = { λ g h k. goes_on_more g h k };

    /// Posts at its seat. It waits by parking, and what is promised holds if it returns.
    #[inline(always)]
    fn post(&mut self, event: Event) -> Reply
        ensures table { self.new.table ≡ self.old.table }
        // All that `Shared::post` promises of the seat.
        ensures seat { PostedCall self.old event result self.new }
        ensures handed { HandsByViews (history_of self.new.seen) }
        ensures own { AnswersByView (history_of self.new.seen) }
        ensures answers { Answers event result }
        ensures posted { Notes (Some (said_at self.old.seen self.old.own)) (Some (said_at self.new.seen self.new.own))
            ((gateway_event event, told result) ∷ []) }
        ensures takes { ◌≡◌ {A = GatewayEvent → Bool} (λ _. true) (λ _. true) }
        ensures refused { true ≡ false → result ≡ Reply.Refused Refusal.FarClock }
        ensures goes_on { GoesOn self.old self.new }
    {
        let (reply, _) = self.post_placed(event);
        reply
    }
}
