//! The gates of workers, whose seats are of one shared gateway.

ghost use Rattle.std.specs.Prelude.{◌≡◌, Bool, true, false, [], ◌∷◌, Some};
ghost use Rattle.atomic_table.specs.Seated.{TableId};
ghost use Rattle.pg_gateway.specs.GatewayEvents.{GatewayEvent, gateway_event, told};
ghost use Rattle.pg_gateway.specs.Posting.{Answers, Notes};
ghost use Rattle.pg_shared.specs.Gates.{said_at};
ghost use Rattle.pg_shared.specs.Continuing.{goes_on_same, goes_on_more};
ghost use Rattle.pg_shared.specs.Onward.{GoesOn};
ghost use Rattle.pg_shared.specs.Sharing.{history_of, PostedCall, IsLastPlace, HandsByViews, AnswersByView};

use crate::seat_gate::SeatGate;
use crate::shared::{Seat, Shared};
use pg_gateway::{Event, Gate, Reply};
use pg_wire::Refusal;
use std::marker::{Brand, Model, PhantomData};
use std::sync::Wait;

/// The name of a shared gateway in proofs: seats of many threads with one name are of the same gateway.
pub trait Named {
    // The shared gateway.
    ghost table: { TableId };
}

impl Named for Brand {
    ghost table = { record { words = 0; slots = 0; views_name = 0; atom = 0; block = 0; offset = 0; slot_names = [] } };
}

/// A gate that holds a seat of the shared gateway that N names, and posts at it. Contracts see it as its seat. What it
/// says of its posts is what stands at the seat's own places in the history. Each post may wait.
#[derive(Drop)]
pub struct SharedGate<'a, R: Wait, N: Named> {
    gate: SeatGate<'a, R>,
    of: PhantomData<N>,
}

impl<'a, R: Wait, N: Named> Model for SharedGate<'a, R, N> {
    ghost use Rattle.std.specs.Prelude.{◌≡◌};
    ghost use Rattle.pg_gateway.specs.declared.event.Event.{Event};
    ghost use Rattle.pg_gateway.specs.declared.event.Reply.{Reply};
    ghost use Rattle.pg_turn.specs.Known.{Known};

    ghost Value = { Known Event Reply };

    ghost view = { λ g. g.gate };

    ghost invariant = { λ g. g.gate.table ≡ N.table };
}

impl<'a, R: Wait, N: Named> SharedGate<'a, R, N> {
    /// A gate to this shared gateway, with a seat at it.
    pub fn new(rt: &'a R, shared: &'a Shared, seat: Seat) -> SharedGate<'a, R, N>
        requires shared { shared.now ≡ N.table }
        requires seat { seat.table ≡ N.table }
        ensures seat { result ≡ seat }
    {
        SharedGate {
            gate: SeatGate::new(rt, shared, seat),
            of: PhantomData,
        }
    }

    /// Posts at its seat as `post` does, and returns the call's place in the history too: how many calls came before it, of all threads,
    /// and `u64::MAX` where it is no less.
    #[inline(always)]
    pub fn post_placed(&mut self, event: Event) -> (Reply, u64)
        ensures seat { PostedCall self.old event result.0 self.new }
        ensures place { IsLastPlace result.1 self.new.own }
        ensures handed { HandsByViews (history_of self.new.seen) }
        ensures own { AnswersByView (history_of self.new.seen) }
        ensures answers { Answers event result.0 }
        ensures posted { Notes (Some (said_at self.old.seen self.old.own)) (Some (said_at self.new.seen self.new.own))
            ((gateway_event event, told result.0) ∷ []) }
        ensures goes_on { GoesOn self.old self.new }
    {
        self.gate.post_placed(event)
    }

    /// Gives its seat back, which is one of the gateway that N names.
    pub fn into_seat(self) -> Seat
        ensures seat { result ≡ self.entry }
        ensures table { result.table ≡ N.table }
    {
        let SharedGate { gate, .. } = self;
        gate.into_seat()
    }
}

impl<R: Wait, N: Named> Gate for SharedGate<'_, R, N> {
    ghost posts = { λ g. Some (said_at g.seen g.own) };

    ghost goes_on = { λ g h. GoesOn g h };

    ghost frames = { λ _ _ e. absurd (cc e) };

    ghost stays = { λ g. goes_on_same g };

    ghost joins = { λ g h k. goes_on_more g h k };

    /// Posts at its seat. It waits by parking, and what is promised holds if it returns.
    #[inline(always)]
    fn post(&mut self, event: Event) -> Reply
        // All that `Shared::post` promises of the seat.
        ensures seat { PostedCall self.old event result self.new }
        ensures handed { HandsByViews (history_of self.new.seen) }
        ensures own { AnswersByView (history_of self.new.seen) }
        ensures answers { Answers event result }
        ensures posted { Notes (Some (said_at self.old.seen self.old.own)) (Some (said_at self.new.seen self.new.own))
            ((gateway_event event, told result) ∷ []) }
        ensures takes { ◌≡◌ {A = GatewayEvent → Bool} (λ _. true) (λ _. true) }
        ensures refused { true ≡ false → result ≡ Reply.Refused Refusal.FarClock }
        ensures goes_on { GoesOn self.old self.new }
    {
        self.gate.post(event)
    }
}
