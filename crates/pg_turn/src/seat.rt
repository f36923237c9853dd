//! What one caller of a turnstile knows.
use crate::machine::Machine;
use crate::plays::Place;
use std::marker::Model;

/// A caller's place at a turnstile. It has no bytes, and may go to another thread.
///
/// Contracts see it as `Known`: the turnstile that it is of, the history as far as it has seen it, and the places of its
/// own calls there. Each of its own places stands in what it has seen. A seat that is dropped leaves its calls in the
/// history and takes nothing away.
#[derive(Drop)]
pub struct Seat<M: Machine> {
    /// The base crate's seat, which has the view.
    pub(crate) place: Place<M>,
}

impl<M: Machine> Model for Seat<M> {
    ghost use Rattle.std.specs.Prelude.{◌≡◌, false, []};
    ghost use Rattle.pg_turn.specs.Known.{Known, StandsIn};

    ghost Value = { Known M.Event M.Reply };

    ghost view = { λ s. record { table = s.place.table_id; seen = s.place.me.0.seen; own = s.place.me.0.own } };

    ghost invariant = { λ s. (s.place.me.1 ≡ []) × (s.place.me.0.holds ≡ false) × (s.place.me.0.other ≡ []) × StandsIn s.place.me.0.own s.place.me.0.seen };
}
