//! The rule of the turnstile, over the table that holds it, and what each step notes.
//!
//! The table has one word and one slot. The word is 0 while the value is at home in the slot, and 1 while a seat has it.
//! Making the table and parking and waking are the base crate's own; the steps here are take, give back, split, join, and
//! the load after a join that compares two histories.
ghost use Rattle.std.specs.Prelude.{[], false};
ghost use Rattle.pg_turn.specs.Counting.{CountedShows};
ghost use Rattle.pg_turn.specs.Steps.{Kept, took, gave, settled, newcomer, told, both};

use crate::counted::Counted;
use crate::machine::Machine;
use crate::view::{Telling, View};
use atomic_table::{Join, Play, Seat, Split, Table, TableRule};
use std::alloc::Global;
use std::marker::PhantomData;

/// What lies in the slot: the machine with the count of its calls, or none while a seat has it in hand.
pub type Slot<M> = Option<Counted<M>>;

/// A view over the events and replies of a machine.
pub type Seen<M> = View<<M as Machine>::Event, <M as Machine>::Reply>;

/// The base crate's seat.
pub type Place<M> = Seat<Slot<M>, Seen<M>>;

/// The base crate's table.
pub type Board<M> = Table<Slot<M>, Seen<M>, (), OneHistory<M>, Global>;

/// The rule: there is one legal history of all calls, and the word, the value at home and all views fit it.
pub struct OneHistory<M> {
    of: PhantomData<M>,
}

impl<M: Machine> TableRule<Slot<M>, Seen<M>, ()> for OneHistory<M> {
    ghost holds = { λ _. Kept (CountedShows M.shows) M.may };

    ghost first = { λ _. newcomer [] };
}

/// The word goes from 0 to 1, and the seat has the value and sees the whole history. Where 1 is found nothing changes.
pub(crate) struct Take<M> {
    of: PhantomData<M>,
}

impl<M: Machine> Play<Slot<M>, Seen<M>> for Take<M> {
    ghost then = { took (CountedShows M.shows) M.may };
}

/// The word goes from 1 to 0, the value goes home, and the history and the own places are longer by one.
pub(crate) struct GiveBack<J> {
    of: PhantomData<J>,
}

impl<M, E, R, J: Telling<E, R>> Play<Option<M>, View<E, R>> for GiveBack<J> {
    ghost then = { gave J.calls };
}

/// After a join: of the two histories one begins the other, and the seat has the longer.
pub(crate) struct Settle;

impl<M, E, R> Play<Option<M>, View<E, R>> for Settle {
    ghost then = { settled };
}

/// A split gives the second seat what the first has seen; a join brings both back into one.
pub(crate) struct Tell;

impl<E, R> Split<View<E, R>> for Tell {
    ghost left = { λ v. v };

    ghost right = { told };
}

impl<E, R> Join<View<E, R>> for Tell {
    ghost both = { both };

    ghost spent = { newcomer [] };
}
