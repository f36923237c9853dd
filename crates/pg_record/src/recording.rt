//! What a caller records of its own calls, each with its place in the one history of all callers.

ghost use Rattle.std.specs.Prelude.{◌≡◌, ◌⊎◌, ◌++◌, ◌∷◌, [], ℕ, true, All, length, map, IfOk};
ghost use Rattle.std.specs.List.Sorted.{IsPermutation};
ghost use Rattle.pg_turn.specs.Placed.{PlacedCall};
ghost use Rattle.pg_turn.specs.Turns.{IsLonger};
ghost use Rattle.pg_record.specs.Rows.{Stands, is_row, between};

use pg_turn::{Machine, Seat, Turnstile};
use std::alloc::{AllocError, Global};
use std::sync::Wait;

/// What is recorded of an event.
pub trait Records<E> {
    /// What a record says.
    type Note;

    // What is recorded of an event.
    ghost says: { E → Self.Note };

    /// The record of an event.
    fn note(event: &E) -> Self::Note
        ensures { result ≡ says event.now };
}

/// What was recorded of a call, with the place of the call in the history.
#[derive(Drop)]
pub struct Placed<N> {
    /// How many calls of all callers came before the call.
    pub place: u64,
    /// What was asked.
    pub note: N,
}

/// Records, each of which stands at its place of the history, as far as the seat has seen it. One that found no memory is not there, and
/// its place is missing.
#[derive(Drop)]
pub struct Recording<M: Machine, J: Records<M::Event>> {
    /// The seat that knows it.
    pub seat: Seat<M>,
    /// The records.
    pub notes: Vec<Placed<J::Note>>,
    pub ghost stands: { All (λ n. Stands J.says seat.seen n) notes.items },
}

impl<M: Machine, J: Records<M::Event>> Recording<M, J> {
    /// A recording of no call. It takes no memory.
    pub fn new(alloc: Global, seat: Seat<M>) -> Recording<M, J>
        ensures seat { result.seat ≡ seat }
        ensures notes { result.notes.items ≡ [] }
    {
        Recording {
            seat,
            notes: Vec::new(alloc),
        }
    }

    /// Calls at the seat, and records it. The record is missing where there is no memory for it.
    pub fn call<R: Wait>(
        self,
        rt: &R,
        turns: &Turnstile<M>,
        event: M::Event,
    ) -> (Recording<M, J>, M::Reply)
    where
        J::Note: Drop,
        requires table { self.seat.table ≡ turns.now }
        ensures table { result.0.seat.table ≡ turns.now }
        ensures call { (place : ℕ) × PlacedCall M.may self.seat event result.1 place result.0.seat
            × ((result.0.notes.items ≡ self.notes.items) ⊎ (result.0.notes.items ≡ self.notes.items ++ record { place = place; note = J.says event } ∷ [])) }
    {
        let Recording { seat, mut notes } = self;
        let note = J::note(&event);
        let (seat, reply, place) = turns.call_placed(rt, seat, event);
        let _is_kept = notes.push(Placed { place, note });
        (Recording { seat, notes }, reply)
    }

    /// The recording without its records, and a second one with them, for whoever keeps them: its seat has seen as much and has made no
    /// call. It takes no memory and waits for nobody.
    pub fn cut(self, alloc: Global, turns: &Turnstile<M>) -> (Recording<M, J>, Recording<M, J>)
        requires table { self.seat.table ≡ turns.now }
        ensures first { (result.0.seat ≡ self.seat) × (result.0.notes.items ≡ []) }
        ensures second { (result.1.seat.table ≡ turns.now) × (result.1.seat.seen ≡ self.seat.seen) × (result.1.seat.own ≡ []) × (result.1.notes.items ≡ self.notes.items) }
    {
        let Recording { seat, notes } = self;
        let (seat, other) = turns.split(seat);
        (
            Recording::new(alloc, seat),
            Recording { seat: other, notes },
        )
    }

    /// One recording of two, with the records of both in the order of their places.
    ///
    /// # Errors
    ///
    /// There is no memory.
    pub fn join(
        self,
        turns: &Turnstile<M>,
        other: Recording<M, J>,
    ) -> Result<Recording<M, J>, AllocError>
    where
        J::Note: Drop,
        requires table { (self.seat.table ≡ turns.now) × (other.seat.table ≡ turns.now) }
        ensures table { IfOk result (λ r. r.seat.table ≡ turns.now) }
        ensures seen { IfOk result (λ r. IsLonger self.seat.seen other.seat.seen r.seat.seen) }
        ensures notes { IfOk result (λ r. IsPermutation (self.notes.items ++ other.notes.items) r.notes.items) }
    {
        let Recording { seat, mut notes } = self;
        let Recording {
            seat: others,
            notes: mut more,
        } = other;
        let seat = turns.join(seat, others);
        notes.append(&mut more)?;
        notes.sort_by_key(|n| n.place)?;
        Ok(Recording { seat, notes })
    }

    /// Whether the records are of places in a row, from this one on. They are then what was asked in the history from there on, each call
    /// once and in order.
    pub fn is_whole(&self, from: u64) -> bool
        ensures value { result ≡ is_row from self.now.notes.items }
        ensures law { result ≡ true → map (λ n. n.note) self.now.notes.items ≡ between J.says self.now.seat.seen from (length self.now.notes.items) }
    {
        is_row(&self.notes, from)
    }
}

/// Whether these records are of places in a row, from this one on.
pub fn is_row<N>(notes: &[Placed<N>], from: u64) -> bool
    ensures { result ≡ is_row from notes.now }
{
    let mut next = from;
    for note in notes {
        if note.place != next || next == u64::MAX {
            return false;
        }
        next += 1;
    }
    true
}
