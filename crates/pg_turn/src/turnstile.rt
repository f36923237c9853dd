//! Threads step the value one after the other.
ghost use Rattle.std.specs.Prelude.{◌≡◌, ◌+◌, ◌≤◌, ℕ, true, false, [], ◌∷◌, ◌++◌, IfOk, IfSome, List, length};
ghost use mathlib.Core.List.{IsPrefix};
ghost use Rattle.pg_turn.specs.Known.{times};
ghost use Rattle.pg_turn.specs.Counting.{capped, CountedShows};
ghost use Rattle.pg_turn.specs.Turns.{Called, IsLonger, IsLegal};
ghost use Rattle.pg_turn.specs.Placed.{PlacedCall};
ghost use Rattle.pg_turn.specs.Steps.{view_of};

use crate::counted::Counted;
use crate::machine::Machine;
use crate::plays::{Board, GiveBack, OneHistory, Place, Seen, Settle, Slot, Take, Tell};
use crate::seat::Seat;
use crate::view::Telling;
use atomic_table::{Shared, Table};
use std::alloc::{AllocError, AllocFailed, Global};
use std::marker::{Brand, Model};
use std::snapshot::Snapshot;
use std::sync::Wait;
use std::sync::atomic::{AtomicUsize, Ordering};

type Top<M> = Shared<Slot<M>, Seen<M>, (), OneHistory<M>>;

// Waits until the value is at home, and takes it. It parks between two tries, so that waiting burns no processor. A caller that found it
// away is counted until it has it, so that a give-back makes a wake only where one waits.
fn take<M: Machine, R: Wait>(rt: &R, top: &Top<M>, waiting: &AtomicUsize, place: &mut Place<M>)
    requires table { (place.old.table_id ≡ top.now.table_id) × (top.now.table_id.words ≡ 1) }
    ensures table { place.new.table_id ≡ place.old.table_id }
    ensures taken { (x : Counted M) × (place.new.me.1 ≡ (0, Some x) ∷ place.old.me.1) × CountedShows M.shows x place.new.me.0.seen }
    ensures seen { IsPrefix place.old.me.0.seen place.new.me.0.seen × IsLegal M.may place.new.me.0.seen }
    ensures own { (place.new.me.0.own ≡ place.old.me.0.own) × (place.new.me.0.holds ≡ true) }
{
    if top.compare_exchange::<Take<M>>(place, 0, 0, 1) == 0 {
        return;
    }
    waiting.fetch_add(1, Ordering::SeqCst);
    for _ in rt.forever() {
        if top.compare_exchange::<Take<M>>(place, 0, 0, 1) == 0 {
            waiting.fetch_sub(1, Ordering::SeqCst);
            return;
        }
        top.park(rt, 0, 1);
    }
    unreachable!()
}

// The value answers the event where it lies, in the slot that the seat has taken.
#[inline(always)]
fn step_held<M: Machine>(top: &Top<M>, place: &mut Place<M>, event: M::Event) -> M::Reply
    requires table { place.old.table_id ≡ top.now.table_id }
    requires taken { (x : Counted M) × (place.old.me.1 ≡ (0, Some x) ∷ []) × CountedShows M.shows x place.old.me.0.seen }
    ensures table { place.new.table_id ≡ place.old.table_id }
    ensures view { place.new.me.0 ≡ place.old.me.0 }
    ensures legal { M.may place.old.me.0.seen event result }
    ensures stepped { (y : Counted M) × (place.new.me.1 ≡ (0, Some y) ∷ []) × CountedShows M.shows y (place.old.me.0.seen ++ (event, result) ∷ []) }
{
    let slot = place.slot_mut(top, 0);
    match slot {
        Some(counted) => {
            counted.calls = counted.calls.saturating_add(1);
            counted.machine.step(event)
        }
        None => unreachable!(),
    }
}

// The place that the next call will have: how many calls the value has answered.
#[inline(always)]
fn next_place<M: Machine>(top: &Top<M>, place: &mut Place<M>) -> u64
    requires table { place.old.table_id ≡ top.now.table_id }
    requires taken { (x : Counted M) × (place.old.me.1 ≡ (0, Some x) ∷ []) × CountedShows M.shows x place.old.me.0.seen }
    ensures table { place.new.table_id ≡ place.old.table_id }
    ensures same { place.new.me ≡ place.old.me }
    ensures value { result ≡ capped (length place.old.me.0.seen) }
{
    let slot = place.slot_mut(top, 0);
    match slot {
        Some(counted) => counted.calls,
        None => unreachable!(),
    }
}

// Sets the word, by which the value is at home, notes the call, and wakes one that waits.
#[inline(always)]
fn give_back<M: Machine, J: Telling<M::Event, M::Reply>>(
    top: &Top<M>,
    waiting: &AtomicUsize,
    place: &mut Place<M>,
    event: Snapshot<M::Event>,
    reply: &M::Reply,
)
    requires table { (place.old.table_id ≡ top.now.table_id) × (top.now.table_id.words ≡ 1) × (top.now.table_id.slots ≡ 1) }
    requires holds { place.old.me.0.holds ≡ true }
    requires told { J.calls ≡ (event.value, reply.now) ∷ [] }
    requires legal { M.may place.old.me.0.seen event.value reply.now }
    requires stepped { (y : Counted M) × (place.old.me.1 ≡ (0, Some y) ∷ []) × CountedShows M.shows y (place.old.me.0.seen ++ (event.value, reply.now) ∷ []) }
    ensures table { place.new.table_id ≡ place.old.table_id }
    ensures told { place.new.me ≡ (view_of (place.old.me.0.seen ++ (event.value, reply.now) ∷ []) [] (place.old.me.0.own ++ length place.old.me.0.seen ∷ []) false, []) }
{
    top.store::<GiveBack<J>>(place, 0, 0);
    if waiting.load(Ordering::SeqCst) != 0 {
        top.wake_one(0);
    }
}

/// One value that many threads step in turn. All calls, of all threads, stand in one legal history.
///
/// Threads share it by reference. Contracts see it as the name of its table: a seat is one of this turnstile where
/// `seat.table` is that name.
#[derive(Drop)]
pub struct Turnstile<M: Machine> {
    board: Board<M>,
    // How many are about to park, or do. No clause speaks of it.
    pub(crate) waiting: AtomicUsize,
}

impl<M: Machine> Model for Turnstile<M> {
    ghost use Rattle.std.specs.Prelude.{◌≡◌};
    ghost use Rattle.atomic_table.specs.Seated.{TableId, table_id_coded};

    ghost Value = { TableId };

    ghost coded = { table_id_coded };

    ghost view = { λ t. t.board.shared.table_id };

    ghost invariant = { λ t. (t.board.shared.table_id.words ≡ 1) × (t.board.shared.table_id.slots ≡ 1) };
}

impl<M: Machine> Turnstile<M> {
    /// A turnstile round the machine, which is in its opening state: it shows the empty history. The seat is one of this
    /// turnstile; it has seen no call and made none. The error is that there was no memory.
    pub fn new(alloc: Global, machine: M) -> Result<(Turnstile<M>, Seat<M>), AllocError>
    where
        M: Drop,
        requires opening { M.shows machine [] }
        ensures seat { IfOk result (λ t. (t.1.table ≡ t.0) × (t.1.seen ≡ []) × (t.1.own ≡ [])) }
    {
        let mut slots = Vec::new(alloc);
        slots.push(Some(Counted { machine, calls: 0 }))?;
        let Ok((board, place)) = Table::new(alloc, &[0], slots, &()) else {
            return Err(AllocError);
        };
        Ok((
            Turnstile {
                board,
                waiting: AtomicUsize::new(0),
            },
            Seat { place },
        ))
    }

    /// The machine answers the event once it is the caller's turn. The seat is one of this turnstile.
    ///
    /// It waits by parking, and what is promised holds if it returns. The reply is one that the machine may give at the
    /// end of a legal history. That history begins with all that the seat had seen and ends with this call, whose place
    /// is one more of the seat's own. The seat's own places before it stand in what the seat had seen, so that the calls
    /// in between are those of others: the history has of the seat's own calls exactly those that it made, each once, in
    /// their order.
    #[inline(always)]
    pub fn call<R: Wait>(&self, rt: &R, seat: Seat<M>, event: M::Event) -> (Seat<M>, M::Reply)
        requires table { seat.table ≡ self.now }
        ensures seat { result.0.table ≡ seat.table }
        ensures call { Called M.may seat event result.1 result.0 }
    {
        let Seat { mut place } = seat;
        let top = &self.board.shared;
        take(rt, top, &self.waiting, &mut place);
        let asked = Snapshot::of(&event);
        let reply = step_held(top, &mut place, event);
        give_back::<M, Brand>(top, &self.waiting, &mut place, asked, &reply);
        (Seat { place }, reply)
    }

    /// The same, and the call's place in the history: how many calls came before it, of all threads. It is the last of the
    /// seat's own places, and stays at `u64::MAX` once it has come there.
    #[inline(always)]
    pub fn call_placed<R: Wait>(
        &self,
        rt: &R,
        seat: Seat<M>,
        event: M::Event,
    ) -> (Seat<M>, M::Reply, u64)
        requires table { seat.table ≡ self.now }
        ensures seat { result.0.table ≡ seat.table }
        ensures call { PlacedCall M.may seat event result.1 result.2 result.0 }
    {
        let Seat { mut place } = seat;
        let top = &self.board.shared;
        take(rt, top, &self.waiting, &mut place);
        let number = next_place(top, &mut place);
        let asked = Snapshot::of(&event);
        let reply = step_held(top, &mut place, event);
        give_back::<M, Brand>(top, &self.waiting, &mut place, asked, &reply);
        (Seat { place }, reply, number)
    }

    /// The seat as it was, and a second one of this turnstile, which has seen what the first has and has made no call. It
    /// takes no memory and waits for nobody.
    pub fn split(&self, seat: Seat<M>) -> (Seat<M>, Seat<M>)
        requires table { seat.table ≡ self.now }
        ensures first { result.0 ≡ seat }
        ensures second { (result.1.table ≡ seat.table) × (result.1.seen ≡ seat.seen) × (result.1.own ≡ []) }
    {
        let Seat { mut place } = seat;
        let second = self.board.shared.split_seat::<Tell>(&mut place);
        (Seat { place }, Seat { place: second })
    }

    /// One seat of two. Of what the two have seen one begins the other, and the seat has seen the longer. Its own places
    /// are those of both, which have none in common. It takes no memory and waits for nobody.
    pub fn join(&self, seat: Seat<M>, other: Seat<M>) -> Seat<M>
        requires table { (seat.table ≡ self.now) × (other.table ≡ self.now) }
        ensures seat { result.table ≡ seat.table }
        ensures seen { IsLonger seat.seen other.seen result.seen }
        ensures own { result.own ≡ seat.own ++ other.own }
        ensures apart { (place : ℕ) → times place seat.own + times place other.own ≤ 1 }
    {
        let Seat { mut place } = seat;
        let Seat { place: second } = other;
        let top = &self.board.shared;
        top.join_seat::<Tell>(&mut place, second);
        top.load::<Settle>(&mut place, 0);
        Seat { place }
    }

    /// Ends the turnstile and hands back the machine. It shows a legal history that begins with all that the seat, one of
    /// this turnstile, had seen. `None` is answered only where the machine is not at home. A call borrows the turnstile, so
    /// that none is under way here; that the machine is therefore at home is shown by tests and not proved.
    pub fn close(self, seat: Seat<M>) -> Option<M>
    where
        M: Drop,
        requires table { seat.table ≡ self }
        ensures shows { IfSome result (λ m. (history : _) × IsPrefix seat.seen history × IsLegal M.may history × M.shows m history) }
    {
        let Seat { place } = seat;
        let Turnstile {
            board,
            waiting: _waiting,
        } = self;
        let mut closed = board.close_with(place);
        let word = closed.word(0);
        let slot = closed.take(0);
        closed.free();
        if word != 0 {
            return None;
        }
        let Counted {
            machine,
            calls: _calls,
        } = slot.unwrap();
        Some(machine)
    }
}
