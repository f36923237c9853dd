//! The gates of a service's threads.

ghost use Rattle.std.specs.Prelude.{◌≡◌, Bool, true, false, [], ◌∷◌, Some};
ghost use Rattle.pg_gateway.specs.GatewayEvents.{GatewayEvent, gateway_event, told};
ghost use Rattle.pg_gateway.specs.Posting.{Answers, Notes};
ghost use Rattle.pg_shared.specs.Gates.{said_at};
ghost use Rattle.pg_shared.specs.Onward.{GoesOn};
ghost use Rattle.pg_shared.specs.Continuing.{goes_on_same, goes_on_more};
ghost use Rattle.pg_shared.specs.Sharing.{history_of, PostedCall, HandsByViews, AnswersByView};
ghost use Rattle.pg_recorder.specs.Answering.{HandsOver};
ghost use Rattle.pg_recorder.specs.Recording.{AsksAtMost, IsRecorded};

use crate::call_records::CallRecords;
use pg_gateway::{Event, Gate, Reply};
use pg_shared::{Named, Seat, Shared, SharedGate};
use pg_wire::{PmuId, PmuKey, Refusal};
use std::marker::Model;
use std::rt::Clock;
use std::sync::Wait;

/// A gate that posts at a seat of the shared gateway that N names, and records what it posts by T.
#[derive(Drop)]
pub struct WorkerGate<'a, R: Wait, N: Named, T: CallRecords> {
    rt: &'a R,
    gate: SharedGate<'a, R, N>,
    records: T,
}

impl<'a, R: Wait, N: Named, T: CallRecords> Model for WorkerGate<'a, R, N, T> {
    ghost use Rattle.pg_recorder.specs.Recording.{Recording};

    ghost Value = { Recording };

    ghost view = { λ g. record { seat = g.gate; taping = T.taping g.records } };
}

impl<'a, R: Wait, N: Named, T: CallRecords> WorkerGate<'a, R, N, T> {
    /// A gate to this shared gateway, with a seat at it, which records what it posts by these.
    pub fn new(rt: &'a R, shared: &'a Shared, seat: Seat, records: T) -> WorkerGate<'a, R, N, T>
        requires shared { shared.now ≡ N.table }
        requires seat { seat.table ≡ N.table }
        ensures seat { result.seat ≡ seat }
        ensures taping { result.taping ≡ T.taping records }
    {
        WorkerGate {
            rt,
            gate: SharedGate::new(rt, shared, seat),
            records,
        }
    }

    /// A round of its worker begins: what it records has this machine's time by now.
    #[inline(always)]
    pub fn begin_round(&mut self)
    where
        R: Clock,
        ensures seat { self.new.seat ≡ self.old.seat }
        ensures handed { HandsOver self.old.taping self.new.taping }
    {
        self.records.begin_round(self.rt);
    }

    /// A round of its worker ends: what it recorded is handed over.
    #[inline(always)]
    pub fn end_round(&mut self)
        ensures seat { self.new.seat ≡ self.old.seat }
        ensures handed { HandsOver self.old.taping self.new.taping }
    {
        self.records.end_round(self.rt);
    }

    /// Gives its seat back, which is one of the gateway that N names. What it recorded is handed over.
    pub fn into_seat(self) -> Seat
        ensures seat { result ≡ self.entry.seat }
        ensures table { result.table ≡ N.table }
    {
        let WorkerGate { rt, gate, records } = self;
        records.end_all(rt);
        gate.into_seat()
    }
}

impl<'a, R: Wait + Clock, N: Named, T: CallRecords> WorkerGate<'a, R, N, T> {
    /// Records that so many frames of a source were ignored for this reason, by a question, which changes nothing; where nothing is recorded none is asked.
    pub fn note_ignored(&mut self, source: PmuId, reason: Refusal, count: u64)
        ensures goes_on { GoesOn self.old.seat self.new.seat }
        ensures asks { AsksAtMost source reason count self.old self.new }
    {
        if self.records.note_ignored(source, reason, count) {
            let asked = Event::PmuStats(PmuKey {
                source,
                pmu: source,
            });
            let _ = self.post(asked);
        }
    }
}

impl<'a, R: Wait + Clock, N: Named, T: CallRecords> Gate for WorkerGate<'a, R, N, T> {
    ghost posts = { λ g. Some (said_at g.seat.seen g.seat.own) };

    ghost goes_on = { λ g h. GoesOn g.seat h.seat };

    ghost frames = { λ _ _ e. absurd (cc e) };

    ghost stays = { λ g. goes_on_same g.seat };

    ghost joins = { λ g h k. goes_on_more g.seat h.seat k.seat };

    /// Posts at its seat, and records that. It waits by parking, and what is promised holds if it returns.
    #[inline(always)]
    fn post(&mut self, event: Event) -> Reply
        // All that `Shared::post` promises of the seat.
        ensures seat { PostedCall self.old.seat event result self.new.seat }
        ensures handed { HandsByViews (history_of self.new.seat.seen) }
        ensures own { AnswersByView (history_of self.new.seat.seen) }
        ensures answers { Answers event result }
        ensures posted { Notes (Some (said_at self.old.seat.seen self.old.seat.own)) (Some (said_at self.new.seat.seen self.new.seat.own))
            ((gateway_event event, told result) ∷ []) }
        ensures takes { ◌≡◌ {A = GatewayEvent → Bool} (λ _. true) (λ _. true) }
        ensures refused { true ≡ false → result ≡ Reply.Refused Refusal.FarClock }
        ensures goes_on { GoesOn self.old.seat self.new.seat }
        // Where calls are recorded, a record was made of this one: what was posted, when by the thread's clock, at which place of the history, and how it
        // was answered. It stayed, or was handed over. No clause says what becomes of it then, nor when the clock is read.
        ensures recorded { IsRecorded self.old.taping event result self.new }
    {
        self.records.begin(self.rt, &event);
        let (reply, place) = self.gate.post_placed(event);
        self.records.end(self.rt, place, &reply);
        reply
    }
}
