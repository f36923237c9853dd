//! What the calls of a worker are recorded by, if they are.

ghost use Rattle.std.specs.Prelude.{Option, None};
ghost use Rattle.pg_recorder.specs.Answering.{Taping, Records, HandsOver};
ghost use Rattle.pg_recorder.specs.Beginning.{Begins, NotesIgnored, ignored_of};

use crate::exchange::Recorder;
use crate::worker_tape::WorkerTape;
use pg_gateway::{Event, Reply};
use pg_wire::{PmuId, Refusal};
use std::marker::Model;
use std::rt::Clock;
use std::sync::Wait;

/// What the calls of a worker are recorded by. A worker's code is made for each kind of it, so that a gateway that does not record takes no
/// instruction for it.
pub trait CallRecords: Sized + Drop {
    // What is recorded and not yet handed over, where calls are recorded.
    ghost taping: { Self → Option Taping };

    /// Those of one more worker of this recorder.
    fn of<R: Wait>(rt: &R, recorder: Option<&Recorder>) -> Self;

    /// A round of the worker begins: what it records has this machine's time by now. What is left of the round before is handed over.
    fn begin_round<R: Wait + Clock>(&mut self, rt: &R)
        ensures { HandsOver (taping self.old) (taping self.new) };

    /// A round of the worker ends: what it recorded is handed over.
    fn end_round<R: Wait>(&mut self, rt: &R)
        ensures { HandsOver (taping self.old) (taping self.new) };

    /// Notes for the record of the next question that so many frames of a source were ignored for this reason, and returns whether it is kept.
    fn note_ignored(&mut self, source: PmuId, reason: Refusal, count: u64) -> bool
        ensures { NotesIgnored (taping self.old) (ignored_of source reason count) result (taping self.new) };

    /// Begins the record of an event that is about to be posted.
    fn begin<R: Clock>(&mut self, rt: &R, event: &Event)
        ensures { Begins (taping self.old) event.now (taping self.new) };

    /// Ends the record of a call that has this place in the history and was answered so.
    fn end<R: Wait>(&mut self, rt: &R, place: u64, reply: &Reply)
        ensures { Records (taping self.old) place reply.now (taping self.new) };

    /// The worker ends: what it recorded is handed over.
    fn end_all<R: Wait>(self, rt: &R);
}

/// No call is recorded.
#[derive(Clone, Copy)]
pub struct Unrecorded;

impl CallRecords for Unrecorded {
    ghost taping = { λ _. None };

    fn of<R: Wait>(_: &R, _: Option<&Recorder>) -> Unrecorded {
        Unrecorded
    }

    #[inline(always)]
    fn begin_round<R: Wait + Clock>(&mut self, _: &R) {}

    #[inline(always)]
    fn end_round<R: Wait>(&mut self, _: &R) {}

    fn note_ignored(&mut self, _: PmuId, _: Refusal, _: u64) -> bool {
        false
    }

    #[inline(always)]
    fn begin<R: Clock>(&mut self, _: &R, _: &Event) {}

    #[inline(always)]
    fn end<R: Wait>(&mut self, _: &R, _: u64, _: &Reply) {}

    fn end_all<R: Wait>(self, _: &R) {}
}

/// The calls of a worker with rounds are recorded, where it has a tape, and handed over at the end of a round. Such a worker posts no edits.
#[derive(Drop)]
pub struct Recorded {
    tape: Option<WorkerTape>,
}

impl Model for Recorded {
    ghost use Rattle.std.specs.Prelude.{Option};
    ghost use Rattle.pg_recorder.specs.Answering.{Taping};

    ghost Value = { Option Taping };

    ghost view = { λ r. r.tape };
}

impl CallRecords for Recorded {
    ghost taping = { λ r. r };

    fn of<R: Wait>(rt: &R, recorder: Option<&Recorder>) -> Recorded {
        Recorded {
            tape: recorder.and_then(|it| WorkerTape::new(rt, it)),
        }
    }

    fn begin_round<R: Wait + Clock>(&mut self, rt: &R) {
        if let Some(tape) = &mut self.tape {
            tape.hand_over(rt);
            tape.begin_round(rt);
        }
    }

    fn end_round<R: Wait>(&mut self, rt: &R) {
        if let Some(tape) = &mut self.tape {
            tape.hand_over(rt);
        }
    }

    fn note_ignored(&mut self, source: PmuId, reason: Refusal, count: u64) -> bool {
        match &mut self.tape {
            Some(tape) => {
                tape.note_ignored(source, reason, count);
                true
            }
            None => false,
        }
    }

    #[inline(always)]
    fn begin<R: Clock>(&mut self, _: &R, event: &Event) {
        if let Some(tape) = &mut self.tape {
            tape.begin(event);
        }
    }

    #[inline(always)]
    fn end<R: Wait>(&mut self, rt: &R, place: u64, reply: &Reply) {
        if let Some(tape) = &mut self.tape {
            tape.end(rt, place, reply);
        }
    }

    fn end_all<R: Wait>(self, rt: &R) {
        if let Some(tape) = self.tape {
            tape.end_all(rt);
        }
    }
}

/// The calls of a worker without rounds are recorded, where it has a tape, and each is handed over at once.
#[derive(Drop)]
pub struct RecordedAtOnce {
    tape: Option<WorkerTape>,
}

impl Model for RecordedAtOnce {
    ghost use Rattle.std.specs.Prelude.{Option};
    ghost use Rattle.pg_recorder.specs.Answering.{Taping};

    ghost Value = { Option Taping };

    ghost view = { λ r. r.tape };
}

impl CallRecords for RecordedAtOnce {
    ghost taping = { λ r. r };

    fn of<R: Wait>(rt: &R, recorder: Option<&Recorder>) -> RecordedAtOnce {
        RecordedAtOnce {
            tape: recorder.and_then(|it| WorkerTape::new(rt, it)),
        }
    }

    fn begin_round<R: Wait + Clock>(&mut self, _: &R) {}

    fn end_round<R: Wait>(&mut self, _: &R) {}

    fn note_ignored(&mut self, _: PmuId, _: Refusal, _: u64) -> bool {
        false
    }

    fn begin<R: Clock>(&mut self, rt: &R, event: &Event) {
        if let Some(tape) = &mut self.tape {
            tape.begin_round(rt);
            tape.begin_any(event);
        }
    }

    fn end<R: Wait>(&mut self, rt: &R, place: u64, reply: &Reply) {
        if let Some(tape) = &mut self.tape {
            tape.end(rt, place, reply);
            tape.hand_over(rt);
        }
    }

    fn end_all<R: Wait>(self, rt: &R) {
        if let Some(tape) = self.tape {
            tape.end_all(rt);
        }
    }
}
