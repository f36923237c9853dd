//! What one thread records of its calls.

ghost use Rattle.std.specs.Prelude.{◌≡◌, ◌⊎◌, [], Some, None};
ghost use Rattle.pg_recorder.specs.Answering.{IsOrEmptied, with_reply, with_refusal};
ghost use Rattle.pg_recorder.specs.Beginning.{Begun, BegunEdit, BegunFrame, BegunOf, BegunUnspelled, ignored_of, is_question, noted_after, question_front, start_after, time_front};
ghost use Rattle.pg_record.specs.declared.record.RecordKind.TheVariants as kind;

use crate::exchange::{MANY_BYTES, MANY_CALLS, Recorder, TapeSlot};
use crate::script_lines::edit_line;
use crate::writer::now_ms;
use pg_config::{SourceConfig, write_source};
use pg_gateway::{Event, Reply};
use pg_record::{DONE, Front, LOST, RecordKind, Tape};
use pg_wire::{PmuId, Refusal};
use std::alloc::Global;
use std::marker::Model;
use std::rt::Clock;
use std::sync::{Arc, Wait};

/// The records of one thread. It keeps them until the writer has taken what it handed over before.
#[derive(Drop)]
pub struct WorkerTape {
    alloc: Global,
    tape: Tape,
    slot: Arc<TapeSlot>,
    // This machine's clock in milliseconds, as the thread set it last, and when the first record was made.
    clock: u64,
    start: u64,
    // How many milliseconds lie between them, at most 65,535.
    at: u16,
    // How many records had found no room when that was reported last.
    missed: u64,
    // The body of the next question's record.
    ignored: Option<u64>,
}

impl Model for WorkerTape {
    ghost use Rattle.std.specs.Prelude.{◌≡◌, ◌-◌, min};
    ghost use Rattle.pg_recorder.specs.Answering.{Taping};

    ghost Value = { Taping };

    ghost view = { λ t. record { tape = t.tape; clock = t.clock; start = t.start; ignored = t.ignored } };

    ghost invariant = { λ t. t.at ≡ min (t.clock - t.start) 65535 };
}

impl WorkerTape {
    /// The tape of one more thread; `None` once each thread of the recorder has one.
    pub(crate) fn new<R: Wait>(rt: &R, recorder: &Recorder) -> Option<WorkerTape> {
        let (tape, slot) = recorder.give(rt)?;
        Some(WorkerTape {
            alloc: recorder.alloc(),
            tape,
            slot,
            clock: 0,
            start: 0,
            at: 0,
            missed: 0,
            ignored: None,
        })
    }

    /// A round of the thread begins: what it records has this machine's time by now.
    pub(crate) fn begin_round<R: Clock>(&mut self, rt: &R)
        ensures { self.new ≡ record self.old { clock = self.new.clock } }
    {
        if let Some(clock) = now_ms(rt) {
            self.clock = clock;
            let late = clock.saturating_sub(self.start);
            self.at = u16::try_from(late).unwrap_or(u16::MAX);
        }
    }

    /// Hands the records over where there are any and the writer has taken those before.
    pub(crate) fn hand_over<R: Wait>(&mut self, rt: &R)
        ensures tape { IsOrEmptied self.old.tape self.new.tape }
        ensures rest { self.new ≡ record self.old { tape = self.new.tape } }
    {
        if !self.tape.is_empty() {
            self.slot.hand_over(rt, &mut self.tape, self.start);
        }
        if self.missed != self.tape.missed() {
            self.missed = self.tape.missed();
            self.slot.keep_missed(self.missed);
        }
    }

    /// Hands the last records over: the thread has ended.
    pub(crate) fn end_all<R: Wait>(self, rt: &R) {
        let WorkerTape {
            mut tape,
            slot,
            start,
            ..
        } = self;
        slot.end(rt, &mut tape, start);
    }

    /// Begins the record of an event that is about to be posted, and that is no edit. What is recorded is given on as numbers and by what the
    /// event refers to, so that the event itself need not be kept in memory for it.
    #[inline(always)]
    pub(crate) fn begin(&mut self, event: &Event)
        ensures begun { BegunOf self.old.ignored self.old.tape event.now self.new.tape }
        ensures start { self.new.start ≡ start_after self.old self.old.clock }
        ensures rest { self.new ≡ record self.old { tape = self.new.tape; start = self.new.start; ignored = noted_after (is_question event.now) self.old.ignored } }
    {
        self.start_if_empty();
        match event {
            Event::Measure(frame) => {
                let front = front_of(frame.soc, frame.quality, frame.frac);
                let source = frame.source.get();
                self.tape.begin(
                    RecordKind::Measurement,
                    source,
                    front,
                    frame.body.as_slice(),
                );
            }
            Event::Drain(sub, buffer) => {
                let room = u32::try_from(buffer.len()).unwrap_or(u32::MAX);
                self.begin_with(RecordKind::Drain, sub.get(), Front::Four(room), &[]);
            }
            Event::Announce(config) => self.begin_configuration(config),
            Event::Command(sub, command) => {
                let front = u32::from(command.stream) << 16 | u32::from(command.word);
                self.begin_with(RecordKind::Command, sub.get(), Front::Four(front), &[]);
            }
            Event::Connect(sub) => {
                self.begin_with(RecordKind::Connect, sub.get(), Front::Nothing, &[]);
            }
            Event::Hangup(sub) => {
                self.begin_with(RecordKind::Hangup, sub.get(), Front::Nothing, &[]);
            }
            Event::Tick(soc) => self.begin_with(RecordKind::Tick, 0, Front::Four(*soc), &[]),
            Event::Stats(_)
            | Event::PmuStats(_)
            | Event::Audit(..)
            | Event::Standing(..)
            | Event::WhoWaits(_) => self.begin_question(),
            _ => self.begin_unspelled(),
        }
    }

    /// Where there is no record yet, the next one is the first of a block that starts now.
    #[inline(always)]
    fn start_if_empty(&mut self)
        ensures { self.new ≡ record self.old { start = start_after self.old self.old.clock } }
    {
        if self.tape.is_empty() {
            self.start = self.clock;
            self.at = 0;
        }
    }

    /// The same of an event that may be an edit.
    pub(crate) fn begin_any(&mut self, event: &Event)
        ensures begun { BegunOf self.old.ignored self.old.tape event.now self.new.tape }
        ensures start { self.new.start ≡ start_after self.old self.old.clock }
        ensures rest { self.new ≡ record self.old { tape = self.new.tape; start = self.new.start; ignored = noted_after (is_question event.now) self.old.ignored } }
    {
        match event {
            Event::AddPmu(_)
            | Event::DropPmu(_)
            | Event::AddSub(..)
            | Event::DropSub(_)
            | Event::Grant(..)
            | Event::Revoke(..)
            | Event::Define(..)
            | Event::Remove(..) => self.begin_edit(event),
            _ => self.begin(event),
        }
    }

    /// Begins the record of an edit.
    fn begin_edit(&mut self, event: &Event)
        ensures begun { BegunEdit self.old.tape self.new.tape }
        ensures rest { self.new ≡ record self.old { tape = self.new.tape; start = start_after self.old self.old.clock } }
    {
        self.start_if_empty();
        match edit_line(self.alloc, event) {
            Some(line) => {
                let line = line.as_str().as_bytes();
                self.begin_with(RecordKind::Edit, 0, Front::Nothing, line);
            }
            None => self.begin_unspelled(),
        }
    }

    /// Begins a record.
    #[inline(never)]
    fn begin_with(&mut self, kind: RecordKind, number: u16, front: Front, rest: &[u8])
        ensures begun { Begun self.old.tape kind number front rest.now self.new.tape }
        ensures rest { self.new ≡ record self.old { tape = self.new.tape } }
    {
        self.tape.begin(kind, number, front, rest);
    }

    /// Notes that so many frames of a source were ignored for this reason. The next question's record has it as its body: the source and the number of the
    /// reason in two bytes each, and the count in four.
    pub(crate) fn note_ignored(&mut self, source: PmuId, reason: Refusal, count: u64)
        ensures { self.new ≡ record self.old { ignored = Some (ignored_of source reason count) } }
    {
        let why = u64::from(source.get()) << 16 | u64::from(reason.number());
        let count = u32::try_from(count).unwrap_or(u32::MAX);
        self.ignored = Some(why << 32 | u64::from(count));
    }

    /// Begins the record of a question.
    #[inline(never)]
    fn begin_question(&mut self)
        ensures begun { Begun self.old.tape kind.Question 0 (question_front self.old.ignored) [] self.new.tape }
        ensures rest { self.new ≡ record self.old { tape = self.new.tape; ignored = None } }
    {
        let front = match self.ignored.take() {
            Some(body) => Front::Eight(body),
            None => Front::Nothing,
        };
        self.begin_with(RecordKind::Question, 0, front, &[]);
    }

    /// Begins the record of a configuration.
    #[inline(never)]
    fn begin_configuration(&mut self, config: &SourceConfig)
        ensures begun { BegunFrame self.old.tape config.now self.new.tape ⊎ BegunUnspelled self.old.tape self.new.tape }
        ensures rest { self.new ≡ record self.old { tape = self.new.tape } }
    {
        match write_source(self.alloc, config) {
            Ok(frame) => {
                let source = config.source.get();
                self.begin_with(RecordKind::Configuration, source, Front::Nothing, &frame);
            }
            Err(_) => self.begin_unspelled(),
        }
    }

    /// Begins the record of an event that no line of a script says.
    #[inline(never)]
    fn begin_unspelled(&mut self)
        ensures begun { BegunUnspelled self.old.tape self.new.tape }
        ensures rest { self.new ≡ record self.old { tape = self.new.tape } }
    {
        self.slot.count_unspelled();
        self.begin_with(RecordKind::Unspelled, 0, Front::Nothing, &[]);
    }

    /// Ends the record that was begun: its call has this place and was answered so.
    #[inline(always)]
    pub(crate) fn end<R: Wait>(&mut self, rt: &R, place: u64, reply: &Reply)
        ensures tape { IsOrEmptied (with_reply self.old place reply.now) self.new.tape }
        ensures rest { self.new ≡ record self.old { tape = self.new.tape } }
    {
        // Of a reply, which has room for all counters, what is recorded alone is looked at, so that it is neither filled nor moved.
        match reply {
            Reply::Done { made, kept } => {
                let answer = if kept < made { LOST } else { DONE };
                self.tape.end(place, self.at, answer, 0, 0);
            }
            Reply::Refused(refusal) => self.end_refused(place, *refusal),
            Reply::Drained { buf, out } => match out {
                Ok(drained) => {
                    let handed = buf.get(..drained.len).unwrap_or(buf);
                    self.tape.end_drain(place, self.at, handed);
                }
                Err(refusal) => self.end_refused(place, *refusal),
            },
            _ => self.tape.end(place, self.at, DONE, 0, 0),
        }
        if self.tape.calls() >= MANY_CALLS || self.tape.bytes() >= MANY_BYTES {
            self.hand_over(rt);
        }
    }

    /// Ends the record of a call that was refused.
    #[inline(never)]
    fn end_refused(&mut self, place: u64, refusal: Refusal)
        ensures { self.new ≡ record self.old { tape = with_refusal self.old place refusal } }
    {
        self.tape.end(place, self.at, refusal.number(), 0, 0);
    }
}

/// The first bytes of a measurement's record: SOC, and FRACSEC with the quality in its first byte (C37.118.2, 6.2.2).
fn front_of(soc: u32, quality: u8, frac: u32) -> Front
    ensures { result ≡ time_front soc quality frac }
{
    let low = u32::from(quality) << 24 | (frac & 0x00FF_FFFF);
    Front::Eight(u64::from(soc) << 32 | u64::from(low))
}
