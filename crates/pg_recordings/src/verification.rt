//! Whether the replay of a recording hands out what the service handed out.

ghost use Rattle.std.specs.Prelude.{◌≡◌, ◌&&◌, nat_eq};

use crate::input::{four, input_of};
use crate::reader::{Fault, Notice, RecordReader, Start, Step};
use crate::script::{flush, notice_text, print_line, start_text, time_text};
use pg_gateway::Reply;
use pg_record::{DONE, Elapsed, LOST, RecordKind, Timed, short_sum};
use pg_serve::{Note, Output, World};
use std::alloc::{AllocError, Global};
use std::io::Write;

/// How long after the start of a recording, or places without a record, slots may be open, and frames queued, that are not so in the service:
/// milliseconds.
const SETTLED_MS: u64 = 60_000;

/// What `verify` found.
#[derive(Clone, Copy, Debug, PartialEq, Eq)]
pub struct Verdict {
    /// The records.
    pub records: u64,
    /// The places without a record.
    pub missing: u64,
    /// What is not as it was written in a file.
    pub notices: u64,
    /// The calls that no line of a script says.
    pub unspelled: u64,
    /// The drains that were compared, and those of them whose bytes differ.
    pub drains: u64,
    pub differing: u64,
    /// The other answers that differ.
    pub answers: u64,
}

impl Verdict {
    /// Nothing was found.
    fn nothing() -> Verdict {
        Verdict {
            records: 0,
            missing: 0,
            notices: 0,
            unspelled: 0,
            drains: 0,
            differing: 0,
            answers: 0,
        }
    }

    /// Whether the recording is whole from its start on, and its replay hands out the same.
    pub fn is_right(&self) -> bool
        ensures { result ≡ (nat_eq self.now.missing 0 && nat_eq self.now.notices 0 && nat_eq self.now.unspelled 0
            && nat_eq self.now.differing 0 && nat_eq self.now.answers 0) }
    {
        self.missing == 0
            && self.notices == 0
            && self.unspelled == 0
            && self.differing == 0
            && self.answers == 0
    }
}

/// A replay beside a recording.
#[derive(Drop)]
struct Replay {
    alloc: Global,
    world: World,
    output: Output,
    verdict: Verdict,
    // The place at which the recording begins, and whether another came before it.
    first: u64,
    is_begun: bool,
    in_step: InStep,
    // How long the recordings have gone on.
    elapsed: Elapsed,
    // How many drains of subscribers that are not in step there were.
    left_out: u64,
}

/// Which subscribers stand as they did in the service.
#[derive(Drop)]
enum InStep {
    /// Each: the recording is whole since the service started.
    All,
    /// None yet: places without a record end here.
    NoneYet,
    /// These, since the recordings had gone on for so many milliseconds.
    Since(u64, Vec<u16>),
}

/// Replays a recording, compares what each drain hands out with what the service handed out, and prints what is missing, what differs first,
/// and what there is.
///
/// # Errors
///
/// Those of the reader; the output can't be written.
pub fn verify<W: Write>(
    alloc: Global,
    reader: &mut RecordReader<'_>,
    out: &mut W,
) -> Result<Verdict, Fault> {
    let mut replay = Replay {
        alloc,
        world: new_world(alloc)?,
        output: Output::new(alloc),
        verdict: Verdict::nothing(),
        first: 0,
        is_begun: false,
        in_step: InStep::All,
        elapsed: Elapsed::new(),
        left_out: 0,
    };
    replay.compare_all(reader, out)?;
    replay.print_end(out)
}

/// A world without PMUs and subscribers.
fn new_world(alloc: Global) -> Result<World, Fault> {
    match World::new(alloc) {
        Ok(world) => Ok(world),
        Err(_) => Err(Fault::NoMemory),
    }
}

impl Replay {
    /// Replays and compares all that the reader has.
    fn compare_all<W: Write>(
        &mut self,
        reader: &mut RecordReader<'_>,
        out: &mut W,
    ) -> Result<(), Fault> {
        for _ in 0..u64::MAX {
            let step = reader.next()?;
            if !self.follow_step(step, reader, out)? {
                break;
            }
        }
        Ok(())
    }

    /// Follows a step of the reader. Whether another one is to come.
    fn follow_step<W: Write>(
        &mut self,
        step: Step,
        reader: &RecordReader<'_>,
        out: &mut W,
    ) -> Result<bool, Fault> {
        match step {
            Step::Start(start) => self.begin(start, out)?,
            Step::Record(timed) => self.take(&timed, out)?,
            Step::Gap(from, to) => self.note_gap(from, to, out)?,
            Step::Notice(file, notice) => {
                if let Some(path) = reader.paths().get(file) {
                    self.note(path.as_str(), notice, out)?;
                }
            }
            Step::End => return Ok(false),
        }
        Ok(true)
    }

    /// Begins a recording.
    fn begin<W: Write>(&mut self, start: Start, out: &mut W) -> Result<(), Fault> {
        let is_first = !self.is_begun;
        self.print_left_out(out)?;
        self.first = start.place;
        self.is_begun = true;
        self.in_step = match start.place {
            0 => InStep::All,
            _ => InStep::Since(self.elapsed.passed, Vec::new(self.alloc)),
        };
        if !is_first {
            self.world = new_world(self.alloc)?;
        }
        match start_text(self.alloc, start, is_first)? {
            Some(text) => print_line(text.as_str(), out),
            None => Ok(()),
        }
    }

    /// Prints how many drains were not compared.
    fn print_left_out<W: Write>(&mut self, out: &mut W) -> Result<(), Fault> {
        if self.left_out == 0 {
            return Ok(());
        }
        let left_out = self.left_out;
        self.left_out = 0;
        let text = format!(in self.alloc;
            "not compared: {left_out} drains, of subscribers whose queues may differ, since calls before are not recorded"
        )?;
        print_line(text.as_str(), out)
    }

    /// Notes places without a record. Behind them no subscriber stands as it did in the service.
    fn note_gap<W: Write>(&mut self, from: u64, to: u64, out: &mut W) -> Result<(), Fault> {
        self.verdict.missing = self.verdict.missing.saturating_add(to.saturating_sub(from));
        self.is_begun = true;
        self.in_step = InStep::NoneYet;
        let last = to.saturating_sub(1);
        let text = format!(in self.alloc; "missing: places {from} to {last}")?;
        print_line(text.as_str(), out)
    }

    /// Notes what is not as it was written in a file.
    fn note<W: Write>(&mut self, path: &str, notice: Notice, out: &mut W) -> Result<(), Fault> {
        self.verdict.notices = self.verdict.notices.saturating_add(1);
        let text = notice_text(self.alloc, path, notice)?;
        print_line(text.as_str(), out)
    }

    /// Replays a record.
    fn take<W: Write>(&mut self, timed: &Timed, out: &mut W) -> Result<(), Fault> {
        let is_setup = timed.record.place < self.first;
        if !is_setup {
            self.verdict.records = self.verdict.records.saturating_add(1);
            self.elapsed.go_on(timed.at);
        }
        self.is_begun = true;
        if let InStep::NoneYet = self.in_step {
            self.in_step = InStep::Since(self.elapsed.passed, Vec::new(self.alloc));
        }
        let Some(input) = input_of(self.alloc, &timed.record, &timed.body)? else {
            if timed.record.kind != RecordKind::Question && !is_setup {
                self.verdict.unspelled = self.verdict.unspelled.saturating_add(1);
            }
            return Ok(());
        };
        if self.world.take(&input, &mut self.output).is_err() {
            return Err(Fault::NoMemory);
        }
        if is_setup {
            return Ok(());
        }
        self.compare(timed, out)
    }

    /// Whether a drain is compared: the subscriber stands as it did in the service. Where something before is not recorded, it does behind a
    /// connection, and a minute later behind a drain that left nothing in its queue.
    fn is_compared(&mut self, timed: &Timed, handed: u64) -> Result<bool, Fault> {
        let record = &timed.record;
        let passed = self.elapsed.passed;
        let (since, subscribers) = match &mut self.in_step {
            InStep::All => return Ok(true),
            InStep::NoneYet => return Ok(false),
            InStep::Since(since, subscribers) => (*since, subscribers),
        };
        if subscribers.contains(&record.number) {
            return Ok(true);
        }
        let room = u64::from(four(&timed.body).unwrap_or(0));
        let is_empty = handed < room && u64::from(record.handed) < room;
        if is_empty && passed >= since.saturating_add(SETTLED_MS) {
            subscribers.push(record.number)?;
        }
        Ok(false)
    }

    /// Notes that a subscriber has connected, so that it stands as it did in the service.
    fn note_connection(&mut self, subscriber: u16) -> Result<(), Fault> {
        if let InStep::Since(_, subscribers) = &mut self.in_step {
            if !subscribers.contains(&subscriber) {
                subscribers.push(subscriber)?;
            }
        }
        Ok(())
    }

    /// Compares the answer of the replay with that of the service.
    fn compare<W: Write>(&mut self, timed: &Timed, out: &mut W) -> Result<(), Fault> {
        let record = &timed.record;
        let replies = replies_in(&self.output);
        if record.kind != RecordKind::Drain {
            // A frame that concerns nobody makes no event of a world.
            let Some(answer) = replies else {
                return Ok(());
            };
            if answer.answer != record.answer {
                self.verdict.answers = self.verdict.answers.saturating_add(1);
                return self.print_difference(timed, answer, self.verdict.answers == 1, out);
            }
            if record.kind == RecordKind::Connect && record.answer == DONE {
                return self.note_connection(record.number);
            }
            return Ok(());
        }
        let answer = replies.unwrap_or(Answered {
            answer: DONE,
            handed: 0,
            sum: 0,
        });
        if !self.is_compared(timed, answer.handed)? {
            self.left_out = self.left_out.saturating_add(1);
            return Ok(());
        }
        self.verdict.drains = self.verdict.drains.saturating_add(1);
        let is_same = answer.answer == record.answer
            && answer.handed == u64::from(record.handed)
            && (answer.handed == 0 || answer.sum == record.sum);
        if !is_same {
            self.verdict.differing = self.verdict.differing.saturating_add(1);
            return self.print_difference(timed, answer, self.verdict.differing == 1, out);
        }
        Ok(())
    }

    /// Prints the first difference of its kind.
    fn print_difference<W: Write>(
        &self,
        timed: &Timed,
        answer: Answered,
        is_first: bool,
        out: &mut W,
    ) -> Result<(), Fault> {
        if !is_first {
            return Ok(());
        }
        let record = &timed.record;
        let time = time_text(self.alloc, timed.at)?;
        let (place, number) = (record.place, record.number);
        let text = if record.kind == RecordKind::Drain {
            let (was, is) = (record.handed, answer.handed);
            format!(in self.alloc;
                "differs: place {place}, {}: {was} bytes were handed to subscriber {number}, the replay hands {is} or other bytes",
                time.as_str()
            )?
        } else {
            let (was, is) = (record.answer, answer.answer);
            format!(in self.alloc;
                "differs: place {place}, {}: the answer was {was}, that of the replay is {is}",
                time.as_str()
            )?
        };
        print_line(text.as_str(), out)
    }

    /// Prints what there is.
    fn print_end<W: Write>(&mut self, out: &mut W) -> Result<Verdict, Fault> {
        self.print_left_out(out)?;
        let Verdict {
            records,
            missing,
            unspelled,
            drains,
            differing,
            answers,
            ..
        } = self.verdict;
        let text = format!(in self.alloc;
            "records {records} missing {missing} unspelled {unspelled} drains {drains} differing {differing} answers differing {answers}"
        )?;
        print_line(text.as_str(), out)?;
        flush(out)?;
        Ok(self.verdict)
    }
}

/// The answer of a replay to a record, in the form of a record's.
#[derive(Clone, Copy)]
struct Answered {
    answer: u8,
    handed: u64,
    sum: u32,
}

/// The answer to an input that is one event. `None` where the input made none, or several.
fn replies_in(output: &Output) -> Option<Answered> {
    let mut found = None;
    for note in &output.notes {
        if let Note::Replied(reply) = note {
            if found.is_some() {
                return None;
            }
            found = Some(answer_of(reply));
        }
    }
    found
}

/// A reply in the form of a record's answer.
fn answer_of(reply: &Reply) -> Answered {
    let plain = |answer| Answered {
        answer,
        handed: 0,
        sum: 0,
    };
    match reply {
        Reply::Done { made, kept } => plain(if kept < made { LOST } else { DONE }),
        Reply::Refused(refusal) => plain(refusal.number()),
        Reply::Drained { buf, out } => match out {
            Ok(drained) => {
                let handed = buf.get(..drained.len).unwrap_or(&[]);
                Answered {
                    answer: DONE,
                    handed: handed.len() as u64,
                    sum: short_sum(handed),
                }
            }
            Err(refusal) => plain(refusal.number()),
        },
        _ => plain(DONE),
    }
}
