//! What a segment begins with, so that it can be replayed without those before it: the calls that set the gateway up as it stood.

use pg_record::{DONE, Front, LOST, Record, RecordKind, TapedCall, TapedCalls, read_record};
use std::alloc::{AllocError, Global};
use std::collections::{BTreeMap, VecDeque};

/// How many configurations of a source are kept at most, each unlike the one before it.
const MOST_CONFIGURATIONS: usize = 8;

/// How many bytes of edits are kept at most.
const MOST_EDITS: usize = 16_777_216;

/// CMD of a command that stops a stream, and of one that starts it (C37.118.2, 6.6).
const STOP: u16 = 1;

const START: u16 = 2;

/// What one of several calls sets, of which the last one counts.
#[derive(Clone, Copy, PartialEq, Eq, PartialOrd, Ord)]
enum Subject {
    // The second of the century.
    Clock,
    // Whether a subscriber is connected.
    Connection(u16),
    // Whether a stream of a subscriber is on.
    Stream(u16, u16),
}

/// A record as bytes, and its place.
#[derive(Drop)]
struct KeptRecord {
    place: u64,
    bytes: Vec<u8>,
}

/// The calls that set the gateway up as it stands: all edits, the configurations of each source, and the last connection or hang-up of each subscriber, the
/// last start or stop of each stream, and the last tick.
#[derive(Drop)]
pub(crate) struct Prelude {
    alloc: Global,
    edits: Vec<u8>,
    configurations: BTreeMap<u16, VecDeque<KeptRecord>>,
    last: BTreeMap<Subject, KeptRecord>,
    // When the first segment was begun: milliseconds since 1970-01-01 00:00 UTC.
    begun: Option<u64>,
    // The highest place so far; `None` before the first call.
    highest: Option<u64>,
    // How many configurations were forgotten.
    forgotten: u64,
    // Whether a call found no room.
    is_incomplete: bool,
}

impl Prelude {
    /// Nothing is set up.
    pub(crate) fn new(alloc: Global) -> Prelude {
        Prelude {
            alloc,
            edits: Vec::new(alloc),
            configurations: BTreeMap::new(alloc),
            last: BTreeMap::new(alloc),
            begun: None,
            highest: None,
            forgotten: 0,
            is_incomplete: false,
        }
    }

    /// Keeps those of these calls that set something up. Where one finds no room no more preludes are written.
    pub(crate) fn keep(&mut self, taped: &TapedCalls) {
        for call in &taped.calls {
            self.highest = self.highest.max(Some(call.entry.place));
            if self.keep_call(taped, call).is_err() {
                self.is_incomplete = true;
            }
        }
    }

    /// Keeps a call, where it sets something up.
    fn keep_call(&mut self, taped: &TapedCalls, call: &TapedCall) -> Result<(), AllocError> {
        let entry = &call.entry;
        let is_done = entry.answer == DONE || entry.answer == LOST;
        match entry.kind {
            RecordKind::Edit if is_done => self.keep_edit(taped, call),
            RecordKind::Configuration => self.keep_configuration(taped, call),
            RecordKind::Tick => self.keep_last(Subject::Clock, taped, call),
            RecordKind::Connect | RecordKind::Hangup if is_done => {
                self.keep_last(Subject::Connection(entry.number), taped, call)
            }
            RecordKind::Command if is_done => match started_or_stopped(call.front) {
                Some(stream) => self.keep_last(Subject::Stream(entry.number, stream), taped, call),
                None => Ok(()),
            },
            _ => Ok(()),
        }
    }

    /// Keeps an edit.
    fn keep_edit(&mut self, taped: &TapedCalls, call: &TapedCall) -> Result<(), AllocError> {
        if self.edits.len() >= MOST_EDITS {
            return Err(AllocError);
        }
        taped.write_call(&without_time(call), &mut self.edits)
    }

    /// Keeps a configuration that is unlike the last one of its source. The oldest of many is forgotten.
    fn keep_configuration(
        &mut self,
        taped: &TapedCalls,
        call: &TapedCall,
    ) -> Result<(), AllocError> {
        let source = call.entry.number;
        let kept = self.record_of(taped, call)?;
        let Some(configurations) = self.configurations.get_mut(&source) else {
            let mut configurations = VecDeque::new(self.alloc);
            configurations.push_back(kept)?;
            return match self.configurations.insert(source, configurations) {
                Ok(_) => Ok(()),
                Err(_) => Err(AllocError),
            };
        };
        if let Some(last) = configurations.back() {
            if body_in(&last.bytes) == body_in(&kept.bytes) {
                return Ok(());
            }
        }
        if configurations.len() >= MOST_CONFIGURATIONS {
            configurations.pop_front();
            self.forgotten = self.forgotten.saturating_add(1);
        }
        configurations.push_back(kept)?;
        Ok(())
    }

    /// Keeps a call as the last one that sets this.
    fn keep_last(
        &mut self,
        subject: Subject,
        taped: &TapedCalls,
        call: &TapedCall,
    ) -> Result<(), AllocError> {
        match self.last.get(&subject) {
            Some(kept) if kept.place > call.entry.place => return Ok(()),
            _ => {}
        }
        let kept = self.record_of(taped, call)?;
        match self.last.insert(subject, kept) {
            Ok(_) => Ok(()),
            Err(_) => Err(AllocError),
        }
    }

    /// The record of a call.
    fn record_of(&self, taped: &TapedCalls, call: &TapedCall) -> Result<KeptRecord, AllocError> {
        let mut bytes = Vec::new(self.alloc);
        taped.write_call(&without_time(call), &mut bytes)?;
        Ok(KeptRecord {
            place: call.entry.place,
            bytes,
        })
    }

    /// Appends the records with which a segment begins at this time, and says whether it has a block of them: it has none where a call found no
    /// room. The first segment has an empty one. The last record of another is a question at the highest place, whose body is when the first
    /// segment was begun, and how many calls are not among these that may have set something up: those that were missed or forgotten.
    ///
    /// # Errors
    ///
    /// There is no memory.
    pub(crate) fn write_to(
        &mut self,
        now: u64,
        missed: u64,
        out: &mut Vec<u8>,
    ) -> Result<bool, AllocError> {
        let begun = *self.begun.get_or_insert(now);
        let Some(highest) = self.highest else {
            return Ok(true);
        };
        if self.is_incomplete {
            return Ok(false);
        }
        out.extend_from_slice(&self.edits)?;
        for configurations in self.configurations.values() {
            for kept in configurations {
                out.extend_from_slice(&kept.bytes)?;
            }
        }
        for kept in self.last.values() {
            out.extend_from_slice(&kept.bytes)?;
        }
        let mut last = TapedCalls::none(self.alloc);
        let lacking = missed.saturating_add(self.forgotten);
        last.bodies.extend_from_slice(&lacking.to_be_bytes())?;
        last.write_call(&question_at(highest, begun, last.bodies.len()), out)?;
        Ok(true)
    }
}

/// The stream that a command starts or stops, by its IDCODE and CMD; `None` of any other command.
fn started_or_stopped(front: Front) -> Option<u16> {
    let Front::Four(front) = front else {
        return None;
    };
    let [stream_high, stream_low, word_high, word_low] = front.to_be_bytes();
    let word = u16::from_be_bytes([word_high, word_low]);
    if word == START || word == STOP {
        Some(u16::from_be_bytes([stream_high, stream_low]))
    } else {
        None
    }
}

/// The body of a record.
fn body_in(record: &[u8]) -> Option<&[u8]> {
    let (_, body, _) = read_record(record)?;
    Some(body)
}

/// The same call at the start of its block.
fn without_time(call: &TapedCall) -> TapedCall {
    TapedCall {
        entry: Record {
            at: 0,
            ..call.entry
        },
        ..*call
    }
}

/// A question at this place, with this number and so many bytes more as its body.
fn question_at(place: u64, begun: u64, len: usize) -> TapedCall {
    TapedCall {
        entry: Record {
            kind: RecordKind::Question,
            number: 0,
            place,
            at: 0,
            answer: DONE,
            handed: 0,
            sum: 0,
        },
        front: Front::Eight(begun),
        from: 0,
        len,
    }
}
