//! The thread that writes what others recorded.

use crate::exchange::{Handed, Recorder};
use crate::segments::{Before, Segments, Written};
use pg_log::{Detail, Entry, Journal, LogEvent, Subject};
use pg_record::TapedCalls;
use pg_shared::Work;
use std::alloc::AllocError;
use std::io::ErrorKind;
use std::rt::Clock;
use std::sync::Wait;
use std::time::{Duration, SystemTime};
use std::{io, thread};

/// How long is waited at a time, in milliseconds, and how often in one turn: what a thread has handed over is written 100 ms later at most. Where a thread
/// has many calls it is not waited again.
const WAIT_MS: u64 = 10;

const WAITS: usize = 10;

/// A worker that writes what the threads of a recorder hand over. No other worker waits for it.
#[derive(Drop)]
pub struct RecordWriter<'a, R: Wait + Clock> {
    rt: &'a R,
    recorder: &'a Recorder,
    journal: &'a Journal,
    segments: Segments<'a>,
    // Room that is exchanged for calls, and the bytes of their records.
    room: TapedCalls,
    records: Vec<u8>,
}

impl<'a, R: Wait + Clock> RecordWriter<'a, R> {
    /// A worker that writes to these segments.
    pub fn new(
        rt: &'a R,
        recorder: &'a Recorder,
        journal: &'a Journal,
        segments: Segments<'a>,
    ) -> Result<RecordWriter<'a, R>, AllocError> {
        Ok(RecordWriter {
            rt,
            recorder,
            journal,
            segments,
            room: recorder.room()?,
            records: Vec::new(recorder.alloc()),
        })
    }

    /// Writes what was handed over, also that of threads that have ended.
    pub fn write_all(&mut self) {
        let recorder = self.recorder;
        for (worker, slot) in recorder.slots().iter().enumerate() {
            let Ok(number) = u16::try_from(worker) else {
                return;
            };
            if let Some(handed) = slot.take(self.rt, &mut self.room) {
                self.write(number, &handed);
                self.room = handed.calls;
            }
            if let Some(handed) = slot.take_last(self.rt) {
                self.write(number, &handed);
            }
            // (Where the disk is slow the next slot's turn is late.)
            self.report_missed();
        }
    }

    /// Writes these records.
    fn write(&mut self, worker: u16, handed: &Handed) {
        let now = now_ms(self.rt).unwrap_or(handed.start);
        self.records.clear();
        let recorder = self.recorder;
        let mut prelude = recorder.prelude.lock(self.rt);
        let before = Before {
            prelude: &mut prelude,
            missed: recorder.missed(),
        };
        let written = match handed.calls.write_to(&mut self.records) {
            Ok(()) => {
                let start = handed.start;
                self.segments
                    .write(worker, start, &self.records, now, before)
            }
            Err(_) => Err(io::Error::from(ErrorKind::OutOfMemory)),
        };
        prelude.keep(&handed.calls);
        drop(prelude);
        match written {
            Ok(Written { size: 0, .. }) => recorder.count_unwritten(self.records.len()),
            Ok(written) => {
                recorder.count_written(written.size);
                if written.lacks_setup {
                    self.report(LogEvent::SetupNotRecorded, Detail::Nothing);
                }
            }
            Err(error) => {
                recorder.count_unwritten(self.records.len());
                self.report(LogEvent::NotRecorded, Detail::of_error(&error));
            }
        }
    }

    /// Reports what is wrong with the recording.
    fn report(&self, event: LogEvent, detail: Detail) {
        let entry = Entry::new(event, Subject::Nobody, detail);
        self.journal.log(self.rt, entry);
    }

    /// Reports how many records found no room since it was reported last.
    fn report_missed(&self) {
        let more = self.recorder.newly_missed();
        if more > 0 {
            let mut entry = Entry::new(LogEvent::RecordsMissed, Subject::Nobody, Detail::Nothing);
            entry.times = more;
            self.journal.log(self.rt, entry);
        }
    }
}

/// This machine's clock: milliseconds since 1970-01-01 00:00 UTC. `None` where it can't be read.
pub(crate) fn now_ms<R: Clock>(rt: &R) -> Option<u64> {
    ms_of(SystemTime::now(rt).ok()?)
}

/// A time as milliseconds since 1970-01-01 00:00 UTC. `None` before that.
pub(crate) fn ms_of(time: SystemTime) -> Option<u64> {
    let since = time.duration_since(SystemTime::UNIX_EPOCH).ok()?;
    u64::try_from(since.as_millis()).ok()
}

impl<R: Wait + Clock> Work for RecordWriter<'_, R> {
    fn turn(&mut self) -> bool {
        for _ in 0..WAITS {
            if self.recorder.slots().iter().any(|slot| slot.has_many()) {
                break;
            }
            thread::sleep(self.rt, Duration::from_millis(WAIT_MS));
        }
        self.write_all();
        true
    }
}
