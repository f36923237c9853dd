//! The log.

use crate::stderr_poll::StderrPoll;
use jiff_core::Timestamp;
use jiff_fmt::temporal::DateTimePrinter;
use log::Level;
use pg_log::{Detail, Entry, Journal, LogEvent, LogThrottle, Subject};
use pg_shared::Work;
use std::alloc::Global;
use std::net::Net;
use std::rt::Clock;
use std::sync::Wait;
use std::time::{Duration, Instant, SystemTime};
use std::{fmt, io, thread};

/// How long a turn waits for events, in milliseconds.
const PAUSE_MS: u64 = 100;

/// The lines of what was held back that one turn writes at most.
const HELD: u32 = 1_024;

/// A worker that writes the log to standard error: `TIME LEVEL WHAT`, times in UTC. No worker that serves waits for it,
/// and it waits for nobody: where standard error takes no line, that line is counted and not written. The program also writes its first and
/// its last lines by one.
#[derive(Drop)]
pub struct Logger<'a, R: Wait + Clock + Eprint + Net> {
    rt: &'a R,
    alloc: Global,
    journal: &'a Journal,
    // Whether each line begins with its priority, as the system's journal reads it.
    has_priority: bool,
    throttle: LogThrottle,
    stderr: StderrPoll,
    started: Instant,
    // How often each kind without a name happened before.
    counted: [u64; 6],
}

impl<'a, R: Wait + Clock + Eprint + Net> Logger<'a, R> {
    /// A log of what this journal keeps, as far as its filter allows it. With `has_priority` each line begins with its priority for the
    /// system's journal, `<3>` for an error to `<7>` for what is of the level debug (sd-daemon(3)).
    ///
    /// # Errors
    ///
    /// That of the system, where it can't wait for standard error, and `OutOfMemory`.
    pub fn new(
        rt: &'a R,
        alloc: Global,
        journal: &'a Journal,
        has_priority: bool,
        now: Instant,
    ) -> io::Result<Logger<'a, R>> {
        Ok(Logger {
            rt,
            alloc,
            journal,
            has_priority,
            throttle: LogThrottle::new(alloc),
            stderr: StderrPoll::new(rt, alloc)?,
            started: now,
            counted: [0; 6],
        })
    }

    /// Writes a line of this time, or where it has none of the time by now, if standard error takes it now, and reports whether nothing was
    /// left out.
    pub fn write<T: fmt::Display>(
        &mut self,
        level: Level,
        time: Option<SystemTime>,
        what: &T,
    ) -> bool {
        if !self.journal.filter(self.rt).allows(level) {
            return true;
        }
        if !self.stderr.takes_a_line() {
            return false;
        }
        let priority = if self.has_priority {
            priority_of(level)
        } else {
            ""
        };
        let time = match time {
            Some(time) => Some(time),
            None => SystemTime::now(self.rt).ok(),
        };
        let name = level.as_str();
        let written = match time.and_then(timestamp_of) {
            Some(time) => {
                let time = DateTimePrinter::new()
                    .precision(Some(3))
                    .timestamp_text(time);
                let time = time.as_str();
                eprintln!(self.rt; "{priority}{time} {name} {what}")
            }
            None => eprintln!(self.rt; "{priority}- {name} {what}"),
        };
        written.is_ok()
    }

    /// Writes an entry, and reports whether nothing was left out.
    fn write_entry(&mut self, entry: &Entry) -> bool {
        self.write(entry.event.level(), entry.time, entry)
    }

    /// Writes what waits in the journal.
    pub fn write_rest(&mut self) {
        for entry in self.journal.take(self.rt, self.alloc) {
            self.write_entry(&entry);
        }
    }

    /// Writes what waits in the journal and all that was held back: once no other worker runs.
    pub fn finish(&mut self) {
        self.read_journal(self.now_ms());
        self.write_due(u64::MAX, u32::MAX);
    }

    /// Reads what waits in the journal, and what was counted there. It is written, or held back.
    fn read_journal(&mut self, now: u64) {
        for entry in self.journal.take(self.rt, self.alloc) {
            self.offer(entry, now);
        }
        self.offer_unnamed(now);
    }

    /// Writes what was held back and is due at this time, so many lines at most.
    fn write_due(&mut self, now: u64, most: u32) {
        for _ in 0..most {
            let Some(due) = self.throttle.due(now) else {
                break;
            };
            if !self.write_entry(&due) {
                self.throttle.not_written(due.times);
                break;
            }
        }
    }

    /// Writes this, or holds it back.
    fn offer(&mut self, entry: Entry, now: u64) {
        if let Some(due) = self.throttle.offer(entry, now) {
            if !self.write_entry(&due) {
                self.throttle.not_written(due.times);
            }
        }
    }

    /// What was counted since the last turn and has no name.
    fn offer_unnamed(&mut self, now: u64) {
        for (at, event) in LogEvent::UNNAMED.iter().enumerate() {
            let count = self.journal.count(*event);
            if let Some(counted) = self.counted.get_mut(at) {
                let times = count.saturating_sub(*counted);
                *counted = count;
                if times > 0 {
                    let mut entry = Entry::new(*event, Subject::Nobody, Detail::Nothing);
                    entry.times = times;
                    self.offer(entry, now);
                }
            }
        }
    }

    /// Milliseconds since it was started, as far as the clock says.
    fn now_ms(&self) -> u64 {
        match Instant::now(self.rt) {
            Ok(now) => {
                let since = now.saturating_duration_since(self.started);
                u64::try_from(since.as_millis()).unwrap_or(u64::MAX)
            }
            Err(_) => 0,
        }
    }
}

/// The priority of a line for the system's journal (sd-daemon(3)).
fn priority_of(level: Level) -> &'static str {
    match level {
        Level::Error => "<3>",
        Level::Warn => "<4>",
        Level::Info => "<6>",
        Level::Debug | Level::Trace => "<7>",
    }
}

/// This time of the clock as one of the calendar, if it is one.
fn timestamp_of(time: SystemTime) -> Option<Timestamp> {
    let since = time.duration_since(SystemTime::UNIX_EPOCH).ok()?;
    let nanos = i128::try_from(since.as_nanos()).ok()?;
    Timestamp::from_nanosecond(nanos).ok()
}

impl<R: Wait + Clock + Eprint + Net> Work for Logger<'_, R> {
    fn turn(&mut self) -> bool {
        thread::sleep(self.rt, Duration::from_millis(PAUSE_MS));
        let now = self.now_ms();
        self.read_journal(now);
        self.write_due(now, HELD);
        true
    }
}
