//! How often the log repeats what is alike.

use crate::hold::HoldTime;
use crate::journal::{Detail, Entry, LogEvent, Subject};
use std::alloc::Global;

/// How long gaps are held back, in milliseconds.
const GAP_MS: u64 = 1_000;

/// How long where frames of a source were ignored, or too far from the clock.
const LONG_MS: u64 = 60_000;

/// The most kinds that are kept apart: more than a reload that changes everything has edits.
const KINDS: usize = 4_096;

/// A kind of which something was logged.
#[derive(Drop)]
struct Recent {
    // What of it was logged or held back last.
    last: Entry,
    // When it was logged, in milliseconds.
    logged_at: u64,
    // How often it happened since, or how many frames.
    held: u64,
    // How long it is held back, unless its kind says.
    hold: HoldTime,
}

impl Recent {
    /// Whether it may be logged again.
    fn is_over(&self, now: u64) -> bool {
        now.saturating_sub(self.logged_at) >= held_for(self.last.event, self.hold)
    }

    /// It is logged now, and what was held back is counted with it.
    fn log(&mut self, now: u64) {
        self.hold = self.hold.next(self.held > 0);
        self.held = 0;
        self.logged_at = now;
    }
}

/// What is logged at once, and what is held back. Of what is alike, of one kind, source or subscriber and reason, the first
/// is logged at once. The others are held back and counted in the next line, as long as `HoldTime` says: while they repeat it comes after 1,
/// 2, 4 seconds and so on up to a minute. Gaps have a line a second, ignored frames a line a minute. So a flood of one fills no log, and
/// hides no other. Times are milliseconds of any clock that rises.
#[derive(Drop)]
pub struct LogThrottle {
    recent: Vec<Recent>,
    lost: u64,
}

impl LogThrottle {
    /// Nothing was logged.
    pub fn new(alloc: Global) -> LogThrottle {
        LogThrottle {
            recent: Vec::new(alloc),
            lost: 0,
        }
    }

    /// What is logged at once of an entry of now.
    pub fn offer(&mut self, entry: Entry, now: u64) -> Option<Entry> {
        for recent in self.recent.iter_mut() {
            if recent.last.is_like(&entry) {
                recent.last = entry;
                if recent.held == 0 && recent.is_over(now) {
                    recent.log(now);
                    return Some(entry);
                }
                recent.held = recent.held.saturating_add(entry.times);
                return None;
            }
        }
        if self.remember(entry, now) {
            return Some(entry);
        }
        self.lost = self.lost.saturating_add(entry.times);
        None
    }

    /// What was held back and is due now, if there is any left.
    pub fn due(&mut self, now: u64) -> Option<Entry> {
        for recent in self.recent.iter_mut() {
            if recent.held > 0 && recent.is_over(now) {
                let entry = Entry {
                    times: recent.held,
                    ..recent.last
                };
                recent.log(now);
                return Some(entry);
            }
        }
        if self.lost == 0 {
            return None;
        }
        let times = self.lost;
        self.lost = 0;
        Some(Entry {
            event: LogEvent::EntriesLost,
            subject: Subject::Nobody,
            detail: Detail::Nothing,
            times,
            time: None,
        })
    }

    /// So many entries could not be logged.
    pub fn not_written(&mut self, times: u64) {
        self.lost = self.lost.saturating_add(times);
    }

    /// Keeps that this was logged now; if there are too many kinds, in the place of one of which nothing is held back.
    fn remember(&mut self, entry: Entry, now: u64) -> bool {
        let new = Recent {
            last: entry,
            logged_at: now,
            held: 0,
            hold: HoldTime::first(),
        };
        if self.recent.len() < KINDS {
            return self.recent.push(new).is_ok();
        }
        for recent in self.recent.iter_mut() {
            if recent.held == 0 && recent.is_over(now) {
                *recent = new;
                return true;
            }
        }
        false
    }
}

/// How long what is like this is held back.
fn held_for(event: LogEvent, hold: HoldTime) -> u64 {
    match event {
        LogEvent::Ignored | LogEvent::FarMeasurement | LogEvent::WrongClock => LONG_MS,
        LogEvent::Gap => GAP_MS,
        _ => hold.millis(),
    }
}
