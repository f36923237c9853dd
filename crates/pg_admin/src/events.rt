//! Events of the control socket and the page, for the log.

use pg_log::{Detail, Entry, Journal, LogEvent, Subject};
use std::io;
use std::rt::Clock;
use std::sync::Wait;

/// Logs an event.
pub(crate) fn log_event<R: Wait + Clock>(rt: &R, journal: &Journal, event: LogEvent) {
    journal.log(rt, Entry::new(event, Subject::Nobody, Detail::Nothing));
}

/// Logs an event with what the system said.
pub(crate) fn log_error<R: Wait + Clock>(
    rt: &R,
    journal: &Journal,
    event: LogEvent,
    error: &io::Error,
) {
    let detail = Detail::of_error(error);
    journal.log(rt, Entry::new(event, Subject::Nobody, detail));
}
