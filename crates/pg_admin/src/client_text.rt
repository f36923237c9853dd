//! Words for a client of the control socket.

use pg_status::Answered;
use std::alloc::{AllocError, Global};
use std::io::ErrorKind;

/// A control socket that can't be reached, a line: `PATH: WHY`, where `system` is what the system says of it.
///
/// # Errors
///
/// There is no memory.
pub fn not_reached(
    alloc: Global,
    path: &str,
    kind: ErrorKind,
    system: &str,
) -> Result<String, AllocError> {
    let why = match kind {
        ErrorKind::NotFound => {
            "there is no such file; the path has to be `control` of the running gateway's setup"
        }
        ErrorKind::ConnectionRefused => "no gateway listens there; start it",
        ErrorKind::PermissionDenied =>
            "not permitted; only the gateway's user and root may connect",
        ErrorKind::BrokenPipe => "the answers can't be written to standard output",
        _ => system,
    };
    format!(in alloc; "{path}: {why}\n")
}

/// Lines that were sent to a control socket and not all done, a line; empty where they were.
///
/// # Errors
///
/// There is no memory.
pub fn not_answered(
    alloc: Global,
    path: &str,
    lines: &[&str],
    answered: Answered,
) -> Result<String, AllocError> {
    match answered {
        Answered::All => Ok(String::new(alloc)),
        Answered::Refused => {
            format!(in alloc;
                "{path}: a command was refused; its answer has the reason, and docs/OPERATING.md says what that means\n"
            )
        }
        Answered::Busy => {
            format!(in alloc;
                "{path}: 8 clients are connected already, the most possible; try again when one has left\n"
            )
        }
        Answered::Ended(place) => {
            let line = line_at(lines, place);
            format!(in alloc;
                "{path}: the connection ended before `{line}` was answered; whether it was done is not known\n"
            )
        }
        Answered::Silent(place) => {
            let line = line_at(lines, place);
            format!(in alloc;
                "{path}: `{line}` was not answered within 60 seconds; whether it is done is not known\n"
            )
        }
    }
}

/// The line at a place.
fn line_at<'a>(lines: &[&'a str], place: usize) -> &'a str {
    match lines.get(place) {
        Some(line) => *line,
        None => "",
    }
}
