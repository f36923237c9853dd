//! The subcommands `script`, `verify` and `explain`: what can be asked of recordings.

use crate::Outcome;
use clap::ArgMatches;
use pg_recordings::{RecordingsError, explain_by, script_by, verify_by};
use pg_wire::Refusal;
use std::alloc::Global;

/// Does the work of `script`.
pub fn script<R: Print + Alloc<A = Global>>(
    rt: &R,
    files: &HostRuntime,
    words: &ArgMatches<'_>,
) -> Outcome {
    recordings_outcome(rt.alloc(), script_by(rt, files, words))
}

/// Does the work of `verify`.
pub fn verify<R: Print + Alloc<A = Global>>(
    rt: &R,
    files: &HostRuntime,
    words: &ArgMatches<'_>,
) -> Outcome {
    recordings_outcome(rt.alloc(), verify_by(rt, files, words))
}

/// Does the work of `explain`.
pub fn explain<R: Print + Alloc<A = Global>>(
    rt: &R,
    files: &HostRuntime,
    words: &ArgMatches<'_>,
) -> Outcome {
    recordings_outcome(rt.alloc(), explain_by(rt, files, words))
}

/// How the program ends where a subcommand returned whether all is as it should be, or an error.
fn recordings_outcome(alloc: Global, done: Result<bool, RecordingsError>) -> Outcome {
    match done {
        Ok(true) => Outcome::Done,
        Ok(false) => Outcome::Troubled(String::new(alloc)),
        Err(RecordingsError::BadOption(option)) => Outcome::Misworded(option),
        Err(RecordingsError::NoMemory) => Outcome::Failed(Refusal::NoMemory),
        Err(RecordingsError::NotWritten) => Outcome::Failed(Refusal::WriteFault),
        Err(RecordingsError::Text(text)) => Outcome::Troubled(text),
    }
}
