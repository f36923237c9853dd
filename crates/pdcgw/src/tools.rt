//! The subcommands `simulate`, `watch`, `bridge` and `demo`.

use crate::Outcome;
use clap::ArgMatches;
use pg_demo::{DemoError, demo_by};
use pg_run::Runtime;
use pg_tools::{ToolError, bridge_by, simulate_by, watch_by};
use std::alloc::Global;
use std::net::Net;
use std::rt::{Clock, Files};

/// Does the work of `simulate`.
pub fn simulate<R: Net + Clock + Print + Alloc<A = Global>>(
    rt: &R,
    words: &ArgMatches<'_>,
) -> Outcome {
    match simulate_by(rt, words) {
        Ok(()) => Outcome::Done,
        Err(error) => tool_outcome(error),
    }
}

/// Does the work of `watch`.
pub fn watch<R: Net + Clock + Files + Print + Eprint + Alloc<A = Global>>(
    rt: &R,
    words: &ArgMatches<'_>,
    is_terminal: bool,
) -> Outcome {
    match watch_by(rt, words, is_terminal) {
        Ok(true) => Outcome::Done,
        Ok(false) => Outcome::Troubled(String::new(rt.alloc())),
        Err(error) => tool_outcome(error),
    }
}

/// Does the work of `bridge`.
pub fn bridge<R: Net + Clock + Print + Eprint + Alloc<A = Global>>(
    rt: &R,
    words: &ArgMatches<'_>,
) -> Outcome {
    match bridge_by(rt, words) {
        Ok(()) => Outcome::Done,
        Err(error) => tool_outcome(error),
    }
}

/// Does the work of `demo`.
pub fn demo<R: Files + Runtime + Alloc<A = Global>>(
    rt: &R,
    words: &ArgMatches<'_>,
    is_terminal: bool,
) -> Outcome {
    match demo_by(rt, words, is_terminal) {
        Ok(true) => Outcome::Done,
        Ok(false) => Outcome::Troubled(String::new(rt.alloc())),
        Err(DemoError::BadOption(option)) => Outcome::Misworded(option),
        Err(DemoError::Fault(fault)) => Outcome::Broken(fault),
    }
}

/// How the program ends where a tool ended by an error.
fn tool_outcome(error: ToolError) -> Outcome {
    match error {
        ToolError::BadOption(option) => Outcome::Misworded(option),
        ToolError::Fault(fault) => Outcome::Fallen(fault),
    }
}
