//! The words of `demo` on the command line.

use crate::fault::Fault;
use crate::run_demo::{DemoOptions, demo};
use clap::{ArgMatches, Command};
use pg_console::Runtime;
use pg_tools::{BadOption, DemoVerdict, OptionWord, PLAIN, Style, number, with_options};
use std::alloc::{AllocError, Global};
use std::rt::Files;
use thiserror::Error;

/// Why a demo did not do what its words ask for.
#[derive(Debug, Drop, Error)]
pub enum DemoError {
    /// The value of an option is none that it takes.
    #[error(transparent)]
    BadOption(#[from] BadOption),
    /// The demo has ended by this.
    #[error(transparent)]
    Fault(#[from] Fault),
}

#[rattlefmt::skip]
static OPTIONS: [OptionWord; 2] = [
    OptionWord { name: "plain", value: None, default: None, help: PLAIN },
    OptionWord { name: "seconds", value: Some("N"), default: None, help: "Ends after so many seconds, with status 0 only where every frame came" },
];

/// What `--help` prints beside the usage.
const HELP: &str = "\
Two simulated sources, 7 and 8 with a PMU each, the gateway, and two subscribers, on free ports of 127.0.0.1. Subscriber 1 has
stream 101 of both PMUs, which is shown as `watch` shows it; subscriber 2 has stream 102 of PMU 8 alone. Each data frame that
comes is compared, byte for byte, with what the sources sent. The address of the gateway's page is below the screen.

Commands, as in `pdcgw replay --help`, are read from standard input if it is a terminal or a pipe: `revoke 1 8` takes PMU 8
from subscriber 1, `grant 1 8` gives it back, `droppmu 7` drops PMU 7. After the first command that changes the frames they are
not compared any more. Ctrl-C, or `q`, ends it.

With `--seconds` no commands are read: data frames are sent for so many seconds, the last ones are waited for, and it ends.

Exit status: 0 if it was ended by hand, or every frame came as it was sent; 1 if one did not, came changed or twice, or a port
could not be bound; 2 for unknown words.";

/// The words of `demo`.
pub fn demo_words<'a>(alloc: Global) -> Result<Command<'a>, AllocError> {
    let command = Command::new(alloc, "demo")
        .about("Shows the gateway at work: two sources, two subscribers, in one process")
        .after_help(HELP);
    with_options(alloc, command, &OPTIONS)
}

/// Does the work of `demo`, where standard output is a terminal or is not, prints its verdict, and returns whether that is good.
///
/// # Errors
///
/// Where an option takes another value, and where the demo ends before its time.
pub fn demo_by<R: Files + Runtime + Alloc<A = Global>>(
    rt: &R,
    words: &ArgMatches<'_>,
    is_terminal: bool,
) -> Result<bool, DemoError> {
    let style = if words.get_flag("plain") || !is_terminal {
        Style::Plain
    } else {
        Style::Screen
    };
    let seconds = seconds_in(words)?;
    let verdict = demo(rt, DemoOptions { style, seconds })?;
    Ok(print_verdict(rt, verdict)?)
}

/// For how many seconds data frames are sent, if the words say so.
fn seconds_in(words: &ArgMatches<'_>) -> Result<Option<u32>, BadOption> {
    let Some(word) = words.get_str("seconds") else {
        return Ok(None);
    };
    match number(word, 1, 86_400) {
        Some(seconds) => Ok(Some(seconds)),
        None => Err(BadOption {
            option: "--seconds",
            takes: "a number of 1 to 86400",
        }),
    }
}

/// Prints the verdict of a demo, on standard output where it is good, else on standard error, and returns whether it is.
fn print_verdict<R: Print + Eprint>(rt: &R, verdict: DemoVerdict) -> Result<bool, Fault> {
    if !verdict.is_good() {
        let _ = eprintln!(rt; "pdcgw: {verdict}");
        return Ok(false);
    }
    if let DemoVerdict::Ended = verdict {
        return Ok(true);
    }
    match println!(rt; "{verdict}") {
        Ok(()) => Ok(true),
        Err(_) => Err(Fault::Tool(pg_tools::Fault::Output)),
    }
}
