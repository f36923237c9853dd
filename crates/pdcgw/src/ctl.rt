//! The subcommand `ctl`: commands for a running gateway.

use crate::setup::unfit;
use crate::{Outcome, help};
use clap::{Arg, ArgAction, ArgMatches, Command};
use pg_admin::{ask, not_answered, not_reached};
use pg_log::system_words;
use pg_status::Answered;
use pg_wire::Refusal;
use std::alloc::{AllocError, Global};
use std::io;
use std::io::BufWriter;

/// The words of `ctl`.
pub fn words<'a>(alloc: Global) -> Result<Command<'a>, AllocError> {
    Command::new(alloc, "ctl")
        .about("Sends commands to a running gateway, and prints the answers")
        .after_help(help::CTL)
        .arg(
            Arg::new(alloc, "control")
                .long("control")
                .value_name("PATH")
                .help("The control socket: the key `control` of the gateway's setup")
                .required(true),
        )?
        .arg(
            Arg::new(alloc, "line")
                .value_name("LINE")
                .help("A command, in quotes if it has spaces")
                .num_args(1..)
                .action(ArgAction::Append)
                .required(true),
        )
}

/// Sends the lines, and prints their answers.
pub fn run<R: Print + Alloc<A = Global>>(
    rt: &R,
    files: &HostRuntime,
    words: &ArgMatches<'_>,
) -> Outcome {
    let alloc = rt.alloc();
    let Some(path) = words.get_str("control") else {
        return Outcome::Unread;
    };
    let mut lines = Vec::new(alloc);
    for line in words.get_strs("line").into_iter().flatten() {
        if lines.push(*line).is_err() {
            return Outcome::Failed(Refusal::NoMemory);
        }
    }
    let Ok(mut out) = BufWriter::new(alloc, io::writer(rt)) else {
        return Outcome::Failed(Refusal::NoMemory);
    };
    match ask(files, alloc, path, &lines, &mut out) {
        Ok(answered) => outcome_of(alloc, path, &lines, answered),
        Err(error) => {
            let kind = error.kind();
            let told = not_reached(alloc, path, kind, system_words(kind));
            Outcome::Unfit(unfit(alloc, Refusal::ReadFault, told))
        }
    }
}

/// What the answers come to. A line that was refused has its number in its answer.
fn outcome_of(alloc: Global, path: &str, lines: &[&str], answered: Answered) -> Outcome {
    let told = not_answered(alloc, path, lines, answered);
    match answered {
        Answered::All => Outcome::Done,
        Answered::Refused => match told {
            Ok(told) => Outcome::Troubled(told),
            Err(_) => Outcome::Failed(Refusal::NoMemory),
        },
        Answered::Busy => Outcome::Unfit(unfit(alloc, Refusal::Busy, told)),
        Answered::Ended(_) | Answered::Silent(_) => {
            Outcome::Unfit(unfit(alloc, Refusal::ReadFault, told))
        }
    }
}
