//! The program `pdcgw`.
#![tactic(auto)]

mod ctl;
mod help;
mod recordings;
mod setup;
mod tools;

use clap::error::ErrorKind;
use clap::{Arg, ArgMatches, Command};
use pg_admin::{Signed, say};
use pg_demo::demo_words;
use pg_recordings::{explain_words, script_words, verify_words};
use pg_replay::{Fault, replay};
use pg_run::{Runtime, Start};
use pg_setup::{Checked, Trouble};
use pg_tools::{BadOption, bridge_words, simulate_words, watch_words};
use pg_wire::Refusal;
use std::alloc::{AllocError, Global};
use std::io::{BufWriter, IsTerminal, StdinLock};
use std::net::{Net, TcpListener, TcpStream};
use std::process::ExitCode;
use std::rt::{Clock, Env, Files};
use std::sync::Wait;
use std::thread::Threads;
use std::{env, io};

/// The program's version.
const VERSION: &str = "0.1.0";

/// The option that names a setup file.
fn setup_word<'a>(alloc: Global) -> Arg<'a> {
    Arg::new(alloc, "setup")
        .long("setup")
        .value_name("FILE")
        .help("The setup file")
        .required(true)
}

/// The words of `replay`.
fn replay_words<'a>(alloc: Global) -> Command<'a> {
    Command::new(alloc, "replay")
        .about("Answers the lines of a script")
        .after_help(help::REPLAY)
}

/// The words of `run`.
fn run_words<'a>(alloc: Global, help: &'a str) -> Result<Command<'a>, AllocError> {
    Command::new(alloc, "run")
        .about("Serves sources and subscribers over TCP")
        .after_help(help)
        .arg(setup_word(alloc))
}

/// The words of `check`.
fn check_words<'a>(alloc: Global) -> Result<Command<'a>, AllocError> {
    Command::new(alloc, "check")
        .about("Lists the mistakes of a setup, or prints what would run by it")
        .after_help(help::CHECK)
        .arg(setup_word(alloc))
}

/// A command with the subcommands for a gateway, where `help` is that of `run`.
fn with_gateway<'a>(
    alloc: Global,
    command: Command<'a>,
    help: &'a str,
) -> Result<Command<'a>, AllocError> {
    command
        .subcommand(replay_words(alloc))?
        .subcommand(run_words(alloc, help)?)?
        .subcommand(check_words(alloc)?)?
        .subcommand(ctl::words(alloc)?)
}

/// A command with the subcommands for recordings.
fn with_recordings<'a>(alloc: Global, command: Command<'a>) -> Result<Command<'a>, AllocError> {
    command
        .subcommand(script_words(alloc)?)?
        .subcommand(verify_words(alloc)?)?
        .subcommand(explain_words(alloc)?)
}

/// A command with the tools as subcommands.
fn with_tools<'a>(alloc: Global, command: Command<'a>) -> Result<Command<'a>, AllocError> {
    command
        .subcommand(simulate_words(alloc)?)?
        .subcommand(watch_words(alloc)?)?
        .subcommand(bridge_words(alloc)?)?
        .subcommand(demo_words(alloc)?)
}

/// The program's own words, where `help` is that of `run`.
fn program<'a>(alloc: Global, help: &'a str) -> Result<Command<'a>, AllocError> {
    let command = Command::new(alloc, "pdcgw")
        .about("A phasor data concentrator gateway for many subscribers")
        .version(VERSION)
        .after_help(help::PROGRAM)
        .subcommand_required(true);
    let command = with_gateway(alloc, command, help)?;
    with_tools(alloc, with_recordings(alloc, command)?)
}

/// What the program comes to.
enum Outcome {
    Done,
    Failed(Refusal),
    /// A setup was checked: what would run, and what is seldom meant.
    Checked(Checked),
    /// Nothing runs by this setup, for these mistakes.
    Unfit(Trouble),
    /// `clap` was asked for help or for the version.
    Asked(clap::Error),
    /// `clap` refuses the words, and says why.
    Misused(clap::Error),
    /// The value of an option is none that it takes.
    Misworded(BadOption),
    /// Something was wrong with what `watch` read, which was printed, or a line of `ctl` was refused, with this text.
    Troubled(String),
    /// A tool has ended by this.
    Fallen(pg_tools::Fault),
    /// A demo has ended by this.
    Broken(pg_demo::Fault),
    /// The arguments can't be had as text, or name no work.
    Unread,
}

/// What the service is started with. The system's journal reads standard error where it has set `JOURNAL_STREAM` (systemd.exec(5)).
fn start_of<'a, R: Env + Alloc<A = Global>>(rt: &R, file: &'a str) -> Start<'a> {
    Start {
        file,
        version: VERSION,
        has_priority: env::var(rt, "JOURNAL_STREAM").is_ok(),
    }
}

/// Does what the words ask for.
fn do_words<R: Files + Env + Runtime + Alloc<A = Global>>(
    rt: &R,
    files: &HostRuntime,
    matches: &ArgMatches<'_>,
    is_terminal: bool,
) -> Outcome {
    let Some((work, words)) = matches.subcommand() else {
        return Outcome::Unread;
    };
    match work {
        "ctl" => return ctl::run(rt, files, words),
        "script" => return recordings::script(rt, files, words),
        "verify" => return recordings::verify(rt, files, words),
        "explain" => return recordings::explain(rt, files, words),
        "simulate" => return tools::simulate(rt, words),
        "watch" => return tools::watch(rt, words, is_terminal),
        "bridge" => return tools::bridge(rt, words),
        "demo" => return tools::demo(rt, words, is_terminal),
        _ => {}
    }
    match (work, words.get_str("setup")) {
        ("run", Some(file)) => match pg_run::run(rt, files, start_of(rt, file)) {
            Ok(()) => Outcome::Done,
            Err(failure) => Outcome::Unfit(setup::why(rt, file, failure)),
        },
        ("check", Some(file)) => match setup::check(rt, file) {
            Ok(checked) => Outcome::Checked(checked),
            Err(trouble) => Outcome::Unfit(trouble),
        },
        ("replay", _) => match replay_input(rt) {
            Ok(()) => Outcome::Done,
            Err(fault) => Outcome::Failed(fault.refusal()),
        },
        _ => Outcome::Unread,
    }
}

/// Replays standard input.
fn replay_input<R: Input + Print + Alloc<A = Global>>(rt: &R) -> Result<(), Fault> {
    let alloc = rt.alloc();
    let Ok(mut out) = BufWriter::new(alloc, io::writer(rt)) else {
        return Err(Fault::NoMemory);
    };
    replay(alloc, rt.reader(), &mut out)
}

/// What the words come to, where standard output is a terminal or is not. (Its bounds are those of `Runtime`, one by one: `main` gets no
/// proof where it is asked for them by that name.)
fn outcome_of<R>(rt: &R, files: &HostRuntime, is_terminal: bool) -> Outcome
where
    R: Files
        + Input<Reader = StdinLock<'static>>
        + Print
        + Eprint
        + Env
        + Clock
        + Net<Listener = TcpListener, Stream = TcpStream>
        + Threads
        + Wait
        + Sync
        + Copy
        + Send
        + Alloc<A = Global>
        + 'static,
{
    let alloc = rt.alloc();
    let words: Vec<String> = match env::args(rt) {
        Ok(args) => match args.collect(alloc) {
            Ok(words) => words,
            Err(_) => return Outcome::Failed(Refusal::NoMemory),
        },
        Err(e) if e.kind() == io::ErrorKind::OutOfMemory => {
            return Outcome::Failed(Refusal::NoMemory);
        }
        Err(_) => return Outcome::Unread,
    };
    let Ok(help) = help::of_run(alloc) else {
        return Outcome::Failed(Refusal::NoMemory);
    };
    let command = match program(alloc, help.as_str()) {
        Ok(command) => command,
        Err(_) => return Outcome::Failed(Refusal::NoMemory),
    };
    match command.try_get_matches_from(words.as_slice()) {
        Ok(matches) => do_words(rt, files, &matches, is_terminal),
        Err(error) => match error.kind() {
            ErrorKind::OutOfMemory => Outcome::Failed(Refusal::NoMemory),
            ErrorKind::DisplayHelp | ErrorKind::DisplayVersion => Outcome::Asked(error),
            _ => Outcome::Misused(error),
        },
    }
}

/// The status where something was printed, or could not be.
fn status_of(printed: io::Result<()>) -> ExitCode {
    match printed {
        Ok(()) => ExitCode::SUCCESS,
        Err(_) => ExitCode::from(1),
    }
}

/// Prints the refusal by which the program ends: what is known of it, or else what it means, and then its number and name.
fn print_refusal<R: Eprint>(rt: &R, text: &str, refusal: Refusal) -> ExitCode {
    if text.is_empty() {
        let _ = eprintln!(rt; "pdcgw: {}", say(refusal));
    } else {
        let _ = eprint!(rt; "{text}");
    }
    let _ = eprintln!(rt; "{}", Signed(refusal));
    ExitCode::from(1)
}

fn main(rt: HostRuntime) -> ExitCode {
    let is_terminal = rt.stdout().is_terminal();
    match outcome_of(&rt, &rt, is_terminal) {
        Outcome::Done => ExitCode::SUCCESS,
        Outcome::Checked(checked) => {
            let _ = eprint!(rt; "{}", checked.warnings.as_str());
            status_of(print!(rt; "{}", checked.report.as_str()))
        }
        Outcome::Asked(text) => status_of(print!(rt; "{text}")),
        Outcome::Failed(refusal) => print_refusal(&rt, "", refusal),
        Outcome::Unfit(trouble) => print_refusal(&rt, trouble.told.as_str(), trouble.refusal),
        Outcome::Misused(error) => {
            let _ = eprint!(rt; "{error}");
            ExitCode::from(2)
        }
        Outcome::Misworded(misword) => {
            let _ = eprintln!(rt;
                "pdcgw: {misword}; `--help` behind the command lists the options"
            );
            ExitCode::from(2)
        }
        Outcome::Troubled(text) => {
            let _ = eprint!(rt; "{text}");
            ExitCode::from(1)
        }
        Outcome::Fallen(fault) => {
            let _ = eprintln!(rt; "pdcgw: {fault}");
            ExitCode::from(1)
        }
        Outcome::Broken(fault) => {
            let _ = eprintln!(rt; "pdcgw: {fault}");
            ExitCode::from(1)
        }
        Outcome::Unread => {
            let _ = eprintln!(rt; "pdcgw: the arguments can't be read");
            ExitCode::from(2)
        }
    }
}
