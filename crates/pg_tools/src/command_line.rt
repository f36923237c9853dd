//! The words of `simulate`, `watch` and `bridge` on the command line.

use crate::bridge_options::{BridgeArgs, read_bridge_options};
use crate::bridge_stream::bridge;
use crate::fault::Fault;
use crate::help;
use crate::options::{OptionWord, valued, with_options};
use crate::settings::{BadOption, SimulateArgs, read_simulate_options};
use crate::simulate_source::simulate;
use crate::watch_stream::{WatchArgs, read_watch_options, watch};
use clap::{Arg, ArgAction, ArgMatches, Command};
use std::alloc::{AllocError, Global};
use std::net::Net;
use std::rt::{Clock, Files};
use thiserror::Error;

/// Why a tool did not do what its words ask for.
#[derive(Debug, Drop, Error)]
pub enum ToolError {
    /// The value of an option is none that it takes.
    #[error(transparent)]
    BadOption(#[from] BadOption),
    /// The tool has ended by this.
    #[error(transparent)]
    Fault(#[from] Fault),
}

/// What `--plain` does.
pub const PLAIN: &str = "Writes a line a second, where standard output is a terminal too";

#[rattlefmt::skip]
static SIMULATE: [OptionWord; 9] = [
    OptionWord { name: "listen", value: Some("A.B.C.D:PORT"), default: Some("127.0.0.1:4712"), help: "Where it listens" },
    OptionWord { name: "source", value: Some("N"), default: Some("7"), help: "Its IDCODE, from which on its PMUs are numbered" },
    OptionWord { name: "pmus", value: Some("N"), default: Some("1"), help: "How many PMUs, 1 to 16" },
    OptionWord { name: "rate", value: Some("N"), default: Some("30"), help: "Data frames a second, 1 to 120" },
    OptionWord { name: "phasors", value: Some("N"), default: Some("3"), help: "Phasors of each PMU, 0 to 32" },
    OptionWord { name: "analogs", value: Some("N"), default: Some("1"), help: "Analog values of each PMU, 0 to 32" },
    OptionWord { name: "digitals", value: Some("N"), default: Some("1"), help: "Digital words of each PMU, 0 to 32" },
    OptionWord { name: "nominal", value: Some("HZ"), default: Some("60"), help: "The frequency of the grid, 50 or 60" },
    OptionWord { name: "clients", value: Some("N"), default: Some("1"), help: "How many clients it serves at once, 1 to 8" },
];

#[rattlefmt::skip]
static WATCH: [OptionWord; 5] = [
    OptionWord { name: "csv", value: None, default: None, help: "Writes each data frame as a line of values with commas between" },
    OptionWord { name: "plain", value: None, default: None, help: PLAIN },
    OptionWord { name: "raw", value: Some("FILE"), default: None, help: "Keeps the bytes in this file as they come" },
    OptionWord { name: "frames", value: Some("N"), default: None, help: "Ends after so many data frames" },
    OptionWord { name: "seconds", value: Some("N"), default: None, help: "Ends after so many seconds" },
];

#[rattlefmt::skip]
static BRIDGE: [OptionWord; 7] = [
    OptionWord { name: "format", value: Some("FORMAT"), default: Some("json"), help: "The format of the lines: json, influx or csv" },
    OptionWord { name: "name", value: Some("NAME"), default: None, help: "The name of the gateway, which each line has" },
    OptionWord { name: "key", value: None, default: None, help: "Puts STREAM/IDCODE and a tab before each line" },
    OptionWord { name: "repeat", value: Some("SECONDS"), default: Some("60"), help: "How often the configuration is repeated, 1 to 86400" },
    OptionWord { name: "heartbeat", value: Some("SECONDS"), default: Some("10"), help: "How often the state is reported, 1 to 86400" },
    OptionWord { name: "silence", value: Some("SECONDS"), default: Some("5"), help: "After how long without a frame it connects again, 1 to 86400" },
    OptionWord { name: "keep", value: Some("LINES"), default: Some("10000"), help: "How many lines wait for standard output at most, 1 to 1000000" },
];

/// The words of `simulate`.
pub fn simulate_words<'a>(alloc: Global) -> Result<Command<'a>, AllocError> {
    let command = Command::new(alloc, "simulate")
        .about("Plays a source with PMUs, to try a gateway with")
        .after_help(help::SIMULATE);
    let fault = valued(
        alloc,
        "fault",
        "FAULT",
        "What it does wrong, as below; may be repeated",
    );
    with_options(alloc, command, &SIMULATE)?.arg(fault.action(ArgAction::Append))
}

/// Does the work of `simulate`.
///
/// # Errors
///
/// Where an option takes another value, and where the source can't be played.
pub fn simulate_by<R>(rt: &R, words: &ArgMatches<'_>) -> Result<(), ToolError>
where
    R: Net + Clock + Print + Alloc<A = Global>,
{
    let options = read_simulate_options(&SimulateArgs {
        listen: words.get_str("listen").unwrap_or(""),
        source: words.get_str("source").unwrap_or(""),
        pmus: words.get_str("pmus").unwrap_or(""),
        rate: words.get_str("rate").unwrap_or(""),
        phasors: words.get_str("phasors").unwrap_or(""),
        analogs: words.get_str("analogs").unwrap_or(""),
        digitals: words.get_str("digitals").unwrap_or(""),
        nominal: words.get_str("nominal").unwrap_or(""),
        faults: words.get_strs("fault").unwrap_or(&[]),
        clients: words.get_str("clients").unwrap_or(""),
    })?;
    simulate(rt, &options)?;
    Ok(())
}

/// A subcommand with the words of `watch` and `bridge` for an address and a stream there.
fn with_stream<'a>(alloc: Global, command: Command<'a>) -> Result<Command<'a>, AllocError> {
    let address = Arg::new(alloc, "address")
        .value_name("ADDRESS")
        .help(
            "Where a gateway's subscriber connects, or a source listens: A.B.C.D:PORT or NAME:PORT",
        )
        .required(true);
    let stream = valued(
        alloc,
        "stream",
        "N",
        "The IDCODE of the stream, or of the source",
    );
    command.arg(address)?.arg(stream.required(true))
}

/// The words of `watch`.
pub fn watch_words<'a>(alloc: Global) -> Result<Command<'a>, AllocError> {
    let command = Command::new(alloc, "watch")
        .about("Plays a subscriber: checks a stream, and shows it")
        .after_help(help::WATCH);
    with_options(alloc, with_stream(alloc, command)?, &WATCH)
}

/// Does the work of `watch`, where standard output is a terminal or is not, and returns whether nothing was wrong with what came.
///
/// # Errors
///
/// Where an option takes another value, and where the stream can't be had or shown.
pub fn watch_by<R>(rt: &R, words: &ArgMatches<'_>, is_terminal: bool) -> Result<bool, ToolError>
where
    R: Net + Clock + Files + Print + Eprint + Alloc<A = Global>,
{
    let read = read_watch_options(&WatchArgs {
        address: words.get_str("address").unwrap_or(""),
        stream: words.get_str("stream").unwrap_or(""),
        is_csv: words.get_flag("csv"),
        is_plain: words.get_flag("plain"),
        is_terminal,
        raw: words.get_str("raw"),
        frames: words.get_str("frames"),
        seconds: words.get_str("seconds"),
    });
    let options = match read {
        Ok(options) => options,
        Err(wrong) => return Err(ToolError::BadOption(wrong)),
    };
    Ok(watch(rt, &options)?)
}

/// The words of `bridge`.
pub fn bridge_words<'a>(alloc: Global) -> Result<Command<'a>, AllocError> {
    let command = Command::new(alloc, "bridge")
        .about("Prints a stream as lines, for a message broker, a database or a historian")
        .after_help(help::BRIDGE);
    with_options(alloc, with_stream(alloc, command)?, &BRIDGE)
}

/// Does the work of `bridge`.
///
/// # Errors
///
/// Where an option takes another value, and where the lines can't be printed.
pub fn bridge_by<R>(rt: &R, words: &ArgMatches<'_>) -> Result<(), ToolError>
where
    R: Net + Clock + Print + Eprint + Alloc<A = Global>,
{
    let read = read_bridge_options(&BridgeArgs {
        address: words.get_str("address").unwrap_or(""),
        stream: words.get_str("stream").unwrap_or(""),
        format: words.get_str("format").unwrap_or(""),
        name: words.get_str("name"),
        is_keyed: words.get_flag("key"),
        repeat: words.get_str("repeat").unwrap_or(""),
        heartbeat: words.get_str("heartbeat").unwrap_or(""),
        silence: words.get_str("silence").unwrap_or(""),
        keep: words.get_str("keep").unwrap_or(""),
    });
    let options = match read {
        Ok(options) => options,
        Err(wrong) => return Err(ToolError::BadOption(wrong)),
    };
    bridge(rt, &options)?;
    Ok(())
}
