//! The words of `script`, `verify` and `explain` on the command line.

use crate::explanation::{Inquiry, explain};
use crate::help;
use crate::reader::{Fault, RecordReader};
use crate::script::{print_script, read_time};
use crate::verification::verify;
use clap::{Arg, ArgAction, ArgMatches, Command};
use pg_log::system_words;
use pg_tools::{BadOption, OptionWord, number, valued, with_options};
use pg_wire::{StreamId, SubId};
use std::alloc::{AllocError, Global};
use std::fs::{File, OpenOptions};
use std::io;
use std::io::BufWriter;
use std::os::unix::fs::OpenOptionsExt;

/// What `--from` and `--to` take.
const TIME: &str = "a time, as 2026-11-28T14:03:17Z";

#[rattlefmt::skip]
static EXPLAIN: [OptionWord; 5] = [
    OptionWord { name: "stream", value: Some("N"), default: None, help: "The IDCODE of the stream; else all of the subscriber" },
    OptionWord { name: "from", value: Some("TIME"), default: None, help: "The time of the first frame; else the first of the recording" },
    OptionWord { name: "to", value: Some("TIME"), default: None,
        help: "The time before which the last frame lies; else the last of the recording" },
    OptionWord { name: "csv", value: None, default: None, help: "Prints comma-separated values, a line for each member of a frame" },
    OptionWord { name: "pcap", value: Some("FILE"), default: None,
        help: "Writes the frames that were handed out to this file, for Wireshark" },
];

/// Why a subcommand for recordings did not do what its words ask for.
#[derive(Drop)]
pub enum RecordingsError {
    /// The value of an option is none that it takes.
    BadOption(BadOption),
    /// There was no memory.
    NoMemory,
    /// Standard output can't be written.
    NotWritten,
    /// A file can't be read or written, or has nothing of the subscriber: this text says which and why.
    Text(String),
}

impl From<AllocError> for RecordingsError {
    fn from(_: AllocError) -> RecordingsError {
        RecordingsError::NoMemory
    }
}

/// The files of a recording.
fn files_word<'a>(alloc: Global) -> Arg<'a> {
    Arg::new(alloc, "file")
        .value_name("FILE")
        .help("A file of the folder `record`, and those behind it in their order")
        .num_args(1..)
        .action(ArgAction::Append)
        .required(true)
}

/// The words of `script`.
pub fn script_words<'a>(alloc: Global) -> Result<Command<'a>, AllocError> {
    Command::new(alloc, "script")
        .about("Prints a recording as a script for `pdcgw replay`")
        .after_help(help::SCRIPT)
        .arg(files_word(alloc))
}

/// The words of `verify`.
pub fn verify_words<'a>(alloc: Global) -> Result<Command<'a>, AllocError> {
    Command::new(alloc, "verify")
        .about("Replays a recording, and compares what each subscriber was sent")
        .after_help(help::VERIFY)
        .arg(files_word(alloc))
}

/// The words of `explain`.
pub fn explain_words<'a>(alloc: Global) -> Result<Command<'a>, AllocError> {
    let command = Command::new(alloc, "explain")
        .about("Prints why a subscriber was sent what it was sent, by a recording")
        .after_help(help::EXPLAIN)
        .arg(files_word(alloc))?
        .arg(valued(alloc, "subscriber", "U", "The subscriber").required(true))?;
    with_options(alloc, command, &EXPLAIN)
}

/// A reader of the files that the words name.
fn reader_of<'a>(
    alloc: Global,
    files: &'a HostRuntime,
    words: &ArgMatches<'_>,
) -> Result<RecordReader<'a>, AllocError> {
    let mut paths = Vec::new(alloc);
    for path in words.get_strs("file").into_iter().flatten() {
        paths.push(String::from_str(alloc, path)?)?;
    }
    RecordReader::new(files, alloc, paths)
}

/// What is printed of a recording.
#[derive(Clone, Copy)]
enum Printed {
    Script,
    Verdict,
}

/// Prints this of the files that the words name, and returns whether all is as it should be.
fn print_by<R: Print + Alloc<A = Global>>(
    rt: &R,
    files: &HostRuntime,
    words: &ArgMatches<'_>,
    printed: Printed,
) -> Result<bool, RecordingsError> {
    let alloc = rt.alloc();
    let mut reader = reader_of(alloc, files, words)?;
    let Ok(mut out) = BufWriter::new(alloc, io::writer(rt)) else {
        return Err(RecordingsError::NoMemory);
    };
    let done = match printed {
        Printed::Script => print_script(alloc, &mut reader, &mut out),
        Printed::Verdict => match verify(alloc, &mut reader, &mut out) {
            Ok(verdict) => Ok(verdict.is_right()),
            Err(fault) => Err(fault),
        },
    };
    match done {
        Ok(is_right) => Ok(is_right),
        Err(fault) => Err(error_of(alloc, &reader, fault)),
    }
}

/// Prints the script of the files that the words name, and returns whether the recording is whole.
///
/// # Errors
///
/// A file can't be read, standard output can't be written, or there is no memory.
pub fn script_by<R: Print + Alloc<A = Global>>(
    rt: &R,
    files: &HostRuntime,
    words: &ArgMatches<'_>,
) -> Result<bool, RecordingsError> {
    print_by(rt, files, words, Printed::Script)
}

/// Verifies the files that the words name, and returns whether nothing is missing and nothing differs.
///
/// # Errors
///
/// A file can't be read, standard output can't be written, or there is no memory.
pub fn verify_by<R: Print + Alloc<A = Global>>(
    rt: &R,
    files: &HostRuntime,
    words: &ArgMatches<'_>,
) -> Result<bool, RecordingsError> {
    print_by(rt, files, words, Printed::Verdict)
}

/// Explains what the files that the words name have, and returns whether the recording is whole.
///
/// # Errors
///
/// An option takes another value, a file can't be read or written, the recording has no stream of the subscriber, standard output can't be
/// written, or there is no memory.
pub fn explain_by<R: Print + Alloc<A = Global>>(
    rt: &R,
    files: &HostRuntime,
    words: &ArgMatches<'_>,
) -> Result<bool, RecordingsError> {
    let alloc = rt.alloc();
    let inquiry = match inquiry_in(words) {
        Ok(inquiry) => inquiry,
        Err(option) => return Err(RecordingsError::BadOption(option)),
    };
    let capture = match capture_in(alloc, files, words) {
        Ok(capture) => capture,
        Err(error) => return Err(not_captured(alloc, words, system_words(error.kind()))),
    };
    let mut reader = reader_of(alloc, files, words)?;
    let Ok(mut out) = BufWriter::new(alloc, io::writer(rt)) else {
        return Err(RecordingsError::NoMemory);
    };
    match explain(alloc, &mut reader, inquiry, &mut out, capture) {
        Ok(totals) if totals.is_known => Ok(totals.is_whole()),
        Ok(_) => {
            let number = inquiry.subscriber.get();
            Err(with_text(format!(in alloc;
                "pdcgw: the recording has no stream of subscriber {number}\n"
            )))
        }
        Err(Fault::NotCaptured) => Err(not_captured(alloc, words, "it can't be written")),
        Err(fault) => Err(error_of(alloc, &reader, fault)),
    }
}

/// The value of an option with a number, if it is there.
fn number_of(
    words: &ArgMatches<'_>,
    name: &str,
    most: u32,
    wrong: BadOption,
) -> Result<Option<u16>, BadOption> {
    match words.get_str(name) {
        None => Ok(None),
        Some(word) => match number(word, 1, most) {
            Some(number) => Ok(u16::try_from(number).ok()),
            None => Err(wrong),
        },
    }
}

/// The value of an option with a time, or this time where it is absent.
fn time_of(
    words: &ArgMatches<'_>,
    name: &str,
    absent: u64,
    option: &'static str,
) -> Result<u64, BadOption> {
    match words.get_str(name) {
        None => Ok(absent),
        Some(word) => match read_time(word) {
            Some(time) => Ok(time),
            None => Err(BadOption {
                option,
                takes: TIME,
            }),
        },
    }
}

/// What the words ask.
fn inquiry_in(words: &ArgMatches<'_>) -> Result<Inquiry, BadOption> {
    let no_subscriber = BadOption {
        option: "--subscriber",
        takes: "a number of 1 to 65535",
    };
    let no_stream = BadOption {
        option: "--stream",
        takes: "a number of 1 to 65534",
    };
    let subscriber = number_of(words, "subscriber", 65_535, no_subscriber)?;
    let Some(subscriber) = subscriber.and_then(|it| SubId::new(it)) else {
        return Err(no_subscriber);
    };
    let stream = number_of(words, "stream", 65_534, no_stream)?;
    Ok(Inquiry {
        subscriber,
        stream: stream.and_then(|it| StreamId::new(it)),
        from: time_of(words, "from", 0, "--from")?,
        to: time_of(words, "to", u64::MAX, "--to")?,
        is_csv: words.get_flag("csv"),
    })
}

/// The file of packets, if there is to be one.
fn capture_in(
    alloc: Global,
    files: &HostRuntime,
    words: &ArgMatches<'_>,
) -> io::Result<Option<BufWriter<File>>> {
    let Some(path) = words.get_str("pcap") else {
        return Ok(None);
    };
    let mut options = OpenOptions::new();
    options.write(true).create(true).truncate(true).mode(0o600);
    let file = options.open(files, path)?;
    Ok(Some(BufWriter::new(alloc, file)?))
}

/// The error where a recording could not be read or its text not be written.
fn error_of(alloc: Global, reader: &RecordReader<'_>, fault: Fault) -> RecordingsError {
    match fault {
        Fault::NoMemory => RecordingsError::NoMemory,
        Fault::NotWritten | Fault::NotCaptured => RecordingsError::NotWritten,
        Fault::NotRead(file, kind) => {
            let path = match reader.paths().get(file) {
                Some(path) => path.as_str(),
                None => "",
            };
            with_text(format!(in alloc; "pdcgw: {path}: can't be read: {}\n", system_words(kind)))
        }
    }
}

/// The file of packets can't be had, for this reason.
fn not_captured(alloc: Global, words: &ArgMatches<'_>, why: &str) -> RecordingsError {
    let path = words.get_str("pcap").unwrap_or("");
    with_text(format!(in alloc; "pdcgw: {path}: {why}\n"))
}

/// The error with this text.
fn with_text(text: Result<String, AllocError>) -> RecordingsError {
    match text {
        Ok(text) => RecordingsError::Text(text),
        Err(_) => RecordingsError::NoMemory,
    }
}
