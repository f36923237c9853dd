//! What the help of `pdcgw run` and docs/SETUP.md say of each key of a setup file, beside its values and default. `tools/setup_page.py` writes
//! the tables of the page from here.

use crate::keys::SetupKey;
use crate::kind::Kind;
use std::alloc::{AllocError, Global};

/// A key with what is written of it.
#[derive(Clone, Copy)]
struct KeyText {
    key: SetupKey,
    /// A value, as it is in a file.
    example: &'static str,
    /// What it means.
    meaning: &'static str,
}

#[rattlefmt::skip]
static FILE_TEXTS: [KeyText; 10] = [
    KeyText { key: SetupKey::TICK_MS, example: "20", meaning: "milliseconds from tick to tick; `wait` counts ticks" },
    KeyText { key: SetupKey::INGEST, example: "2", meaning: "threads for sources" },
    KeyText { key: SetupKey::SERVE, example: "4", meaning: "threads for subscribers, for frames that are due to many at once" },
    KeyText { key: SetupKey::LOG, example: "\"warn\"", meaning: "least level that is logged; nothing has the level debug yet" },
    KeyText { key: SetupKey::CONTROL, example: "\"/run/pdcgw/control\"",
        meaning: "control socket for `pdcgw ctl`; only the gateway's user and root may connect" },
    KeyText { key: SetupKey::STATUS, example: "\"127.0.0.1:9100\"",
        meaning: "address of the page (/) and the metrics (/metrics), by HTTP without a password" },
    KeyText { key: SetupKey::NAME, example: "\"PDC North\"", meaning: "the gateway's name on the page, in metrics and in the log" },
    KeyText { key: SetupKey::RECORD, example: "\"/var/lib/pdcgw/records\"",
        meaning: "folder in which all that happens is recorded, for `pdcgw script` and `pdcgw verify`" },
    KeyText { key: SetupKey::RECORD_MB, example: "20000", meaning: "megabytes of recordings that are kept; the oldest are removed" },
    KeyText { key: SetupKey::RECORD_HOURS, example: "24", meaning: "hours for which recordings are kept" },
];

#[rattlefmt::skip]
static PMU_TEXTS: [KeyText; 7] = [
    KeyText { key: SetupKey::PMU_ID, example: "7", meaning: "IDCODE of the PMU in its source's configuration" },
    KeyText { key: SetupKey::SOURCE, example: "300", meaning: "IDCODE of the source's frames; behind a PDC the PDC's" },
    KeyText { key: SetupKey::CONNECT, example: "\"10.0.0.1:4712\"", meaning: "address of the source, or a list of 1 to 4 that are tried in turn, in one table of each source" },
    KeyText { key: SetupKey::PREFER_FIRST, example: "true",
        meaning: "go back to the first address of `connect` once it answers: it is tried once a minute" },
    KeyText { key: SetupKey::SILENCE, example: "5",
        meaning: "connect again after this many seconds without data, and three periods of its DATA_RATE at least; 0 never" },
    KeyText { key: SetupKey::CLOCK_MS, example: "500",
        meaning: "refuse data whose timestamp is more than this many milliseconds from this machine's clock" },
    KeyText { key: SetupKey::AHEAD_MS, example: "50",
        meaning: "refuse data whose timestamp is more than this many milliseconds ahead of the reference, which is this machine's clock, or \
            the lower median of the newest times of all connected sources if that is later; 0 never" },
];

#[rattlefmt::skip]
static SUBSCRIBER_TEXTS: [KeyText; 11] = [
    KeyText { key: SetupKey::SUBSCRIBER_ID, example: "1", meaning: "its number" },
    KeyText { key: SetupKey::PORT, example: "4800", meaning: "TCP port of its own, to which it connects" },
    KeyText { key: SetupKey::RING, example: "64", meaning: "queue length in data frames; when it is full, the oldest is dropped" },
    KeyText { key: SetupKey::BYTES, example: "1000000", meaning: "queue length in bytes of data frames" },
    KeyText { key: SetupKey::GRANTS, example: "[7, \"300/11\"]", meaning: "PMUs that it may have, at most 32; a number N is the PMU N/N" },
    KeyText { key: SetupKey::ADDRESS, example: "\"10.1.0.4\"", meaning: "address of this machine on which the port is opened" },
    KeyText { key: SetupKey::ALLOW, example: "[\"10.1.0.0/16\"]", meaning: "hosts and networks that may connect; an empty list allows none" },
    KeyText { key: SetupKey::TAKEOVER, example: "true",
        meaning: "true: a new connection replaces one that is 5 seconds old. false: it is refused" },
    KeyText { key: SetupKey::STALL, example: "10",
        meaning: "disconnect if for this many seconds data waited and the client accepted none, or its host acknowledged none; 0 never" },
    KeyText { key: SetupKey::IDLE, example: "600", meaning: "disconnect after this many seconds without a byte in either direction; 0 never" },
    KeyText { key: SetupKey::CHANGE, example: "\"hangup\"",
        meaning: "what to do when the layout of a stream changes while it is on: safe sends a CFG-2, or disconnects if a frame could be \
            misread; hangup disconnects; keep does nothing" },
];

#[rattlefmt::skip]
static STREAM_TEXTS: [KeyText; 7] = [
    KeyText { key: SetupKey::STREAM_ID, example: "101", meaning: "IDCODE of its frames" },
    KeyText { key: SetupKey::RATE, example: "30", meaning: "frames per second" },
    KeyText { key: SetupKey::BASE, example: "1000000", meaning: "TIME_BASE, parts of a second; at least `rate`" },
    KeyText { key: SetupKey::WAIT, example: "10", meaning: "ticks that a frame waits for late members" },
    KeyText { key: SetupKey::WINDOW, example: "8", meaning: "frames that may wait at once" },
    KeyText { key: SetupKey::HEADER, example: "\"north\"", meaning: "ASCII text of its HDR frame, at most 1024 bytes" },
    KeyText { key: SetupKey::MEMBERS, example: "[7, \"300/11\"]", meaning: "its PMUs, in the order of its frames; a number N is the PMU N/N" },
];

/// The keys of a setup file for the help of `run`: what each means, what its value has to be, what it is where it is left out, and an
/// example. A table's keys are below its heading. No line has over 120 columns.
pub fn help_on_keys(alloc: Global) -> Result<String, AllocError> {
    let mut help = String::new(alloc);
    add_keys(alloc, &mut help, "  ", &FILE_TEXTS)?;
    add_entry(
        &mut help,
        "  ",
        "[[pmu]]",
        "a PMU, registered in the order of the file. The tables of a source that give `silence`, `clock_ms` or `ahead_ms` have to agree",
    )?;
    add_keys(alloc, &mut help, "    ", &PMU_TEXTS)?;
    add_entry(&mut help, "  ", "[[subscriber]]", "a subscriber")?;
    add_keys(alloc, &mut help, "    ", &SUBSCRIBER_TEXTS)?;
    add_entry(
        &mut help,
        "  ",
        "[[subscriber.stream]]",
        "a stream of the subscriber above",
    )?;
    add_keys(alloc, &mut help, "    ", &STREAM_TEXTS)?;
    Ok(help)
}

/// Adds the keys of a table.
fn add_keys(
    alloc: Global,
    help: &mut String,
    margin: &str,
    texts: &[KeyText],
) -> Result<(), AllocError> {
    for text in texts {
        let key = text.key;
        let values = match key.kind {
            Kind::Whole(least, most) => format!(in alloc; "{least} to {most}")?,
            kind => format!(in alloc; "{kind}")?,
        };
        let words = format!(in alloc;
            "{} ({values}; {}; example {})",
            text.meaning, key.absent, text.example
        )?;
        add_entry(help, margin, key.name, words.as_str())?;
    }
    Ok(())
}

/// The column where the text of an entry begins, and the columns of a line.
const TEXT_COLUMN: usize = 27;

const COLUMNS: usize = 120;

/// Adds a name, and beside it a text, broken between words.
fn add_entry(help: &mut String, margin: &str, name: &str, text: &str) -> Result<(), AllocError> {
    help.push_str(margin)?;
    help.push_str(name)?;
    let mut column = margin.len().saturating_add(name.len());
    for word in text.split(' ') {
        let mut start = column.saturating_add(1).max(TEXT_COLUMN);
        if start.saturating_add(word.len()) > COLUMNS {
            help.push('\n')?;
            column = 0;
            start = TEXT_COLUMN;
        }
        for _ in column..start {
            help.push(' ')?;
        }
        help.push_str(word)?;
        column = start.saturating_add(word.len());
    }
    help.push('\n')
}
