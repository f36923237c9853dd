//! The program `pdcgw_rows`: replays the worked rows.
//!
//! A row is a script, `NAME.script`, and the lines that it has to print, `NAME.answers`. Both lie where the program runs, or in the folder
//! `data` there, as under `rt run` and `rt try -- data/*`.
#![tactic(auto)]

use pg_replay::{Fault, replay};
use std::alloc::Global;
use std::process::ExitCode;
use std::rt::Files;
use std::{fs, io};

/// The rows.
const ROWS: [&str; 48] = [
    "first-path",
    "two-subscribers",
    "registry-and-grants",
    "stored-run",
    "neighbours-change-nothing",
    "time-end",
    "filler-after-wait",
    "wait-and-window-1",
    "wait-and-window-2",
    "counts-and-flush-1",
    "counts-and-flush-2",
    "order-of-blocks",
    "count-wrap-and-empty-config",
    "header-and-quality-1",
    "header-and-quality-2",
    "ring-of-one",
    "replies-before-data",
    "hang-up-clears",
    "bytes-drop-oldest",
    "bytes-without-hand",
    "bytes-and-longer-frame",
    "bytes-too-few",
    "bytes-out-of-range",
    "wrong-check-then-break",
    "command-refusals",
    "limits-and-refusals-1",
    "limits-and-refusals-2",
    "limits-and-refusals-3",
    "limits-and-refusals-4",
    "counters-of-a-pmu",
    "link-refusals-and-triggers-1",
    "link-refusals-and-triggers-2",
    "link-breaks-and-resets",
    "shared-frame-1",
    "shared-frame-2",
    "shared-frame-3",
    "members-of-one-frame",
    "data-refusals",
    "frame-opens-one-slot-more",
    "fan-out-of-512",
    "hostile-bytes",
    "forms-of-lines",
    "lines-of-bytes",
    "last-line",
    "ample-run",
    "ample-run-of-1",
    "ample-run-of-2",
    "ample-run-of-3",
];

/// What a row comes to.
enum Outcome {
    /// It prints its answers.
    AsWritten,
    /// From this line on it prints something else.
    DiffersAt(usize),
    /// It ends with a fault.
    Ended(Fault),
}

/// The number of the first line in which the texts differ, from 1.
fn first_difference(one: &[u8], other: &[u8]) -> Option<usize> {
    if one == other {
        return None;
    }
    let mut line = 1usize;
    for (a, b) in one.iter().zip(other) {
        if a != b {
            return Some(line);
        }
        if *a == b'\n' {
            line = line.saturating_add(1);
        }
    }
    Some(line)
}

/// The folder of the rows, with its slash. None: they are not here.
fn folder_of_rows<R: Files + Alloc<A = Global>>(rt: &R) -> io::Result<Option<&'static str>> {
    for folder in ["", "data/"] {
        if fs::exists(rt, format!(in rt.alloc(); "{folder}{}.script", ROWS[0])?)? {
            return Ok(Some(folder));
        }
    }
    Ok(None)
}

/// Replays a row.
fn replayed<R: Files + Alloc<A = Global>>(rt: &R, folder: &str, row: &str) -> io::Result<Outcome> {
    let alloc = rt.alloc();
    let script = fs::read(rt, format!(in alloc; "{folder}{row}.script")?)?;
    let answers = fs::read(rt, format!(in alloc; "{folder}{row}.answers")?)?;
    let mut printed = Vec::new(alloc);
    if let Err(fault) = replay(alloc, script.as_slice(), &mut printed) {
        return Ok(Outcome::Ended(fault));
    }
    match first_difference(printed.as_slice(), answers.as_slice()) {
        None => Ok(Outcome::AsWritten),
        Some(line) => Ok(Outcome::DiffersAt(line)),
    }
}

/// Prints what a row comes to. False: it is not as written.
fn print_row<R: Files + Print + Alloc<A = Global>>(
    rt: &R,
    folder: &str,
    row: &str,
) -> io::Result<bool> {
    match replayed(rt, folder, row)? {
        Outcome::AsWritten => {
            println!(rt; "{row}: as written")?;
            Ok(true)
        }
        Outcome::DiffersAt(line) => {
            println!(rt; "{row}: differs at line {line}")?;
            Ok(false)
        }
        Outcome::Ended(fault) => {
            println!(rt; "{row}: ends with {}", fault.refusal().name())?;
            Ok(false)
        }
    }
}

fn print_rows<R: Files + Print + Alloc<A = Global>>(rt: &R, folder: &str) -> io::Result<bool> {
    let mut all = true;
    for row in ROWS {
        all &= print_row(rt, folder, row)?;
    }
    Ok(all)
}

/// Finds the rows and prints what each comes to. False: one is not as written, or they are not here.
fn run<R: Files + Print + Eprint + Alloc<A = Global>>(rt: &R) -> io::Result<bool> {
    match folder_of_rows(rt)? {
        Some(folder) => print_rows(rt, folder),
        None => {
            eprintln!(rt;
                "pdcgw_rows: the rows are not here: run `rt try -- data/*` in crates/pdcgw_rows, or `sh tools/quick.sh` at the top"
            )?;
            Ok(false)
        }
    }
}

fn main(rt: HostRuntime) -> ExitCode {
    match run(&rt) {
        Ok(true) => ExitCode::SUCCESS,
        Ok(false) => ExitCode::from(1),
        Err(error) => {
            let _ = eprintln!(rt; "pdcgw_rows: {error}");
            ExitCode::from(2)
        }
    }
}
