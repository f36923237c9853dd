//! The line that answers an edit, a question or a refusal.

ghost use Rattle.std.specs.Prelude.{◌≡◌, take, OnOk};
ghost use Rattle.std.specs.Io.KnownBytes.{Appends};
ghost use Rattle.pg_gateway.specs.GatewayEvents.{told};
ghost use Rattle.pg_lines.specs.Printing.{figure, refusal_line, done_line, answer_line, hex_end, drained_line, stats_line, counters_line, reasons_end, reason_text, entry_line};

use itoa::write_digits;
use pg_audit::{Entry, PmuStats, Stats};
use pg_gateway::Reply;
use pg_ring::Drained;
use pg_wire::Refusal;
use std::alloc::Global;
use std::io;
use std::io::Write;
use thiserror::Error;

/// Why an answer was not printed.
#[derive(Clone, Copy, Debug, PartialEq, Eq, Error)]
pub enum NotPrinted {
    /// There was no memory for its text.
    #[error("there is no memory for an answer")]
    NoMemory,
    /// It can't be written.
    #[error("an answer can't be written")]
    Write,
}

impl From<io::Error> for NotPrinted {
    fn from(_e: io::Error) -> NotPrinted
        ensures value { result ≡ NotPrinted.Write }
    {
        NotPrinted::Write
    }
}

/// How a line of `Reply::Done` begins.
const DONE: [u8; 5] = *b"done ";

/// The most bytes of such a line: two numbers of 20 digits, the space between them, and the LF.
const DONE_BYTES: usize = 47;

/// Prints a line with a refusal, behind this word.
///
/// # Errors
///
/// `Write`, where the line can't be written.
#[inline(never)]
pub fn print_refusal<W: Write>(out: &mut W, word: &str, refusal: Refusal) -> Result<(), NotPrinted>
    ensures prints { OnOk result (Appends (W.contents out.old) (W.contents out.new) (refusal_line word.now refusal)) }
{
    writeln!(out, "{} {} {}", word, refusal.number(), refusal.name())?;
    Ok(())
}

/// Prints the line of a reply.
///
/// # Errors
///
/// `NoMemory`, where there is none for the bytes of a drain in hexadecimal; `Write`, where the line can't be written.
#[inline(always)]
pub fn print_reply<W: Write>(alloc: Global, out: &mut W, reply: &Reply) -> Result<(), NotPrinted>
    ensures prints { OnOk result (Appends (W.contents out.old) (W.contents out.new) (answer_line (told reply.now))) }
{
    match reply {
        Reply::Done { made, kept } => print_done(out, *made, *kept)?,
        Reply::Refused(refusal) => print_refusal(out, "refused", *refusal)?,
        Reply::Drained { buf, out: handed } => match handed {
            Ok(drained) => print_drained(alloc, out, drained, buf)?,
            Err(refusal) => print_refusal(out, "refused", *refusal)?,
        },
        Reply::Stats(stats) => print_stats(out, stats)?,
        Reply::PmuStats(stats) => print_counters(out, "pmustats", stats)?,
        Reply::Audit(entry) => print_entry(out, entry)?,
        // no line of a script asks for these
        Reply::Standing(_) | Reply::Waiting(_) => {}
    }
    Ok(())
}

/// Prints how many data frames an event made, and how many of them are kept, without a `Formatter`: a line that comes once for each
/// frame.
fn print_done<W: Write>(out: &mut W, made: u64, kept: u64) -> Result<(), NotPrinted>
    ensures prints { OnOk result (Appends (W.contents out.old) (W.contents out.new) (done_line made kept)) }
{
    let mut line = [b'\n'; DONE_BYTES];
    let kept_at = write_digits(kept, &mut line, DONE_BYTES - 1);
    line[kept_at - 1] = b' ';
    let made_at = write_digits(made, &mut line, kept_at - 1);
    let start = made_at - DONE.len();
    line[start..made_at].copy_from_slice(&DONE);
    out.write_all(&line[start..])?;
    Ok(())
}

/// Prints what a drain handed out: how many bytes, how many frames they begin, the gaps before these, the bytes.
#[inline(never)]
fn print_drained<W: Write>(
    alloc: Global,
    out: &mut W,
    drained: &Drained,
    buffer: &[u8],
) -> Result<(), NotPrinted>
    ensures prints { OnOk result (Appends (W.contents out.old) (W.contents out.new)
        (drained_line (take drained.now.len buffer.now) drained.now.begun drained.now.gap)) }
{
    let handed = &buffer[..drained.len.min(buffer.len())];
    write!(
        out,
        "drained {} {} {}",
        handed.len(),
        drained.begun,
        drained.gap
    )?;
    print_hex(alloc, out, handed)?;
    Ok(())
}

/// Prints the end of a line: bytes in upper case hexadecimal, or `-` for none.
///
/// # Errors
///
/// `NoMemory`; `Write`, where the line can't be written.
#[inline(never)]
pub fn print_hex<W: Write>(alloc: Global, out: &mut W, bytes: &[u8]) -> Result<(), NotPrinted>
    ensures prints { OnOk result (Appends (W.contents out.old) (W.contents out.new) (hex_end bytes.now)) }
{
    if bytes.is_empty() {
        writeln!(out, " -")?;
        return Ok(());
    }
    let Ok(text) = hex::encode_upper(alloc, bytes) else {
        return Err(NotPrinted::NoMemory);
    };
    writeln!(out, " {text}")?;
    Ok(())
}

/// Prints a subscriber's counters.
#[inline(never)]
fn print_stats<W: Write>(out: &mut W, stats: &Stats) -> Result<(), NotPrinted>
    ensures prints { OnOk result (Appends (W.contents out.old) (W.contents out.new) (stats_line stats.now)) }
{
    print_figure(out, "stats made ", stats.made)?;
    print_figure(out, " dropped ", stats.dropped)?;
    print_figure(out, " lost ", stats.lost)?;
    print_figure(out, " late ", stats.late)?;
    print_figure(out, " twice ", stats.twice)?;
    print_figure(out, " cleared ", stats.cleared)?;
    print_figure(out, " handed ", stats.handed)?;
    print_figure(out, " replies ", stats.replies)?;
    print_reasons(out, &stats.by_reason)?;
    Ok(())
}

/// Prints a number behind this text.
fn print_figure<W: Write>(out: &mut W, text: &str, number: u64) -> Result<(), NotPrinted>
    ensures prints { OnOk result (Appends (W.contents out.old) (W.contents out.new) (figure text.now number)) }
{
    write!(out, "{text}{number}")?;
    Ok(())
}

/// Prints the counters of a PMU, a link or a session, behind this word.
///
/// # Errors
///
/// `Write`, where the line can't be written.
#[inline(never)]
pub fn print_counters<W: Write>(out: &mut W, word: &str, stats: &PmuStats) -> Result<(), NotPrinted>
    ensures prints { OnOk result (Appends (W.contents out.old) (W.contents out.new) (counters_line word.now stats.now)) }
{
    write!(out, "{word} taken {}", stats.taken)?;
    print_reasons(out, &stats.by_reason)?;
    Ok(())
}

/// Prints each reason that was counted, by rising number, and ends the line.
fn print_reasons<W: Write>(out: &mut W, by_reason: &[u64]) -> Result<(), NotPrinted>
    ensures prints { OnOk result (Appends (W.contents out.old) (W.contents out.new) (reasons_end by_reason.now)) }
{
    for number in 0..by_reason.len() {
        print_reason(out, number, by_reason[number])?;
    }
    writeln!(out)?;
    Ok(())
}

/// Prints a reason, where it was counted.
fn print_reason<W: Write>(out: &mut W, number: usize, count: u64) -> Result<(), NotPrinted>
    ensures prints { OnOk result (Appends (W.contents out.old) (W.contents out.new) (reason_text number count)) }
{
    if count == 0 {
        return Ok(());
    }
    write!(out, " {number}:{count}")?;
    Ok(())
}

/// Prints an entry of an audit.
#[inline(never)]
fn print_entry<W: Write>(out: &mut W, entry: &Option<Entry>) -> Result<(), NotPrinted>
    ensures prints { OnOk result (Appends (W.contents out.old) (W.contents out.new) (entry_line entry.now)) }
{
    match entry {
        Some(entry) => writeln!(
            out,
            "audit {} {} {}",
            entry.turn,
            entry.what.number(),
            entry.result_number()
        )?,
        None => writeln!(out, "audit none")?,
    }
    Ok(())
}
