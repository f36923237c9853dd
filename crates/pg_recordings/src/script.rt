//! The script that replays a recording.

use crate::line::line_of;
use crate::reader::{Fault, Notice, RecordReader, Start, Step};
use jiff_core::Timestamp;
use jiff_fmt::temporal::{DateTimePrinter, parse_timestamp};
use pg_record::{RecordKind, Timed};
use std::alloc::{AllocError, Global};
use std::io::Write;

/// A time as text: milliseconds since 1970-01-01 00:00 UTC.
pub(crate) fn time_text(alloc: Global, at: u64) -> Result<String, AllocError> {
    let nanos = i128::from(at).saturating_mul(1_000_000);
    match Timestamp::from_nanosecond(nanos) {
        Ok(time) => {
            let text = DateTimePrinter::new()
                .precision(Some(3))
                .timestamp_text(time);
            String::from_str(alloc, text.as_str())
        }
        Err(_) => String::from_str(alloc, "-"),
    }
}

/// The time that a text is, in milliseconds since 1970-01-01 00:00 UTC: a date and a time of day with an offset, as
/// 2026-11-28T14:03:17.020Z (RFC 3339). `None` where it is none, or lies before 1970.
pub fn read_time(text: &str) -> Option<u64> {
    let time = parse_timestamp(text.as_bytes()).ok()?;
    u64::try_from(time.nanosecond / 1_000_000).ok()
}

/// What a notice says of a file, as text.
pub(crate) fn notice_text(alloc: Global, file: &str, notice: Notice) -> Result<String, AllocError> {
    match notice {
        Notice::Torn(size) => {
            format!(in alloc;
                "{file}: ends within a block, {size} bytes of it are there and left out"
            )
        }
        Notice::Changed(at) => {
            format!(in alloc;
                "{file}: the block at byte {at} was changed, its records are left out"
            )
        }
        Notice::Other(at) => {
            format!(in alloc;
                "{file}: no block begins at byte {at}, the rest of the file is left out"
            )
        }
    }
}

/// Where a recording begins, as text; `None` where it is the first one, and whole.
pub(crate) fn start_text(
    alloc: Global,
    start: Start,
    is_first: bool,
) -> Result<Option<String>, AllocError> {
    let time = time_text(alloc, start.at)?;
    let (time, place, lacking) = (time.as_str(), start.place, start.lacking);
    Ok(match (place, is_first, lacking) {
        (0, true, _) => None,
        (0, false, _) => Some(format!(in alloc; "{time}: the service started again")?),
        (_, _, 0) => Some(format!(in alloc;
            "{time}: begins at place {place}, as the service was set up then"
        )?),
        _ => Some(format!(in alloc;
            "{time}: begins at place {place}, as the service was set up then, but for {lacking} calls before that, which are not kept"
        )?),
    })
}

/// What is printed of a script so far.
#[derive(Clone, Copy)]
struct ScriptPrinter {
    alloc: Global,
    // The time that was printed last.
    shown: u64,
    // Whether nothing of the recording was there yet: a start behind it is another one of the service.
    is_first: bool,
    // The place at which the recording begins: records before it set up what was there then.
    first: u64,
    // Whether nothing is missing so far, and a line says each call.
    is_whole: bool,
}

/// Prints the script of a recording: a line for each record that is one, and comments with the place and the time of what follows, and with
/// what is missing. It returns whether the recording is whole: nothing is missing, and a line says each call.
///
/// # Errors
///
/// Those of the reader; the output can't be written.
pub fn print_script<W: Write>(
    alloc: Global,
    reader: &mut RecordReader<'_>,
    out: &mut W,
) -> Result<bool, Fault> {
    let mut printer = ScriptPrinter {
        alloc,
        shown: 0,
        is_first: true,
        first: 0,
        is_whole: true,
    };
    printer.print_all(reader, out)?;
    flush(out)?;
    Ok(printer.is_whole)
}

/// Writes what is buffered.
pub(crate) fn flush<W: Write>(out: &mut W) -> Result<(), Fault> {
    match out.flush() {
        Ok(()) => Ok(()),
        Err(_) => Err(Fault::NotWritten),
    }
}

impl ScriptPrinter {
    /// Prints all that there is.
    fn print_all<W: Write>(
        &mut self,
        reader: &mut RecordReader<'_>,
        out: &mut W,
    ) -> Result<(), Fault> {
        for _ in 0..u64::MAX {
            match reader.next()? {
                Step::Start(start) => self.print_start(start, out)?,
                Step::Record(timed) => self.print_record(&timed, out)?,
                Step::Gap(from, to) => self.print_gap(from, to, out)?,
                Step::Notice(file, notice) => {
                    if let Some(path) = reader.paths().get(file) {
                        self.print_notice(path.as_str(), notice, out)?;
                    }
                }
                Step::End => break,
            }
        }
        Ok(())
    }

    /// Prints where a recording begins.
    fn print_start<W: Write>(&mut self, start: Start, out: &mut W) -> Result<(), Fault> {
        let is_first = self.is_first;
        self.is_first = false;
        self.first = start.place;
        match start_text(self.alloc, start, is_first)? {
            Some(text) => print_comment(self.alloc, text.as_str(), out),
            None => Ok(()),
        }
    }

    /// Prints which places have no record.
    fn print_gap<W: Write>(&mut self, from: u64, to: u64, out: &mut W) -> Result<(), Fault> {
        self.is_first = false;
        self.is_whole = false;
        let last = to.saturating_sub(1);
        let text = format!(in self.alloc; "missing: places {from} to {last}")?;
        print_comment(self.alloc, text.as_str(), out)
    }

    /// Prints what is not as it was written in a file.
    fn print_notice<W: Write>(
        &mut self,
        path: &str,
        notice: Notice,
        out: &mut W,
    ) -> Result<(), Fault> {
        self.is_whole = false;
        let text = notice_text(self.alloc, path, notice)?;
        print_comment(self.alloc, text.as_str(), out)
    }

    /// Prints a record.
    fn print_record<W: Write>(&mut self, timed: &Timed, out: &mut W) -> Result<(), Fault> {
        self.is_first = false;
        let (place, kind) = (timed.record.place, timed.record.kind);
        if let Some(line) = line_of(self.alloc, &timed.record, &timed.body)? {
            self.print_time(timed.at, place, out)?;
            return print_line(line.as_str(), out);
        }
        if kind == RecordKind::Question {
            return Ok(());
        }
        if place >= self.first {
            self.is_whole = false;
        }
        let text = format!(in self.alloc; "no line says what was posted at place {place}")?;
        print_comment(self.alloc, text.as_str(), out)
    }

    /// Prints the time and the place of what follows, where that time was not printed last.
    fn print_time<W: Write>(&mut self, at: u64, place: u64, out: &mut W) -> Result<(), Fault> {
        if at == self.shown {
            return Ok(());
        }
        self.shown = at;
        let time = time_text(self.alloc, at)?;
        let text = format!(in self.alloc; "{}, place {place}", time.as_str())?;
        print_comment(self.alloc, text.as_str(), out)
    }
}

/// Prints a comment.
pub(crate) fn print_comment<W: Write>(alloc: Global, text: &str, out: &mut W) -> Result<(), Fault> {
    let line = format!(in alloc; "# {text}")?;
    print_line(line.as_str(), out)
}

/// Prints a line.
pub(crate) fn print_line<W: Write>(line: &str, out: &mut W) -> Result<(), Fault> {
    match out.write_all(line.as_bytes()) {
        Ok(()) => {}
        Err(_) => return Err(Fault::NotWritten),
    }
    match out.write_all(b"\n") {
        Ok(()) => Ok(()),
        Err(_) => Err(Fault::NotWritten),
    }
}
