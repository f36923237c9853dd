//! A client that sends lines, and how it was answered, over one connection.

use crate::lines::{END, LineKind, kind_of};
use std::alloc::Global;
use std::io;
use std::io::{BufRead, ErrorKind, Write};

/// What one more client is sent than may be connected: the refusal `Busy`, as a line.
pub const BUSY: &[u8] = b"refused 34 Busy\n";

/// How the answer to a refused line begins.
const REFUSED: &[u8] = b"refused ";

/// How a client's lines were answered.
#[derive(Clone, Copy, Debug, PartialEq, Eq)]
pub enum Answered {
    /// Each of them, and none was refused.
    All,
    /// Each of them, and one at least was refused.
    Refused,
    /// None: as many clients are connected as may be.
    Busy,
    /// Those before this one, counted from 0: then the connection ended.
    Ended(usize),
    /// Those before this one, counted from 0: nothing more came for 60 seconds.
    Silent(usize),
}

/// How one line was answered.
#[derive(Clone, Copy, PartialEq, Eq)]
enum Turn {
    Done,
    Refused,
    Busy,
    Ended,
    Silent,
}

/// Sends lines, each once the one before it was answered, writes their answers, and returns how they were answered. Behind each
/// goes the line `end`, whose answer says that the one before it was answered. `quit` is answered by the end of the connection.
///
/// # Errors
///
/// That of the connection, where it does not end but fails, or of the writer.
pub fn converse<B: BufRead, S: Write, W: Write>(
    alloc: Global,
    answers: &mut B,
    sender: &mut S,
    lines: &[&str],
    out: &mut W,
) -> io::Result<Answered> {
    let mut answered = Answered::All;
    for (place, line) in lines.iter().enumerate() {
        // A word with line ends is as many lines.
        for line in line.split('\n') {
            send(alloc, sender, line.as_bytes())?;
            let turn = hear(alloc, answers, out)?;
            out.flush()?;
            match turn {
                Turn::Done => {}
                Turn::Refused => answered = Answered::Refused,
                Turn::Busy => return Ok(Answered::Busy),
                Turn::Ended if kind_of(line.as_bytes()) == LineKind::Quit => {}
                Turn::Ended => return Ok(Answered::Ended(place)),
                Turn::Silent => return Ok(Answered::Silent(place)),
            }
        }
    }
    Ok(answered)
}

/// Sends a line, and the mark behind it where its answer does not show its end.
fn send<S: Write>(alloc: Global, sender: &mut S, line: &[u8]) -> io::Result<()> {
    let mut sent = Vec::from_slice(alloc, line)?;
    sent.push(b'\n')?;
    if kind_of(line) == LineKind::Other {
        sent.extend_from_slice(END)?;
        sent.push(b'\n')?;
    }
    match sender.write_all(&sent) {
        // A client that was hung up may still get the reason.
        Err(error) if !is_end(error.kind()) => Err(error),
        _ => Ok(()),
    }
}

/// Writes what is answered before the mark.
fn hear<B: BufRead, W: Write>(alloc: Global, answers: &mut B, out: &mut W) -> io::Result<Turn> {
    let mut line = Vec::new(alloc);
    let mut turn = Turn::Done;
    let mut is_busy = false;
    for _ in 0..u64::MAX {
        line.clear();
        match answers.read_until(b'\n', &mut line) {
            Ok(0) => break,
            Ok(_) => {}
            Err(error) if error.kind() == ErrorKind::WouldBlock => return Ok(Turn::Silent),
            Err(error) if is_end(error.kind()) => break,
            Err(error) => return Err(error),
        }
        if is_mark(&line) {
            return Ok(turn);
        }
        out.write_all(&line)?;
        if line.starts_with(REFUSED) {
            turn = Turn::Refused;
        }
        is_busy = line.as_slice() == BUSY;
    }
    Ok(if is_busy { Turn::Busy } else { Turn::Ended })
}

/// Whether it is the answer to the mark.
fn is_mark(line: &[u8]) -> bool {
    match line {
        [rest @ .., b'\n'] => rest == END,
        _ => false,
    }
}

/// Whether the other side has closed.
fn is_end(kind: ErrorKind) -> bool {
    kind == ErrorKind::ConnectionReset || kind == ErrorKind::BrokenPipe
}
