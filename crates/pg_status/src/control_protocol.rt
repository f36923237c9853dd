//! A client that sends lines and is answered, over one connection.

use crate::lines::{END, LineKind, Lines, kind_of};
use crate::write_buffer::{Sending, WriteBuffer};
use pg_wire::Refusal;
use std::alloc::Global;
use std::io;
use std::io::{ErrorKind, Read, Write};
use std::time::{Duration, Instant};

/// The bytes of answers that may wait for a client.
pub const OWED_BYTES: usize = 1_048_576;

/// The reads, and the writes, of one call.
const TURNS: u32 = 16;

/// The lines that are answered in one call.
const LINES: u32 = 16;

/// The bytes of one read.
const PIECE: usize = 1024;

/// When a line is answered.
#[derive(Clone, Copy, PartialEq, Eq)]
pub enum LineAnswer {
    /// Now: its answer stands behind what is owed.
    Done,
    /// Later: its answer is asked for by this number.
    Later(u64),
}

/// What answers lines.
pub trait Answer {
    /// Writes the answer to a line, which stands there without its end, behind what is owed already; or puts it off.
    ///
    /// # Errors
    ///
    /// There is no memory: the client is closed.
    fn answer(&mut self, line: &[u8], owed: &mut Vec<u8>) -> io::Result<LineAnswer>;

    /// Writes the answer to the line that was put off by this number behind what is owed, if it is there, and reports whether it was. It is there
    /// once.
    ///
    /// # Errors
    ///
    /// There is no memory: the client is closed.
    fn take_answer(&mut self, number: u64, owed: &mut Vec<u8>) -> io::Result<bool>;

    /// The answer to the line that was put off by this number is not asked for any more. What the line asks for is done all the same.
    fn drop_answer(&mut self, number: u64);
}

/// What is to be done with a client that was served.
#[derive(Clone, Copy, Debug, PartialEq, Eq)]
pub enum Turned {
    /// Nothing, until its socket is ready.
    Waits,
    /// It is to be served once more at once: its reads or writes were used up.
    More,
    /// It ended, failed, or did not read its answers, and is to be closed.
    Gone,
}

/// How the reads of a call ended.
#[derive(Clone, Copy, PartialEq, Eq)]
enum Flow {
    Blocked,
    UsedUp,
    /// The line `quit` has come, and waits until all answers before it are sent.
    Held,
    /// A line was put off, and its answer is not there yet.
    Awaits,
    Ended,
    Failed,
}

/// A client that sends lines and is answered in their order. A line of more than 4,096 bytes is answered as `BadLine`
/// where it ends. A last line without an end is answered too. The line `end` is answered `end`. The line `quit` is answered once all
/// answers before it are sent, and is the last: what comes behind it is passed over, and the client is closed. At most 16 lines are
/// answered in one call. Where more than 1,048,576 bytes of answers wait, the client is closed. While the answer to a line that was put off is
/// not there, nothing more is read and no line behind it is answered. It knows neither sockets nor clocks.
#[derive(Drop)]
pub struct ControlProtocol {
    line: Lines,
    // What was read, of which so many bytes were taken.
    heard: Vec<u8>,
    taken: usize,
    owed: WriteBuffer,
    // The number of the line that was put off, while its answer is awaited.
    awaited: Option<u64>,
    is_ended: bool,
    // When bytes or the answer to a line that was put off came last, or the client connected.
    last: Instant,
}

impl ControlProtocol {
    /// A client that connects now.
    pub fn new(alloc: Global, now: Instant) -> ControlProtocol {
        ControlProtocol {
            line: Lines::new(alloc),
            heard: Vec::new(alloc),
            taken: 0,
            owed: WriteBuffer {
                bytes: Vec::new(alloc),
                sent: 0,
            },
            awaited: None,
            is_ended: false,
            last: now,
        }
    }

    /// For how long it has sent nothing: since its last bytes were read, the answer to its last line that was put off came, or it connected. For
    /// no time while it awaits such an answer.
    pub fn silent(&self, now: Instant) -> Duration {
        if self.is_awaiting() {
            Duration::ZERO
        } else {
            now.saturating_duration_since(self.last)
        }
    }

    /// Whether it awaits the answer to a line that was put off.
    pub fn is_awaiting(&self) -> bool {
        self.awaited.is_some()
    }

    /// Reads what has come, has its lines answered, and sends what goes. Where it awaits the answer to a line that was put off, it asks for that
    /// first. Once it is gone, that answer is not asked for any more.
    pub fn serve<R: Read, W: Write, A: Answer>(
        &mut self,
        reader: &mut R,
        writer: &mut W,
        answers: &mut A,
        now: Instant,
    ) -> Turned {
        let turned = self.turn(reader, writer, answers, now);
        if turned == Turned::Gone {
            if let Some(number) = self.awaited.take() {
                answers.drop_answer(number);
            }
        }
        turned
    }

    /// The same, without the end.
    fn turn<R: Read, W: Write, A: Answer>(
        &mut self,
        reader: &mut R,
        writer: &mut W,
        answers: &mut A,
        now: Instant,
    ) -> Turned {
        let flow = self.hear(reader, answers, now);
        if flow == Flow::Failed {
            return Turned::Gone;
        }
        let sending = self.owed.send(writer, TURNS);
        self.owed.compact();
        match sending {
            Sending::Done => match flow {
                Flow::Blocked | Flow::Awaits => Turned::Waits,
                Flow::UsedUp | Flow::Held => Turned::More,
                Flow::Ended | Flow::Failed => Turned::Gone,
            },
            Sending::Blocked if flow != Flow::UsedUp => Turned::Waits,
            Sending::Blocked | Sending::UsedUp => Turned::More,
            Sending::Failed => Turned::Gone,
        }
    }

    /// Reads and answers, so many times and lines at most.
    fn hear<R: Read, A: Answer>(&mut self, reader: &mut R, answers: &mut A, now: Instant) -> Flow {
        if self.await_answer(answers, now).is_err() {
            return Flow::Failed;
        }
        let mut lines = 0u32;
        for _ in 0..TURNS {
            if let Some(flow) = self.take(answers, &mut lines) {
                return flow;
            }
            if self.is_awaiting() {
                return Flow::Awaits;
            }
            if self.is_ended {
                return self.finish(answers);
            }
            if let Some(flow) = self.read(reader, now) {
                return flow;
            }
        }
        Flow::UsedUp
    }

    /// Asks for the answer to the line that was put off, if one was.
    fn await_answer<A: Answer>(&mut self, answers: &mut A, now: Instant) -> io::Result<()> {
        let Some(number) = self.awaited else {
            return Ok(());
        };
        if answers.take_answer(number, &mut self.owed.bytes)? {
            self.awaited = None;
            self.last = now;
        }
        self.check_owed()
    }

    /// Reads once, where all was taken that was read before. None where there is more to do.
    fn read<R: Read>(&mut self, reader: &mut R, now: Instant) -> Option<Flow> {
        let mut piece = [0u8; PIECE];
        match reader.read(&mut piece) {
            Ok(0) => self.is_ended = true,
            Ok(size) => {
                self.last = now;
                self.heard.clear();
                self.taken = 0;
                if self.heard.extend_from_slice(&piece[..size]).is_err() {
                    return Some(Flow::Failed);
                }
            }
            Err(error) => match error.kind() {
                ErrorKind::WouldBlock => return Some(Flow::Blocked),
                ErrorKind::Interrupted => {}
                _ => return Some(Flow::Failed),
            },
        }
        None
    }

    /// Takes what was read, and has each line answered that ends in it, up to one that is put off. None where all was taken.
    fn take<A: Answer>(&mut self, answers: &mut A, lines: &mut u32) -> Option<Flow> {
        for _ in 0..PIECE {
            if self.is_awaiting() {
                return Some(Flow::Awaits);
            }
            let Some(byte) = self.heard.as_slice().get(self.taken).copied() else {
                return None;
            };
            if byte != b'\n' {
                if self.line.push(byte).is_err() {
                    return Some(Flow::Failed);
                }
            } else {
                if *lines >= LINES {
                    return Some(Flow::UsedUp);
                }
                if self.is_held() {
                    return Some(Flow::Held);
                }
                *lines = (*lines).saturating_add(1);
                if self.end_line(answers).is_err() {
                    return Some(Flow::Failed);
                }
            }
            self.taken = self.taken.saturating_add(1);
        }
        None
    }

    /// Whether the line is `quit`, and has to wait until all answers before it are sent.
    fn is_held(&self) -> bool {
        self.owed.left() > 0 && kind_of(without_return(self.line.bytes())) == LineKind::Quit
    }

    /// The client sends no more: has a last line answered that has no end.
    fn finish<A: Answer>(&mut self, answers: &mut A) -> Flow {
        if self.line.bytes().is_empty() {
            return Flow::Ended;
        }
        if self.is_held() {
            return Flow::Held;
        }
        match self.end_line(answers) {
            Ok(()) if self.is_awaiting() => Flow::Awaits,
            Ok(()) => Flow::Ended,
            Err(_) => Flow::Failed,
        }
    }

    /// Has the line answered or put off, and begins the next one.
    fn end_line<A: Answer>(&mut self, answers: &mut A) -> io::Result<()> {
        let line = without_return(self.line.bytes());
        if self.line.is_long() {
            let refusal = Refusal::BadLine;
            let (number, name) = (refusal.number(), refusal.name());
            writeln!(self.owed.bytes, "refused {number} {name}")?;
        } else {
            match kind_of(line) {
                LineKind::Other => {
                    self.awaited = awaited_by(answers.answer(line, &mut self.owed.bytes)?);
                }
                LineKind::End => {
                    self.owed.bytes.extend_from_slice(END)?;
                    self.owed.bytes.push(b'\n')?;
                }
                LineKind::Quit => {
                    self.awaited = awaited_by(answers.answer(line, &mut self.owed.bytes)?);
                    self.is_ended = true;
                    self.heard.clear();
                }
            }
        }
        self.line.clear();
        self.check_owed()
    }

    /// An error where more bytes of answers wait than may.
    fn check_owed(&self) -> io::Result<()> {
        if self.owed.left() > OWED_BYTES {
            return Err(io::Error::from(ErrorKind::BrokenPipe));
        }
        Ok(())
    }
}

/// The number by which the answer to a line is asked for, if it was put off.
fn awaited_by(answer: LineAnswer) -> Option<u64> {
    match answer {
        LineAnswer::Done => None,
        LineAnswer::Later(number) => Some(number),
    }
}

/// A line without one CR at its end.
fn without_return(line: &[u8]) -> &[u8] {
    match line {
        [rest @ .., b'\r'] => rest,
        _ => line,
    }
}
