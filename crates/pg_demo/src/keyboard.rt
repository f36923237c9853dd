//! The lines that are typed while a demo is shown.

use mio::unix::SourceFd;
use mio::{Events, Interest, Poll, Token};
use pg_console::{Console, NoServiceCommands, answer_lines};
use pg_recorder::{Unrecorded, WorkerGate};
use pg_service::MeteredGate;
use pg_shared::Named;
use std::alloc::{AllocError, Global};
use std::io;
use std::io::{BufRead, StdinLock};
use std::net::Net;
use std::rt::Clock;
use std::sync::Wait;
use std::time::Duration;

/// Standard input.
const STANDARD_INPUT: i32 = 0;

/// The longest line, in bytes. What is longer is cut there.
const LONGEST: usize = 4_096;

/// Standard input, which is read without waiting, and the console that answers its lines. The line `q` ends all.
#[derive(Drop)]
pub struct Keyboard<'a, R: Wait + Clock + Input<Reader = StdinLock<'static>>, N: Named> {
    rt: &'a R,
    alloc: Global,
    poll: Poll,
    events: Events<Global>,
    gate: MeteredGate<WorkerGate<'a, R, N, Unrecorded>>,
    console: Console<'a, Vec<u8>>,
    line: Vec<u8>,
    is_open: bool,
    has_changed: bool,
    /// The last line and its answer.
    pub answer: String,
    /// How many lines were typed since this was set to 0.
    pub typed: usize,
}

impl<'a, R: Wait + Clock + Net + Input<Reader = StdinLock<'static>>, N: Named> Keyboard<'a, R, N> {
    /// Lines are posted at this gate, and answered by this console. Where standard input can't be waited for, as a file, none
    /// are read.
    pub fn new(
        rt: &'a R,
        alloc: Global,
        gate: WorkerGate<'a, R, N, Unrecorded>,
        console: Console<'a, Vec<u8>>,
    ) -> io::Result<Keyboard<'a, R, N>> {
        let events = Events::with_capacity(alloc, 1)?;
        let poll = Poll::new(rt)?;
        let is_open = can_wait(&poll);
        Ok(Keyboard {
            rt,
            alloc,
            poll,
            events,
            gate: MeteredGate::new(gate),
            console,
            line: Vec::new(alloc),
            is_open,
            has_changed: false,
            answer: String::new(alloc),
            typed: 0,
        })
    }

    /// Whether a line was read that may change what comes.
    pub fn has_changed(&self) -> bool {
        self.has_changed
    }

    /// Reads what was typed, and answers each whole line.
    ///
    /// # Errors
    ///
    /// That of the system, and `OutOfMemory`.
    pub fn listen(&mut self) -> io::Result<()> {
        if !self.is_open {
            return Ok(());
        }
        // Anew each time, since one event stands for all lines that wait.
        let mut input = SourceFd(&STANDARD_INPUT);
        self.poll
            .registry()
            .reregister(&mut input, Token(0), Interest::READABLE)?;
        self.poll.poll(&mut self.events, Some(Duration::ZERO))?;
        if self.events.is_empty() {
            return Ok(());
        }
        let mut reader = self.rt.reader();
        let piece = reader.fill_buf()?;
        let len = piece.len();
        for byte in piece {
            if *byte == b'\n' {
                let line = std::mem::replace(&mut self.line, Vec::new(self.alloc));
                self.answer_line(line)?;
            } else if self.line.len() < LONGEST {
                self.line.push(*byte)?;
            }
        }
        reader.consume(len);
        if len == 0 {
            self.is_open = false;
        }
        Ok(())
    }

    /// Answers a line.
    fn answer_line(&mut self, typed: Vec<u8>) -> Result<(), AllocError> {
        self.typed = self.typed.saturating_add(1);
        let line = match typed.as_slice().trim_ascii() {
            b"q" => b"quit".as_slice(),
            line => line,
        };
        if !is_question(line) {
            self.has_changed = true;
        }
        let mut reader = line;
        answer_lines(
            self.rt,
            &mut self.console,
            &mut self.gate,
            &mut reader,
            &mut NoServiceCommands,
        );
        self.answer.clear();
        for byte in line {
            self.answer.push(shown(*byte))?;
        }
        self.answer.push_str(": ")?;
        let out = self.console.out_mut();
        for byte in out.iter() {
            self.answer.push(shown(*byte))?;
        }
        out.clear();
        Ok(())
    }
}

/// Whether standard input can be waited for.
fn can_wait(poll: &Poll) -> bool {
    let mut input = SourceFd(&STANDARD_INPUT);
    poll.registry()
        .register(&mut input, Token(0), Interest::READABLE)
        .is_ok()
}

/// Whether a line changes nothing.
fn is_question(line: &[u8]) -> bool {
    line.is_empty()
        || line == b"status".as_slice()
        || line.starts_with(b"stats")
        || line.starts_with(b"pmustats")
        || line.starts_with(b"audit")
}

/// A byte as it is shown: what is no printable ASCII as a space.
fn shown(byte: u8) -> char {
    match byte {
        b' '..=b'~' => char::from(byte),
        _ => ' ',
    }
}
