//! The subscribers: each watches its stream, and compares what comes with what was sent.

use crate::fault::Fault;
use crate::keyboard::Keyboard;
use crate::setup::FIRST_STREAM;
use crate::state::DemoState;
use pg_data::DataFrame;
use pg_shared::{Named, Work};
use pg_tools::{DemoVerdict, Observer, Stamp, Style, Target, WatchOptions, Watcher, watch_with};
use pg_wire::PmuId;
use std::alloc::{AllocError, Global};
use std::io::StdinLock;
use std::net::{Net, SocketAddr};
use std::rt::Clock;
use std::sync::Wait;
use std::sync::atomic::Ordering;
use std::thread;
use std::time::Duration;

/// How long a subscriber waits, in milliseconds, before it looks again whether it may connect.
const PAUSE: u64 = 5;

/// A worker that is a subscriber: it connects once both sources are called, and observes its stream.
#[derive(Drop)]
pub struct TestSubscriber<'a, R: Wait + Clock + Input<Reader = StdinLock<'static>>, N: Named> {
    rt: &'a R,
    alloc: Global,
    state: &'a DemoState<'a>,
    address: SocketAddr,
    stream: PmuId,
    is_first: bool,
    style: Style,
    intro: String,
    is_intro_printed: bool,
    notes: String,
    keyboard: Option<Keyboard<'a, R, N>>,
}

impl<
    'a,
    R: Wait + Clock + Net + Print + Input<Reader = StdinLock<'static>>,
    N: Named,
> TestSubscriber<'a, R, N> {
    /// A subscriber of this stream at this address; `intro` stands below the screen, or before the lines.
    pub fn new(
        rt: &'a R,
        alloc: Global,
        state: &'a DemoState<'a>,
        address: SocketAddr,
        stream: PmuId,
        style: Style,
        intro: String,
        keyboard: Option<Keyboard<'a, R, N>>,
    ) -> TestSubscriber<'a, R, N> {
        TestSubscriber {
            rt,
            alloc,
            state,
            address,
            stream,
            is_first: stream.get() == FIRST_STREAM,
            style,
            intro,
            is_intro_printed: false,
            notes: String::new(alloc),
            keyboard,
        }
    }

    /// Reads the lines that were typed, and writes the notes anew.
    fn read_lines(&mut self) -> Result<(), Fault> {
        if let Some(keyboard) = &mut self.keyboard {
            keyboard.listen()?;
            if keyboard.has_changed() {
                self.state.is_changed.store(true, Ordering::SeqCst);
            }
        }
        if self.style == Style::Plain {
            self.print_notes()
        } else {
            self.write_notes()?;
            Ok(())
        }
    }

    /// Prints the addresses once, and each answer, where there is no screen to stand below.
    fn print_notes(&mut self) -> Result<(), Fault> {
        let mut printed = Ok(());
        if !self.is_intro_printed {
            self.is_intro_printed = true;
            let intro = self.intro.as_str();
            printed = print!(self.rt; "{intro}");
        }
        if let Some(keyboard) = &mut self.keyboard {
            if keyboard.typed > 0 {
                keyboard.typed = 0;
                let answer = keyboard.answer.as_str();
                printed = println!(self.rt; "{answer}");
            }
        }
        match printed {
            Ok(()) => Ok(()),
            Err(_) => Err(Fault::Tool(pg_tools::Fault::Output)),
        }
    }

    /// The lines below the screen.
    fn write_notes(&mut self) -> Result<(), AllocError> {
        let mut notes = String::new(self.alloc);
        notes.push_str(self.intro.as_str())?;
        if self.state.is_changed.load(Ordering::SeqCst) {
            notes.push_str(
                "frames are not compared any more, since a line has changed what comes\n",
            )?;
        } else {
            let expected = self.state.expected.lock(self.rt);
            let right = expected.first.right.saturating_add(expected.second.right);
            match expected.first.wrong.or(expected.second.wrong) {
                Some(wrong) => write!(notes, "WRONG: {wrong}\n")?,
                None => write!(
                    notes,
                    "{right} frames of both streams compared with what the sources sent: all equal\n"
                )?,
            }
        }
        if let Some(keyboard) = &self.keyboard {
            let answer = keyboard.answer.as_str();
            write!(notes, "{answer}\n")?;
        }
        self.notes = notes;
        Ok(())
    }
}

impl<R: Wait + Clock + Net + Print + Input<Reader = StdinLock<'static>>, N: Named> Observer
    for TestSubscriber<'_, R, N> {
    fn frame(&mut self, frame: &DataFrame) {
        if self.state.is_changed.load(Ordering::SeqCst) {
            return;
        }
        let stamp = Stamp {
            soc: frame.soc,
            frac: frame.frac,
        };
        let mut expected = self.state.expected.lock(self.rt);
        // What is wrong first is kept.
        if self.is_first {
            let _ = expected.first.receive(stamp, &frame.body);
        } else {
            let _ = expected.second.receive(stamp, &frame.body);
        }
    }

    fn turn(&mut self, watcher: &Watcher) -> bool {
        if watcher.is_on() {
            let [first, second] = &self.state.are_on;
            let mine = if self.is_first { first } else { second };
            mine.store(true, Ordering::SeqCst);
        }
        if let Err(fault) = self.read_lines() {
            self.state.end(self.rt, Err(fault));
        }
        !self.state.is_over()
    }

    fn notes(&self) -> &str {
        self.notes.as_str()
    }

    fn take_typed(&mut self) -> Option<usize> {
        let keyboard = self.keyboard.as_mut()?;
        let typed = keyboard.typed;
        keyboard.typed = 0;
        Some(typed)
    }
}

impl<R, N: Named> Work for TestSubscriber<'_, R, N>
where
    R: Wait + Net + Clock + Input<Reader = StdinLock<'static>> + Print + Eprint,
{
    fn turn(&mut self) -> bool {
        let (rt, state) = (self.rt, self.state);
        if !state.is_open.load(Ordering::SeqCst) {
            thread::sleep(rt, Duration::from_millis(PAUSE));
            return true;
        }
        let options = WatchOptions {
            address: Target::Address(self.address),
            stream: self.stream,
            style: self.style,
            raw: None,
            frames: None,
            seconds: None,
        };
        let mut raw: Option<Vec<u8>> = None;
        match watch_with(rt, self.alloc, &options, &mut raw, self) {
            Ok(is_good) => {
                // A line that changes what comes lets frames come that do not fit, until the next configuration has come.
                if !is_good && !state.is_changed.load(Ordering::SeqCst) {
                    state.end(rt, Ok(DemoVerdict::Troubled(self.stream.get())));
                }
            }
            Err(fault) => state.end(rt, Err(Fault::Tool(fault))),
        }
        // It was ended, or by itself: then all end.
        state.end(rt, Ok(DemoVerdict::Ended));
        false
    }
}
