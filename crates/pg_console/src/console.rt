//! The console, where an operator's lines are answered.

use crate::advise::print_advice;
use crate::service_handle::ServiceHandle;
use crate::snapshot::seen_by;
use pg_gateway::{Edit, Gate, Reply};
use pg_lines::{
    NotPrinted, Question, Steer, parse_question, parse_steer, print_refusal, print_reply,
    read_edit, without_end,
};
use pg_log::{Asked, Detail, Entry, LogEvent, Subject};
use pg_service::{Change, Directory, FollowUp, MeteredGate};
use pg_shared::event_of;
use pg_status::print_status;
use pg_wire::{PmuId, Refusal, SubId};
use std::alloc::Global;
use std::io::{BufRead, ErrorKind, Write};
use std::rt::Clock;
use std::sync::Wait;

/// What is done about lines that ask for more than an edit.
pub trait ServiceCommands {
    /// Reads the setup again and does what changed, and answers it.
    ///
    /// # Errors
    ///
    /// Those of `print_refusal` where an answer can't be printed.
    fn reload<W: Write, R: Wait + Clock, G: Gate>(
        &mut self,
        rt: &R,
        console: &mut Console<'_, W>,
        gate: &mut MeteredGate<G>,
    ) -> Result<(), NotPrinted>;

    /// Has workers do what is asked about a source or a port, and answers it.
    ///
    /// # Errors
    ///
    /// Those of `print_refusal` where an answer can't be printed.
    fn steer<W: Write, R: Wait + Clock, G: Gate>(
        &mut self,
        rt: &R,
        console: &mut Console<'_, W>,
        gate: &mut MeteredGate<G>,
        steer: Steer,
    ) -> Result<(), NotPrinted>;

    /// Answers what a subscriber has, as a setup file says it.
    ///
    /// # Errors
    ///
    /// Those of `print_refusal` where an answer can't be printed.
    fn show<W: Write, R: Wait + Clock, G: Gate>(
        &mut self,
        rt: &R,
        console: &mut Console<'_, W>,
        gate: &mut MeteredGate<G>,
        sub: SubId,
    ) -> Result<(), NotPrinted>;

    /// Answers which version of the program runs.
    ///
    /// # Errors
    ///
    /// Those of `print_refusal` where an answer can't be printed.
    fn version<W: Write>(&mut self, console: &mut Console<'_, W>) -> Result<(), NotPrinted>;
}

/// Nothing but edits can be asked for: other lines are `BadLine`.
#[derive(Drop)]
pub struct NoServiceCommands;

impl ServiceCommands for NoServiceCommands {
    fn reload<W: Write, R: Wait + Clock, G: Gate>(
        &mut self,
        _rt: &R,
        console: &mut Console<'_, W>,
        _gate: &mut MeteredGate<G>,
    ) -> Result<(), NotPrinted> {
        print_refusal(console.out_mut(), "refused", Refusal::BadLine)?;
        Ok(())
    }

    fn steer<W: Write, R: Wait + Clock, G: Gate>(
        &mut self,
        _rt: &R,
        console: &mut Console<'_, W>,
        _gate: &mut MeteredGate<G>,
        _steer: Steer,
    ) -> Result<(), NotPrinted> {
        print_refusal(console.out_mut(), "refused", Refusal::BadLine)?;
        Ok(())
    }

    fn show<W: Write, R: Wait + Clock, G: Gate>(
        &mut self,
        _rt: &R,
        console: &mut Console<'_, W>,
        _gate: &mut MeteredGate<G>,
        _sub: SubId,
    ) -> Result<(), NotPrinted> {
        print_refusal(console.out_mut(), "refused", Refusal::BadLine)?;
        Ok(())
    }

    fn version<W: Write>(&mut self, console: &mut Console<'_, W>) -> Result<(), NotPrinted> {
        print_refusal(console.out_mut(), "refused", Refusal::BadLine)?;
        Ok(())
    }
}

/// What a line asks for.
#[derive(Clone, Copy)]
enum Request {
    /// An edit, or nothing.
    Edit,
    /// Something about a source or a port.
    Steer(Steer),
    /// How the service stands.
    Status,
    /// What it has.
    Ask(Question),
    /// The setup file is to be read again.
    Reload,
    /// All workers are to end.
    Quit,
}

/// What came of reading a line.
#[derive(Clone, Copy)]
enum LineOutcome {
    /// It was answered.
    Answered,
    /// There are no more: it was `quit`, or the lines ended.
    Last,
    /// No line could be read.
    NotRead,
}

/// Where an operator's lines are answered.
#[derive(Drop)]
pub struct Console<'a, W: Write> {
    alloc: Global,
    out: W,
    service: ServiceHandle<'a>,
}

impl<'a, W: Write> Console<'a, W> {
    /// Lines are answered by this writer.
    pub fn new(alloc: Global, out: W, service: ServiceHandle<'a>) -> Console<'a, W> {
        Console {
            alloc,
            out,
            service,
        }
    }

    /// Where memory for its answers is taken.
    pub fn alloc(&self) -> Global {
        self.alloc
    }

    /// Where its answers are written.
    pub fn out_mut(&mut self) -> &mut W {
        &mut self.out
    }

    /// The workers that its lines concern.
    pub fn service(&self) -> ServiceHandle<'a> {
        self.service
    }

    /// Answers a line, and returns whether it is `quit`.
    fn answer<R: Wait + Clock, G: Gate, S: ServiceCommands>(
        &mut self,
        rt: &R,
        gate: &mut MeteredGate<G>,
        line: &[u8],
        steering: &mut S,
    ) -> Result<bool, NotPrinted> {
        match asked_by(self.alloc, line) {
            Ok(Request::Edit) => self.edit(rt, gate, line)?,
            Ok(Request::Steer(steer)) => steering.steer(rt, self, gate, steer)?,
            Ok(Request::Status) => self.status(rt, gate)?,
            Ok(Request::Ask(question)) => self.ask(rt, gate, question, steering)?,
            Ok(Request::Reload) => steering.reload(rt, self, gate)?,
            Ok(Request::Quit) => return Ok(true),
            Err(refusal) => print_refusal(&mut self.out, "refused", refusal)?,
        }
        Ok(false)
    }

    /// Answers a line that asks for an edit or for nothing.
    fn edit<R: Wait + Clock, G: Gate>(
        &mut self,
        rt: &R,
        gate: &mut MeteredGate<G>,
        line: &[u8],
    ) -> Result<(), NotPrinted> {
        match read_edit(self.alloc, line) {
            Ok(Some(edit)) => {
                let reply = self.post_edit(rt, gate, edit);
                print_reply(self.alloc, &mut self.out, &reply)?;
            }
            Ok(None) => {}
            Err(refusal) => print_refusal(&mut self.out, "refused", refusal)?,
        }
        Ok(())
    }

    /// Answers how the service stands: a line for each source, subscriber and stream.
    fn status<R: Wait + Clock, G: Gate>(
        &mut self,
        rt: &R,
        gate: &mut MeteredGate<G>,
    ) -> Result<(), NotPrinted> {
        match seen_by(rt, self.alloc, &self.service, gate) {
            Ok((snapshot, _)) => print_status(&mut self.out, &snapshot)?,
            Err(_) => print_refusal(&mut self.out, "refused", Refusal::NoMemory)?,
        }
        Ok(())
    }

    /// Answers what the service has.
    fn ask<R: Wait + Clock, G: Gate, S: ServiceCommands>(
        &mut self,
        rt: &R,
        gate: &mut MeteredGate<G>,
        question: Question,
        steering: &mut S,
    ) -> Result<(), NotPrinted> {
        match question {
            Question::Version => steering.version(self),
            Question::Show(sub) => steering.show(rt, self, gate, sub),
            Question::Advise => print_advice(&mut self.out, rt, self.alloc, &self.service),
        }
    }

    /// Whether a PMU of this source is registered.
    pub fn has_source<R: Wait>(&self, rt: &R, source: PmuId) -> bool {
        let directory = self.service.directory.lock(rt);
        directory.has(source)
    }

    /// Posts an edit, gives workers what it asks of them, and leaves what came of it for the log.
    pub fn post_edit<R: Wait + Clock, G: Gate>(
        &mut self,
        rt: &R,
        gate: &mut MeteredGate<G>,
        edit: Edit,
    ) -> Reply {
        let asked = Asked::of(&edit);
        let reply = match edit.try_clone(self.alloc) {
            Ok(copy) => self.post_and_note(rt, gate, edit, copy),
            Err(_) => Reply::Refused(Refusal::NoMemory),
        };
        self.log_edit(rt, asked, &reply);
        reply
    }

    /// Posts an edit, of which `copy` is kept where it is done. The directory is held meanwhile, so that edits are kept in the order in which the
    /// gateway does them.
    fn post_and_note<R: Wait, G: Gate>(
        &mut self,
        rt: &R,
        gate: &mut MeteredGate<G>,
        edit: Edit,
        copy: Edit,
    ) -> Reply {
        let change = Change::of(&edit);
        let matters = change.is_of_ring();
        let service = self.service;
        let mut directory = service.directory.lock(rt);
        if directory.in_force.reserve().is_err() {
            return Reply::Refused(Refusal::NoMemory);
        }
        // It is counted before it is posted, so that no worker that hands out frames by it is unaware of it; and behind that, so that a worker
        // that asked about streams meanwhile asks again.
        let changes = service.handles.collector.layout_changes();
        changes.begin();
        let reply = gate.post(event_of(edit));
        changes.end();
        let noted = note(&mut directory, change, copy, &reply);
        drop(directory);
        self.follow(rt, gate, matters, noted);
        reply
    }

    /// Leaves for the log what came of an edit that asks for this, if it asks for something.
    fn log_edit<R: Wait + Clock>(&self, rt: &R, asked: Option<(Subject, Asked)>, reply: &Reply) {
        if let Some((subject, asked)) = asked {
            let entry = entry_of(subject, asked, refusal_in(reply));
            self.service.handles.journal.log(rt, entry);
        }
    }

    /// Gives workers what an edit that was noted so asks of them, and wakes those that have frames to hand out by it.
    /// `matters` says whether it concerns rings or streams.
    fn follow<R: Wait, G: Gate>(
        &mut self,
        rt: &R,
        gate: &mut MeteredGate<G>,
        matters: bool,
        noted: Result<FollowUp, Refusal>,
    ) {
        match noted {
            Ok(after) => self.service.tell(rt, after),
            Err(_) => self.service.note(LogEvent::MailFault),
        }
        if matters {
            self.service.tell_room(rt);
        }
        if gate.take_stats().made > 0 {
            self.service.handles.wake_ports();
        }
    }

    /// Passes over the rest of a line that finds no memory.
    fn pass_over<B: BufRead>(&mut self, reader: &mut B) -> Result<LineOutcome, NotPrinted> {
        if reader.skip_until(b'\n').is_err() {
            return Ok(LineOutcome::NotRead);
        }
        print_refusal(&mut self.out, "refused", Refusal::NoMemory)?;
        self.out.flush()?;
        Ok(LineOutcome::Answered)
    }

    /// Reads a line and answers it.
    fn take_line<B: BufRead, R: Wait + Clock, G: Gate, S: ServiceCommands>(
        &mut self,
        rt: &R,
        gate: &mut MeteredGate<G>,
        reader: &mut B,
        line: &mut Vec<u8>,
        steering: &mut S,
    ) -> Result<LineOutcome, NotPrinted> {
        line.clear();
        match reader.read_until(b'\n', line) {
            Ok(0) => return Ok(LineOutcome::Last),
            Ok(_) => {}
            Err(e) if e.kind() == ErrorKind::OutOfMemory => return self.pass_over(reader),
            Err(_) => return Ok(LineOutcome::NotRead),
        }
        if self.answer(rt, gate, without_end(line.as_slice()), steering)? {
            self.service.end(rt);
            return Ok(LineOutcome::Last);
        }
        self.out.flush()?;
        Ok(LineOutcome::Answered)
    }
}

/// Keeps an edit that was answered so where it was done, and returns what workers have to do.
fn note(
    directory: &mut Directory,
    change: Change,
    edit: Edit,
    reply: &Reply,
) -> Result<FollowUp, Refusal> {
    if let Reply::Done { .. } = reply {
        directory.in_force.note(edit)?;
    }
    directory.note(change, reply)
}

/// Why an edit was refused that was answered so, if it was.
fn refusal_in(reply: &Reply) -> Option<Refusal> {
    match reply {
        Reply::Refused(refusal) => Some(*refusal),
        _ => None,
    }
}

/// What the log says of an edit that asks for this, and was refused for that or done.
fn entry_of(subject: Subject, asked: Asked, refusal: Option<Refusal>) -> Entry {
    match refusal {
        Some(refusal) => Entry::new(LogEvent::NotDone, subject, Detail::Edit(asked, refusal)),
        None => Entry::new(LogEvent::Edited, subject, Detail::Done(asked)),
    }
}

/// Answers an operator's lines until `quit` comes, which ends all workers, or they end, which ends nothing. Each
/// edit is posted and its reply printed; lines that ask for more are left to others; a line that asks for nothing of these is
/// `BadLine`. Where no answer can be written any more it goes on without; where lines can't be read it ends. Both are noted.
pub fn answer_lines<B: BufRead, W: Write, R: Wait + Clock, G: Gate, S: ServiceCommands>(
    rt: &R,
    console: &mut Console<'_, W>,
    gate: &mut MeteredGate<G>,
    reader: &mut B,
    steering: &mut S,
) {
    let mut line = Vec::new(console.alloc);
    for _ in 0..u64::MAX {
        match console.take_line(rt, gate, reader, &mut line, steering) {
            Ok(LineOutcome::Answered) => {}
            Ok(LineOutcome::Last) => return,
            Ok(LineOutcome::NotRead) => {
                console.service.note(LogEvent::ConsoleFault);
                return;
            }
            Err(_) => console.service.note(LogEvent::ConsoleFault),
        }
    }
}

/// Whether a line is `reload`.
pub(crate) fn is_reload(alloc: Global, line: &[u8]) -> bool {
    matches!(asked_by(alloc, line), Ok(Request::Reload))
}

/// What a line asks for.
///
/// # Errors
///
/// `NoMemory`.
fn asked_by(alloc: Global, line: &[u8]) -> Result<Request, Refusal> {
    let Ok(text) = str::from_utf8(line) else {
        return Ok(Request::Edit);
    };
    match text.trim_matches(' ') {
        "quit" => return Ok(Request::Quit),
        "status" => return Ok(Request::Status),
        "reload" => return Ok(Request::Reload),
        _ => {}
    }
    if let Some(steer) = parse_steer(alloc, text)? {
        return Ok(Request::Steer(steer));
    }
    match parse_question(alloc, text)? {
        Some(question) => Ok(Request::Ask(question)),
        None => Ok(Request::Edit),
    }
}
