//! `pdcgw replay`: a script is read, and the answer to each of its lines is printed.

ghost use Rattle.std.specs.Prelude.{◌≡◌, Some, OnOk};
ghost use Rattle.std.specs.Io.KnownBytes.{Appends, Keeps};
ghost use Rattle.pg_serve.specs.Inputs.{input_value};
ghost use Rattle.pg_serve.specs.Shown.{queue_shown, link_counted};
ghost use Rattle.pg_replay.specs.Faults.{told_as, fault_of};
ghost use Rattle.pg_replay.specs.Lines.{asked, hands};
ghost use Rattle.pg_replay.specs.Replaying.{Prints, queue_text, link_text};
ghost use Rattle.pg_replay.specs.Answering.{AnswersAll, AnswersLine, PrintsSession, DoesAsked};

use crate::answers::{print_output, print_queue};
use crate::lines::{Line, read_line};
use crate::reading::read_line_bytes;
use pg_lines::{NotPrinted, print_counters, print_refusal, without_end};
use pg_serve::{Input, Output, World};
use pg_wire::{PmuId, Refusal, SubId};
use std::alloc::Global;
use std::io;
use std::io::{BufRead, BufReader, Read, Write};
use thiserror::Error;

/// What ends the program.
#[derive(Clone, Copy, Debug, PartialEq, Eq, Error)]
pub enum Fault {
    /// There was no memory.
    #[error("there is no memory")]
    NoMemory,
    /// The input can't be read.
    #[error("the input can't be read")]
    Read,
    /// The output can't be written.
    #[error("the output can't be written")]
    Write,
}

impl Fault {
    /// The refusal by whose number and name it is printed.
    pub fn refusal(self) -> Refusal
        ensures value { result ≡ told_as self }
    {
        match self {
            Fault::NoMemory => Refusal::NoMemory,
            Fault::Read => Refusal::ReadFault,
            Fault::Write => Refusal::WriteFault,
        }
    }
}

impl From<NotPrinted> for Fault {
    fn from(e: NotPrinted) -> Fault
        ensures value { result ≡ fault_of e }
    {
        match e {
            NotPrinted::NoMemory => Fault::NoMemory,
            NotPrinted::Write => Fault::Write,
        }
    }
}

/// The world that a script speaks to, with its allocator, and memory that is kept from line to line.
#[derive(Drop)]
struct Script {
    alloc: Global,
    world: World,
    output: Output,
}

/// The work of `pdcgw replay`: reads a script, and prints the answer to each of its lines.
///
/// # Errors
///
/// `NoMemory`; `Read` and `Write`, where the script can't be read or an answer can't be written.
pub fn replay<R: Read + Drop, W: Write>(alloc: Global, reader: R, out: &mut W) -> Result<(), Fault>
    ensures prints { OnOk result (Prints (R.remaining reader) (W.contents out.old) (W.contents out.new)) }
{
    let Ok(mut reader) = BufReader::new(alloc, reader) else {
        return Err(Fault::NoMemory);
    };
    let Ok(world) = World::new(alloc) else {
        return Err(Fault::NoMemory);
    };
    let mut script = Script {
        alloc,
        world,
        output: Output::new(alloc),
    };
    script.answer_all(&mut reader, out)?;
    flush(out)?;
    Ok(())
}

/// Writes what is buffered.
fn flush<W: Write>(out: &mut W) -> Result<(), Fault>
    ensures keeps { OnOk result (Keeps (W.contents out.old) (W.contents out.new)) }
{
    match out.flush() {
        Ok(()) => Ok(()),
        Err(_) => Err(Fault::Write),
    }
}

impl Script {
    /// Prints the answer to each line.
    fn answer_all<B: BufRead, W: Write>(&mut self, reader: &mut B, out: &mut W) -> Result<(), Fault>
        ensures answers { OnOk result (AnswersAll self.old.world (B.remaining reader.old) (W.contents out.old) (W.contents out.new)) }
    {
        let mut line = Vec::new(self.alloc);
        for _turn in 0..u64::MAX {
            line.clear();
            match read_line_bytes(reader, &mut line) {
                Ok(0) => return Ok(()),
                Ok(_) => self.answer(without_end(line.as_slice()), out)?,
                Err(e) if e.kind() == io::ErrorKind::OutOfMemory => return Err(Fault::NoMemory),
                Err(_) => return Err(Fault::Read),
            }
        }
        Err(Fault::Read)
    }

    /// Prints the answer to a line.
    fn answer<W: Write>(&mut self, line: &[u8], out: &mut W) -> Result<(), Fault>
        ensures answers { OnOk result (AnswersLine self.old.world line.now (W.contents out.old) (W.contents out.new) self.new.world) }
    {
        match read_line(self.alloc, line) {
            Ok(asked) => self.take_line(asked, out)?,
            Err(Refusal::NoMemory) => return Err(Fault::NoMemory),
            Err(refusal) => print_refusal(out, "refused", refusal)?,
        }
        Ok(())
    }

    /// Does what a line asks for.
    fn take_line<W: Write>(&mut self, line: Line, out: &mut W) -> Result<(), Fault>
        ensures does { OnOk result (DoesAsked self.old.world (Some (asked line)) (W.contents out.old) (W.contents out.new) self.new.world) }
    {
        match line {
            Line::Nothing => {}
            Line::Handed(input) => self.run(&input, out)?,
            Line::Queue(sub) => self.print_queue(sub, out)?,
            Line::LinkStats(source) => self.print_link_stats(source, out)?,
            Line::SessionStats(sub) => self.print_session_stats(sub, out)?,
        }
        Ok(())
    }

    /// Hands the world an input, and prints what that comes to.
    #[inline(always)]
    fn run<W: Write>(&mut self, input: &Input, out: &mut W) -> Result<(), Fault>
        ensures does { OnOk result (DoesAsked self.old.world (Some (hands (input_value input.now))) (W.contents out.old) (W.contents out.new) self.new.world) }
    {
        match self.world.take(input, &mut self.output) {
            Ok(()) => print_output(self.alloc, out, &self.output)?,
            Err(_) => return Err(Fault::NoMemory),
        }
        Ok(())
    }

    /// Prints what waits for a subscriber.
    fn print_queue<W: Write>(&self, sub: SubId, out: &mut W) -> Result<(), Fault>
        ensures prints { OnOk result (Appends (W.contents out.old) (W.contents out.new) (queue_text (queue_shown sub self.now.world))) }
    {
        match self.world.queue(sub) {
            Ok(queue) => print_queue(self.alloc, out, queue)?,
            Err(refusal) => print_refusal(out, "refused", refusal)?,
        }
        Ok(())
    }

    /// Prints what a source's link counted.
    fn print_link_stats<W: Write>(&self, source: PmuId, out: &mut W) -> Result<(), Fault>
        ensures prints { OnOk result (Appends (W.contents out.old) (W.contents out.new) (link_text (link_counted source self.now.world))) }
    {
        match self.world.link_stats(source) {
            Ok(stats) => print_counters(out, "linkstats", stats)?,
            Err(refusal) => print_refusal(out, "refused", refusal)?,
        }
        Ok(())
    }

    /// Prints what a subscriber's session counted.
    fn print_session_stats<W: Write>(&self, sub: SubId, out: &mut W) -> Result<(), Fault>
        ensures prints { OnOk result (PrintsSession self.now.world sub (W.contents out.old) (W.contents out.new)) }
    {
        match self.world.session_stats(sub) {
            Ok(stats) => print_counters(out, "sessionstats", stats)?,
            Err(refusal) => print_refusal(out, "refused", refusal)?,
        }
        Ok(())
    }
}
