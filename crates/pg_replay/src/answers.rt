//! What a script's run prints of an input, and of what waits for a subscriber.

ghost use Rattle.std.specs.Prelude.{◌≡◌, OnOk};
ghost use Rattle.std.specs.List.{flat_map};
ghost use Rattle.std.specs.Io.KnownBytes.{Appends};
ghost use Rattle.pg_serve.specs.Inputs.{all_noted, outcome};
ghost use Rattle.pg_replay.specs.Printing.{note_lines, reply_line, frame_line, queue_lines, output_lines, send_lines};

use pg_lines::{NotPrinted, print_hex, print_refusal, print_reply};
use pg_ring::OutQueue;
use pg_serve::{Note, Output};
use std::alloc::Global;
use std::io::Write;

/// The bytes of a command frame.
const COMMAND_BYTES: usize = 18;

/// Prints what an input came to: its notes in their order, then the commands to the source, a line each.
///
/// # Errors
///
/// `Write` where it can't be written; `NoMemory`.
pub(crate) fn print_output<W: Write>(
    alloc: Global,
    out: &mut W,
    output: &Output,
) -> Result<(), NotPrinted>
    ensures prints { OnOk result (Appends (W.contents out.old) (W.contents out.new) (output_lines (outcome output.now))) }
{
    print_notes(alloc, out, &output.notes)?;
    print_commands(alloc, out, &output.to_pmu)?;
    Ok(())
}

/// Prints notes, a line each.
fn print_notes<W: Write>(alloc: Global, out: &mut W, notes: &[Note]) -> Result<(), NotPrinted>
    ensures prints { OnOk result (Appends (W.contents out.old) (W.contents out.new) (note_lines (all_noted notes.now))) }
{
    for note in notes {
        match note {
            Note::Replied(reply) => print_reply(alloc, out, reply)?,
            Note::Ignored(refusal) => print_refusal(out, "ignored", *refusal)?,
            Note::Closed(refusal) => print_refusal(out, "closed", *refusal)?,
        }
    }
    Ok(())
}

/// Prints the commands to a source, a line each.
fn print_commands<W: Write>(alloc: Global, out: &mut W, bytes: &[u8]) -> Result<(), NotPrinted>
    ensures prints { OnOk result (Appends (W.contents out.old) (W.contents out.new) (send_lines bytes.now)) }
{
    let mut rest = bytes;
    while !rest.is_empty() {
        let (command, more) = rest.split_at(COMMAND_BYTES.min(rest.len()));
        write!(out, "send")?;
        print_hex(alloc, out, command)?;
        rest = more;
    }
    Ok(())
}

/// Prints what waits for a subscriber: the rest of the frame in hand, the replies, the data frames with the gap before each,
/// and the numbers without a frame after them.
pub(crate) fn print_queue<W: Write>(
    alloc: Global,
    out: &mut W,
    queue: &OutQueue,
) -> Result<(), NotPrinted>
    ensures prints { OnOk result (Appends (W.contents out.old) (W.contents out.new) (queue_lines queue.now)) }
{
    write!(out, "rest")?;
    print_hex(alloc, out, queue.rest())?;
    print_replies(alloc, out, queue)?;
    print_frames(alloc, out, queue)?;
    writeln!(out, "pending {}", queue.pending())?;
    Ok(())
}

/// Prints the replies that wait, a line each.
fn print_replies<W: Write>(alloc: Global, out: &mut W, queue: &OutQueue) -> Result<(), NotPrinted>
    ensures prints { OnOk result (Appends (W.contents out.old) (W.contents out.new) (flat_map reply_line queue.now.replies)) }
{
    for i in 0..queue.replies() {
        let Some(reply) = queue.reply_at(i) else {
            unreachable!();
        };
        write!(out, "reply")?;
        print_hex(alloc, out, reply)?;
    }
    Ok(())
}

/// Prints the data frames that wait, a line each.
fn print_frames<W: Write>(alloc: Global, out: &mut W, queue: &OutQueue) -> Result<(), NotPrinted>
    ensures prints { OnOk result (Appends (W.contents out.old) (W.contents out.new) (flat_map frame_line queue.now.frames)) }
{
    for i in 0..queue.frames() {
        let Some((frame, gap)) = queue.frame_at(i) else {
            unreachable!();
        };
        write!(out, "frame {gap}")?;
        print_hex(alloc, out, frame)?;
    }
    Ok(())
}
