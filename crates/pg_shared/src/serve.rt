//! The loop of a session over any reader, writer and gate.

ghost use Rattle.std.specs.Prelude.{◌≡◌, ◌<◌, ◌≤◌, ◌||◌, ℕ, Bool, List, [], length, take, Option, Some, None, IfSome, IfNone, true, false};
ghost use Rattle.std.specs.Io.KnownBytes.{IsAtEnd};
ghost use Rattle.pg_session.specs.Ready.{handed_len};
ghost use Rattle.pg_ingest.specs.Ends.{is_cut};
ghost use Rattle.pg_shared.specs.Serving.{Served, BreaksBy, EndsBy};
ghost use Rattle.pg_shared.specs.Turned.{HasGivenAll, has_failed, is_closed, Turned, TurnedTo, Writes, HangsUp};

use pg_gateway::{Event, Gate, Reply};
use pg_ingest::{End, PIECE, end_of_read, write_bytes};
use pg_ring::Drained;
use pg_session::{Next, Session};
use pg_wire::Refusal;
use std::io::{Read, Write};

/// Writes what is left of what a drain handed out.
fn push_left<W: Write>(session: &mut Session, writer: &mut W) -> Option<End>
    ensures writes { Writes session.old.left session.new.left (W.contents writer.old) (W.contents writer.new) }
    ensures same { session.new ≡ record session.old { left = session.new.left } }
    ensures whole { result ≡ None → session.new.left ≡ [] }
    ensures cut { IfSome result (λ end. is_cut end ≡ true) }
    ensures ends { IfSome result (λ end. EndsBy end session.new) }
{
    let (size, cut) = write_bytes(writer, session.left());
    session.send(size);
    cut
}

/// Posts the commands of a subscriber's frames that are whole, and returns whether its bytes broke behind them.
fn post_commands<G: Gate>(session: &mut Session, gate: &mut G) -> Option<Refusal>
    ensures ran { (r w : Option (List ℕ)) (due : Bool) → Turned None due due false session.old session.new r r w w (G.posts gate.old) (G.posts gate.new) }
    ensures given { HasGivenAll session.new }
    ensures breaks { BreaksBy result session.new }
    ensures room { length session.new.bytes.held < 65535 }
    ensures left { session.new.left ≡ session.old.left }
    ensures onward { G.goes_on gate.old gate.new }
{
    'commands: loop {
        match session.next_command() {
            Next::Cmd(command) => {
                gate.post(Event::Command(session.sub(), command));
            }
            Next::Ignored(_) => {}
            Next::Broken(refusal) => return Some(refusal),
            Next::More => return None,
        }
    }
}

/// How many bytes a drain handed out.
fn handed_size(out: Result<Drained, Refusal>) -> usize
    ensures { result ≡ handed_len out }
{
    match out {
        Ok(drained) => drained.len,
        Err(_) => 0,
    }
}

/// Posts a drain, which is due or for which the reader would block. What it hands out is left to write.
fn post_drain<G: Gate>(session: &mut Session, gate: &mut G)
    requires left { session.old.left ≡ [] }
    requires given { HasGivenAll session.old }
    requires whole { BreaksBy None session.old }
    ensures ran { (r w : Option (List ℕ)) (due waited : Bool) → (due || waited) ≡ true
        → Turned (Some End.Quiet) due false waited session.old session.new r r w w (G.posts gate.old) (G.posts gate.new) }
    ensures same { session.new ≡ record session.old { left = session.new.left } }
    ensures onward { G.goes_on gate.old gate.new }
{
    let buffer = session.take_buffer();
    let Reply::Drained { buf, out } = gate.post(Event::Drain(session.sub(), buffer)) else {
        unreachable!();
    };
    session.put_drained(buf, handed_size(out));
}

/// Whether a read failed.
fn has_failed(end: Option<End>) -> bool
    ensures { result ≡ has_failed end }
{
    match end {
        None => false,
        Some(end) => match end {
            End::Fault(_) => true,
            End::Closed | End::Quiet | End::Stalled => false,
        },
    }
}

/// Whether a read found that the reader has ended.
fn is_closed(end: Option<End>) -> bool
    ensures value { result ≡ is_closed end }
    ensures closed { result ≡ true → end ≡ Some End.Closed }
{
    match end {
        None => false,
        Some(end) => match end {
            End::Closed => true,
            End::Quiet | End::Stalled | End::Fault(_) => false,
        },
    }
}

/// One turn: writes what an earlier turn left, reads once, posts the commands that came, posts a drain and writes what it hands
/// out. The turn in which the reader would block goes on without bytes, and is the last. Where the reader has ended or failed,
/// or the bytes broke, no drain is posted.
fn turn<R: Read, W: Write, G: Gate>(
    session: &mut Session,
    reader: &mut R,
    writer: &mut W,
    gate: &mut G,
) -> Option<End>
    requires room { length session.old.bytes.held < 65535 }
    requires given { HasGivenAll session.old }
    ensures ran { TurnedTo result session.old session.new (R.remaining reader.old) (R.remaining reader.new)
        (W.contents writer.old) (W.contents writer.new) (G.posts gate.old) (G.posts gate.new) }
    ensures room { length session.new.bytes.held < 65535 }
    ensures given { HasGivenAll session.new }
    ensures goes { result ≡ None → session.new.left ≡ [] }
    ensures ends { IfSome result (λ end. EndsBy end session.new) }
    ensures closed { result ≡ Some End.Closed → IsAtEnd (R.remaining reader.new) }
    ensures onward { G.goes_on gate.old gate.new }
{
    if let Some(end) = push_left(session, writer) {
        return Some(end);
    }
    let read = session.read_from(reader, PIECE);
    let end = end_of_read(read);
    if has_failed(end) {
        return Some(End::Fault(39));
    }
    if let Some(refusal) = post_commands(session, gate) {
        return Some(End::Fault(refusal.number()));
    }
    if is_closed(end) {
        return Some(End::Closed);
    }
    post_drain(session, gate);
    match push_left(session, writer) {
        Some(cut) => Some(cut),
        None => end,
    }
}

/// Turns until one ends, at most so many.
fn serve_turns<R: Read, W: Write, G: Gate>(
    session: &mut Session,
    reader: &mut R,
    writer: &mut W,
    gate: &mut G,
    turns: u64,
) -> End
    ensures ran { TurnedTo (Some result) session.old session.new (R.remaining reader.old) (R.remaining reader.new)
        (W.contents writer.old) (W.contents writer.new) (G.posts gate.old) (G.posts gate.new) }
    ensures given { HasGivenAll session.new }
    ensures ends { 0 < turns → EndsBy result session.new }
    ensures closed { result ≡ End.Closed → IsAtEnd (R.remaining reader.new) }
    ensures onward { G.goes_on gate.old gate.new }
{
    // What it was fed by others comes first, so that there is room. A break shows again in a turn.
    post_commands(session, gate);
    'turns: for _ in 0..turns {
        if let Some(end) = turn(session, reader, writer, gate) {
            return end;
        }
    }
    End::Fault(39)
}

/// Posts that the subscriber hangs up.
fn hang_up<G: Gate>(session: &Session, gate: &mut G)
    ensures posted { HangsUp session.now (G.posts gate.old) (G.posts gate.new) }
    ensures onward { G.goes_on gate.old gate.new }
{
    gate.post(Event::Hangup(session.sub()));
}

/// Serves a session: each turn writes what an earlier turn left, reads at most 4,096 of the subscriber's bytes,
/// posts their commands, and then a drain, and writes what it hands out. It ends where the reader ends or would block, where
/// the writer would block, at a fault, where the bytes break, and after `turns` reads. Where it ends as `Closed` or as a fault,
/// it posts a `Hangup` last.
pub fn serve_session<R: Read, W: Write, G: Gate>(
    session: &mut Session,
    reader: &mut R,
    writer: &mut W,
    gate: &mut G,
    turns: u64,
) -> End
    // The commands of the bytes that were read are posted, each once and in order, and what the drains handed out is written. The
    // reads, commands and drains lie in an order in which each drain is due.
    ensures served { Served result session.old session.new (R.remaining reader.old) (R.remaining reader.new)
        (W.contents writer.old) (W.contents writer.new) (G.posts gate.old) (G.posts gate.new) }
    // All is written, but where a write was cut short; and nothing broke, but where the call ends by the break.
    ensures ends { 0 < turns → EndsBy result session.new }
    ensures closed { result ≡ End.Closed → IsAtEnd (R.remaining reader.new) }
    ensures onward { G.goes_on gate.old gate.new }
{
    let end = serve_turns(session, reader, writer, gate, turns);
    match end {
        End::Closed | End::Fault(_) => hang_up(session, gate),
        End::Quiet | End::Stalled => {}
    }
    end
}
