//! The loop of a link over any reader, writer and gate.

ghost use Rattle.std.specs.Prelude.{◌≡◌, ◌<◌, ℕ, Bool, List, [], length, false, Option, Some, None, IfSome};
ghost use Rattle.pg_wire.specs.Held.{IsBreak};
ghost use Rattle.pg_gateway.specs.GatewayEvents.{GatewayEvent};
ghost use Rattle.pg_gateway.specs.Posting.{Posted};
ghost use Rattle.pg_ingest.specs.Ends.{is_cut};
ghost use Rattle.pg_ingest.specs.Transfers.{IsStuck};
ghost use Rattle.pg_ingest.specs.Turning.{EndsTurn, OnlyBegins, TellsAll};
ghost use Rattle.pg_ingest.specs.Runs.{wires, Ran, RanOn};
ghost use Rattle.pg_ingest.specs.Served.{IsCall};
ghost use Rattle.pg_ingest.specs.Shown.{LinkPast, ShowsLink, word_due};

use crate::link::{Link, LinkEvent};
use crate::transfer::{PIECE, end_of_read, write_bytes};
use pg_gateway::{Event, Gate};
use pg_wire::Refusal;
use std::io::{Read, Write};
use std::sync::Arc;

/// How a call of `run_link` ended.
#[derive(Clone, Copy, Debug, PartialEq, Eq)]
pub enum End {
    /// The reader has ended.
    Closed,
    /// The reader would block.
    Quiet,
    /// The writer would block: what is left to write stays in the link.
    Stalled,
    /// 39: a read failed, or all turns were taken. 40: a write failed, or took no byte. 2, 3 or 4: the source's bytes broke.
    Fault(u8),
}

/// Writes what is left of a command.
fn push_left<W: Write>(link: &mut Link, writer: &mut W) -> Option<End>
    ensures ran { (r : Option (List ℕ)) (p : Option (List Posted)) (t : GatewayEvent → Bool)
        → Ran (λ past steps. steps ≡ []) link.old link.new (wires r (W.contents writer.old) p t) (wires r (W.contents writer.new) p t) }
    ensures whole { result ≡ None → link.new.left ≡ [] }
    ensures same { link.new ≡ record link.old { left = link.new.left } }
    ensures stuck { IfSome result (λ end. IsStuck end link.new.left) }
{
    let (size, cut) = write_bytes(writer, link.left());
    link.send(size);
    cut
}

/// Writes what is left of a command, and then all commands that are owed.
fn write_owed<W: Write>(link: &mut Link, writer: &mut W) -> Option<End>
    ensures ran { (r : Option (List ℕ)) (p : Option (List Posted)) (t : GatewayEvent → Bool)
        → RanOn (λ past steps. OnlyBegins steps) link.old link.new (wires r (W.contents writer.old) p t) (wires r (W.contents writer.new) p t) }
    ensures whole { result ≡ None → link.new.left ≡ [] }
    ensures none { result ≡ None → (past : LinkPast) → ShowsLink link.new past → word_due past ≡ None }
    ensures held { link.new.bytes ≡ link.old.bytes }
    ensures stuck { IfSome result (λ end. IsStuck end link.new.left) }
{
    'owed: loop {
        if let Some(end) = push_left(link, writer) {
            return Some(end);
        }
        if !link.begin() {
            return None;
        }
    }
}

/// Posts the events of a source that are whole, and returns whether its bytes broke behind them.
fn post_events<G: Gate>(link: &mut Link, gate: &mut G) -> Option<Refusal>
    ensures ran { (r w : Option (List ℕ))
        → Ran (TellsAll result) link.old link.new (wires r w (G.posts gate.old) (G.takes gate.old)) (wires r w (G.posts gate.new) (G.takes gate.old)) }
    ensures takes { G.takes gate.new ≡ G.takes gate.old }
    ensures breaks { IfSome result IsBreak }
    ensures room { length link.new.bytes.held < 65535 }
    ensures left { link.new.left ≡ link.old.left }
    ensures onward { G.goes_on gate.old gate.new }
{
    'events: loop {
        match link.next_event() {
            LinkEvent::Announce(config) => {
                gate.post(Event::Announce(config));
            }
            LinkEvent::Measure(frame) => {
                let shared = Arc::try_clone(&frame);
                gate.post(Event::Measure(frame));
                if let Ok(done) = shared {
                    link.give_back(done);
                }
            }
            LinkEvent::Ignored(_) => {}
            LinkEvent::Ended(refusal) => return Some(refusal),
            LinkEvent::More => return None,
        }
    }
}

/// One turn: writes what is owed, reads once, and posts what came. The turn in which the reader ends, fails or would block
/// goes on without bytes, and is the last.
fn turn<R: Read, W: Write, G: Gate>(
    link: &mut Link,
    reader: &mut R,
    writer: &mut W,
    gate: &mut G,
) -> Option<End>
    requires { length link.old.bytes.held < 65535 }
    ensures ran { RanOn (EndsTurn result link.new.left (R.remaining reader.new)) link.old link.new
        (wires (R.remaining reader.old) (W.contents writer.old) (G.posts gate.old) (G.takes gate.old))
        (wires (R.remaining reader.new) (W.contents writer.new) (G.posts gate.new) (G.takes gate.old)) }
    ensures takes { G.takes gate.new ≡ G.takes gate.old }
    ensures room { length link.new.bytes.held < 65535 }
    ensures goes { result ≡ None → link.new.left ≡ [] }
    ensures whole { IfSome result (λ end. is_cut end ≡ false → link.new.left ≡ []) }
    ensures onward { G.goes_on gate.old gate.new }
{
    if let Some(end) = write_owed(link, writer) {
        return Some(end);
    }
    let read = link.read_from(reader, PIECE);
    let end = end_of_read(read);
    match post_events(link, gate) {
        Some(refusal) => Some(End::Fault(refusal.number())),
        None => end,
    }
}

/// Serves a link: each turn writes what the source is owed, reads at most 4,096 of its bytes, and posts those of their
/// events that the gate takes. It ends where the reader ends, fails or would block, where the writer fails or would block, where the bytes break,
/// and after `turns` reads.
pub fn run_link<R: Read, W: Write, G: Gate>(
    link: &mut Link,
    reader: &mut R,
    writer: &mut W,
    gate: &mut G,
    turns: u64,
) -> End
    ensures call { IsCall result turns link.old link.new
        (wires (R.remaining reader.old) (W.contents writer.old) (G.posts gate.old) (G.takes gate.old))
        (wires (R.remaining reader.new) (W.contents writer.new) (G.posts gate.new) (G.takes gate.new)) }
    ensures onward { G.goes_on gate.old gate.new }
{
    // What it was fed by others comes first, so that there is room. A break shows again in a turn.
    post_events(link, gate);
    'turns: for _ in 0..turns {
        if let Some(end) = turn(link, reader, writer, gate) {
            return end;
        }
    }
    End::Fault(39)
}
