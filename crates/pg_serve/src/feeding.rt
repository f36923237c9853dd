//! Bytes are cut into frames, and these become events.

ghost use Rattle.std.specs.Prelude.{◌≡◌, ℕ, ◌<◌, List, [], ◌∷◌, ◌++◌, length, IfOk};
ghost use Rattle.std.specs.Arc.{arc_value};
ghost use Rattle.pg_session.specs.Commands as commands;
ghost use Rattle.pg_session.specs.Commands.{Item};
ghost use Rattle.pg_session.specs.Private.{refused};
ghost use Rattle.pg_ingest.specs.Shown as ingest;
ghost use Rattle.pg_ingest.specs.Shown.{LinkPast, feeding};
ghost use Rattle.pg_gateway.specs.GatewayEvents.{gateway_event, measure, tells};
ghost use Rattle.pg_gateway.specs.State.{SharedMachine};
ghost use Rattle.pg_gateway.specs.Shown.{GatewayShows};
ghost use Rattle.pg_serve.specs.Inputs.{noted, all_noted, replied, ignored, closed};
ghost use Rattle.pg_serve.specs.Actions.{posts};
ghost use Rattle.pg_serve.specs.Feeding.{Did, TellsAll, TakesPiece, GivesAll, HearsAll};

use crate::input::Note;
use pg_data::DataFrame;
use pg_gateway::{Event, Gateway, Reply};
use pg_ingest::{Link, LinkEvent};
use pg_session::{Next, Session};
use pg_wire::{Refusal, SubId};
use std::alloc::{AllocError, Global};
use std::sync::Arc;

/// Notes something.
#[inline(always)]
pub(crate) fn note(notes: &mut Vec<Note>, what: Note) -> Result<(), AllocError>
    ensures noted { IfOk result (λ _. all_noted notes.new.items ≡ all_noted notes.old.items ++ noted what ∷ []) }
{
    // Room first: a push that may fail hands the note back, which would move it.
    notes.reserve(1)?;
    notes.push_reserved(what);
    Ok(())
}

/// Notes why a frame is ignored. Like other rare notes it is a function of its own: a note has room for all counters, which would be set
/// up for each frame.
#[inline(never)]
fn note_ignored(notes: &mut Vec<Note>, refusal: Refusal) -> Result<(), AllocError>
    ensures noted { IfOk result (λ _. all_noted notes.new.items ≡ all_noted notes.old.items ++ ignored refusal ∷ []) }
{
    note(notes, Note::Ignored(refusal))?;
    Ok(())
}

/// Notes why a connection is closed.
#[inline(never)]
fn note_closed(notes: &mut Vec<Note>, refusal: Refusal) -> Result<(), AllocError>
    ensures noted { IfOk result (λ _. all_noted notes.new.items ≡ all_noted notes.old.items ++ closed refusal ∷ []) }
{
    note(notes, Note::Closed(refusal))?;
    Ok(())
}

/// Notes why an event is refused.
#[inline(never)]
fn note_refused(notes: &mut Vec<Note>, refusal: Refusal) -> Result<(), AllocError>
    ensures noted { IfOk result (λ _. all_noted notes.new.items ≡ all_noted notes.old.items ++ replied (tells (refused refusal)) ∷ []) }
{
    note(notes, Note::Replied(Reply::Refused(refusal)))?;
    Ok(())
}

/// Posts an event, and notes the reply.
#[inline(never)]
pub(crate) fn post(
    gateway: &mut Gateway,
    event: Event,
    notes: &mut Vec<Note>,
) -> Result<(), AllocError>
    ensures did { IfOk result (λ _. (S : SharedMachine) → GatewayShows gateway.old S
        → Did S (posts (gateway_event event) ∷ []) (all_noted notes.old.items) (all_noted notes.new.items) gateway.new) }
{
    let reply = gateway.step(event);
    note(notes, Note::Replied(reply))?;
    Ok(())
}

/// Posts a data frame, and notes the reply.
fn post_measured(
    gateway: &mut Gateway,
    frame: &Arc<DataFrame>,
    notes: &mut Vec<Note>,
) -> Result<(), AllocError>
    ensures did { IfOk result (λ _. (S : SharedMachine) → GatewayShows gateway.old S
        → Did S (posts (measure (arc_value frame.now)) ∷ []) (all_noted notes.old.items) (all_noted notes.new.items) gateway.new) }
{
    let (made, kept) = match gateway.measure(frame) {
        Ok(counts) => counts,
        Err(refusal) => {
            note_refused(notes, refusal)?;
            return Ok(());
        }
    };
    note(notes, Note::Replied(Reply::Done { made, kept }))?;
    Ok(())
}

/// Posts the events of a source that are whole, and returns whether its bytes broke behind them.
fn post_events(
    gateway: &mut Gateway,
    link: &mut Link,
    notes: &mut Vec<Note>,
) -> Result<Option<Refusal>, AllocError>
    ensures told { IfOk result (λ broken. (S : SharedMachine) (past : LinkPast) → GatewayShows gateway.old S → ingest.ShowsLink link.old past
        → TellsAll S past broken (all_noted notes.old.items) (all_noted notes.new.items) gateway.new link.new) }
    ensures room { IfOk result (λ broken. length link.new.bytes.held < 65535) }
{
    loop {
        match link.next_event() {
            LinkEvent::Announce(config) => post(gateway, Event::Announce(config), notes)?,
            LinkEvent::Measure(frame) => {
                post_measured(gateway, &frame, notes)?;
                link.give_back(frame);
            }
            LinkEvent::Ignored(refusal) => note_ignored(notes, refusal)?,
            LinkEvent::Ended(refusal) => return Ok(Some(refusal)),
            LinkEvent::More => return Ok(None),
        }
    }
}

/// Hands a source's bytes over, in pieces that its link has room for, and posts what they make. Behind a break the link drops
/// them.
fn feed_events(
    gateway: &mut Gateway,
    link: &mut Link,
    bytes: &[u8],
    notes: &mut Vec<Note>,
) -> Result<Option<Refusal>, AllocError>
    ensures told { IfOk result (λ broken. (S : SharedMachine) (past : LinkPast) → GatewayShows gateway.old S → ingest.ShowsLink link.old past
        → TellsAll S (feeding past bytes.now) broken (all_noted notes.old.items) (all_noted notes.new.items)
        gateway.new link.new) }
{
    let mut sent = 0;
    loop {
        let broken = post_events(gateway, link, notes)?;
        if sent == bytes.len() {
            return Ok(broken);
        }
        let size = link.room().min(bytes.len() - sent);
        link.feed(&bytes[sent..][..size]);
        sent += size;
    }
}

/// Hands a source's bytes over and posts what they make; a break is noted last.
pub(crate) fn feed_link(
    gateway: &mut Gateway,
    link: &mut Link,
    bytes: &[u8],
    notes: &mut Vec<Note>,
) -> Result<(), AllocError>
    ensures taken { IfOk result (λ _. (S : SharedMachine) (past : LinkPast) → GatewayShows gateway.old S → ingest.ShowsLink link.old past
        → TakesPiece S (feeding past bytes.now) (all_noted notes.old.items) (all_noted notes.new.items) gateway.new link.new) }
{
    match feed_events(gateway, link, bytes, notes)? {
        Some(refusal) => {
            note_closed(notes, refusal)?;
            Ok(())
        }
        None => Ok(()),
    }
}

/// The commands that a source is owed, one behind another.
pub(crate) fn commands_owed(alloc: Global, link: &mut Link) -> Result<Vec<u8>, AllocError>
    ensures given { IfOk result (λ frames. (past : LinkPast) → ingest.ShowsLink link.old past → GivesAll past frames.items link.new) }
{
    let mut frames = Vec::new(alloc);
    give_commands(link, &mut frames)?;
    Ok(frames)
}

/// Appends the commands that a source is owed, one behind another.
pub(crate) fn give_commands(link: &mut Link, frames: &mut Vec<u8>) -> Result<(), AllocError>
    requires empty { frames.old.items ≡ [] }
    ensures given { IfOk result (λ _. (past : LinkPast) → ingest.ShowsLink link.old past → GivesAll past frames.new.items link.new) }
{
    while let Some(frame) = link.next_out() {
        frames.extend_from_slice(&frame)?;
    }
    Ok(())
}

/// Posts the commands of a subscriber that are whole, and returns whether its bytes broke behind them.
fn post_commands(
    gateway: &mut Gateway,
    session: &mut Session,
    sub: SubId,
    notes: &mut Vec<Note>,
) -> Result<Option<Refusal>, AllocError>
    ensures heard { IfOk result (λ broken. (S : SharedMachine) (stream : List ℕ) (given : List Item) → GatewayShows gateway.old S
        → commands.ShowsHearing session.old stream given
        → HearsAll S sub stream given broken (all_noted notes.old.items) (all_noted notes.new.items) gateway.new session.new) }
    ensures room { IfOk result (λ broken. length session.new.bytes.held < 65535) }
{
    loop {
        match session.next_command() {
            Next::Cmd(command) => post(gateway, Event::Command(sub, command), notes)?,
            Next::Ignored(refusal) => note_ignored(notes, refusal)?,
            Next::Broken(refusal) => return Ok(Some(refusal)),
            Next::More => return Ok(None),
        }
    }
}

/// Hands a subscriber's bytes over, in pieces that its session has room for, and posts what they make. Behind a break the
/// session drops them.
pub(crate) fn feed_session(
    gateway: &mut Gateway,
    session: &mut Session,
    sub: SubId,
    bytes: &[u8],
    notes: &mut Vec<Note>,
) -> Result<Option<Refusal>, AllocError>
    ensures heard { IfOk result (λ broken. (S : SharedMachine) (stream : List ℕ) (given : List Item) → GatewayShows gateway.old S
        → commands.ShowsHearing session.old stream given
        → HearsAll S sub (stream ++ bytes.now) given broken (all_noted notes.old.items) (all_noted notes.new.items)
        gateway.new session.new) }
{
    let mut sent = 0;
    loop {
        let broken = post_commands(gateway, session, sub, notes)?;
        if sent == bytes.len() {
            return Ok(broken);
        }
        let size = session.room().min(bytes.len() - sent);
        session.feed(&bytes[sent..][..size]);
        sent += size;
    }
}
