//! One input after another.

ghost use Rattle.std.specs.Prelude.{◌≡◌, ℕ, [], ◌∷◌, is_some, false, None, IfOk};
ghost use Rattle.pg_session.specs.Events as events;
ghost use Rattle.pg_session.specs.Private as private;
ghost use Rattle.pg_gateway.specs.GatewayEvents.{gateway_event, asks, add_pmu, drop_pmu, told, tells};
ghost use Rattle.pg_gateway.specs.State.{SharedMachine, slot_of, refusal};
ghost use Rattle.pg_gateway.specs.Shown.{GatewayShows};
ghost use Rattle.pg_serve.specs.WorldStates.{WorldState, has_source, new_source_link, is_done, absence};
ghost use Rattle.pg_shared.specs.Edits.{edited};
ghost use Rattle.pg_serve.specs.Inputs.{input_value, link_up, pmu_bytes, sub_bytes, names, noted, replied, outcome};
ghost use Rattle.pg_serve.specs.Shown.{WorldStateShows, SourceLinkShows, SessionShows};
ghost use Rattle.pg_serve.specs.Taking.{held, Takes, TakesInput, Spares, Ends};

use crate::feeding::{commands_owed, feed_link, feed_session, note, post};
use crate::input::{Input, Note, Output};
use crate::source_link::SourceLink;
use indexmap::IndexMap;
use pg_gateway::{Edit, Event, Gateway, Reply};
use pg_session::Session;
use pg_shared::event_of;
use pg_wire::{PmuId, PmuKey, Refusal, SubId};
use std::alloc::{AllocError, Global};
use std::mem;

/// The gateway, a line for each source that has a registered PMU, and a session for each connected subscriber.
#[derive(Drop)]
pub(crate) struct Core {
    pub(crate) alloc: Global,
    pub(crate) gateway: Gateway,
    pub(crate) lines: IndexMap<PmuId, SourceLink>,
    pub(crate) sessions: IndexMap<SubId, Session>,
    /// The buffer of the last drain, which the next one takes.
    pub(crate) buffer: Vec<u8>,
}

/// An answer of one note.
fn output(alloc: Global, what: Note) -> Result<Output, AllocError>
    ensures outcome { IfOk result (λ o. outcome o ≡ record { notes = noted what ∷ []; to_pmu = [] }) }
{
    let mut notes = Vec::with_capacity(alloc, 1)?;
    note(&mut notes, what)?;
    Ok(Output {
        notes,
        to_pmu: Vec::new(alloc),
    })
}

/// An answer that is a refusal.
#[inline(never)]
fn refused(alloc: Global, refusal: Refusal) -> Result<Output, AllocError>
    ensures outcome { IfOk result (λ o. outcome o ≡ record { notes = replied (tells (private.refused refusal)) ∷ []; to_pmu = [] }) }
{
    Ok(output(alloc, Note::Replied(Reply::Refused(refusal)))?)
}

/// Makes the output a refusal alone.
#[inline(never)]
fn refuse(alloc: Global, refusal: Refusal, output: &mut Output) -> Result<(), AllocError>
    ensures outcome { IfOk result (λ _. outcome output.new ≡ record { notes = replied (tells (private.refused refusal)) ∷ []; to_pmu = [] }) }
{
    *output = refused(alloc, refusal)?;
    Ok(())
}

impl Core {
    /// Takes one input, and answers it in place of what the output held. For the bytes of a source the output's memory is kept.
    pub(crate) fn take(&mut self, input: &Input, output: &mut Output) -> Result<(), AllocError>
        ensures takes { IfOk result (λ _. TakesInput (held self.old) (input_value input.now) (outcome output.new) (held self.new)) }
    {
        self.keep_buffer(output);
        match input {
            Input::PmuBytes(source, bytes) => self.take_source(*source, bytes.as_slice(), output),
            _ => self.answer_anew(input, output),
        }
    }

    /// Keeps the buffer of the drain that the output reports, for the next drain.
    fn keep_buffer(&mut self, output: &mut Output)
        ensures held { held self.new ≡ held self.old }
    {
        if let Some(Note::Replied(Reply::Drained { buf, .. })) = output.notes.last_mut() {
            mem::swap(buf, &mut self.buffer);
        }
    }

    /// Takes one input, and answers it in new memory. It is a function of its own, so that nothing of what the others need is made
    /// ready for a data frame.
    #[inline(never)]
    fn answer_anew(&mut self, input: &Input, output: &mut Output) -> Result<(), AllocError>
        ensures takes { IfOk result (λ _. TakesInput (held self.old) (input_value input.now) (outcome output.new) (held self.new)) }
    {
        *output = self.take_other(input)?;
        Ok(())
    }

    /// The answer to one input.
    fn take_other(&mut self, input: &Input) -> Result<Output, AllocError>
        ensures takes { IfOk result (λ o. TakesInput (held self.old) (input_value input.now) (outcome o) (held self.new)) }
    {
        match input {
            Input::LinkUp(source) => self.link_up(*source),
            Input::PmuBytes(source, bytes) => self.take_bytes(*source, bytes.as_slice()),
            Input::SubBytes(sub, bytes) => self.take_subscriber(*sub, bytes.as_slice()),
            Input::Connect(sub) => self.connect(*sub),
            Input::Hangup(sub) => self.end_session(Event::Hangup(*sub), *sub),
            Input::Drain(sub, size) => self.drain(*sub, *size),
            Input::Tick(soc) => self.answer(Event::Tick(*soc)),
            Input::Edit(edit) => self.edit(edit),
        }
    }

    /// Posts an event that concerns no link and no session.
    fn answer(&mut self, event: Event) -> Result<Output, AllocError>
        requires spares { Spares (gateway_event event) }
        ensures takes { IfOk result (λ o. TakesInput (held self.old) (names (gateway_event event)) (outcome o) (held self.new)) }
    {
        let reply = self.gateway.step(event);
        Ok(output(self.alloc, Note::Replied(reply))?)
    }

    /// A source's connection is up.
    fn link_up(&mut self, source: PmuId) -> Result<Output, AllocError>
        ensures takes { IfOk result (λ o. TakesInput (held self.old) (link_up source) (outcome o) (held self.new)) }
    {
        match self.lines.get_mut(&source) {
            None => Ok(refused(self.alloc, Refusal::NoSuchPmu)?),
            Some(line) => {
                let to_pmu = line.go_up(self.alloc)?;
                Ok(Output {
                    notes: Vec::new(self.alloc),
                    to_pmu,
                })
            }
        }
    }

    /// Bytes of a source came.
    fn take_bytes(&mut self, source: PmuId, bytes: &[u8]) -> Result<Output, AllocError>
        ensures takes { IfOk result (λ o. TakesInput (held self.old) (pmu_bytes source bytes.now) (outcome o) (held self.new)) }
    {
        let mut output = Output::new(self.alloc);
        self.take_source(source, bytes, &mut output)?;
        Ok(output)
    }

    /// The same, answered in place of what the output held.
    fn take_source(
        &mut self,
        source: PmuId,
        bytes: &[u8],
        output: &mut Output,
    ) -> Result<(), AllocError>
        ensures takes { IfOk result (λ _. TakesInput (held self.old) (pmu_bytes source bytes.now) (outcome output.new) (held self.new)) }
    {
        match self.lines.get_mut(&source) {
            None => Ok(refuse(self.alloc, Refusal::NoSuchPmu, output)?),
            Some(line) => Ok(line.take(&mut self.gateway, bytes, output)?),
        }
    }

    /// Bytes of a subscriber came. Where they break it is hung up.
    fn take_subscriber(&mut self, sub: SubId, bytes: &[u8]) -> Result<Output, AllocError>
        ensures takes { IfOk result (λ o. TakesInput (held self.old) (sub_bytes sub bytes.now) (outcome o) (held self.new)) }
    {
        let mut notes = Vec::with_capacity(self.alloc, 1)?;
        let broken = match self.sessions.get_mut(&sub) {
            None => {
                let refusal = absence(&self.gateway, sub);
                return Ok(refused(self.alloc, refusal)?);
            }
            Some(session) => feed_session(&mut self.gateway, session, sub, bytes, &mut notes)?,
        };
        if let Some(refusal) = broken {
            note(&mut notes, Note::Closed(refusal))?;
            post(&mut self.gateway, Event::Hangup(sub), &mut notes)?;
            self.sessions.shift_remove(&sub);
            return Ok(Output {
                notes,
                to_pmu: Vec::new(self.alloc),
            });
        }
        Ok(Output {
            notes,
            to_pmu: Vec::new(self.alloc),
        })
    }

    /// A subscriber connects. Its session is made first, so that want of memory changes nothing.
    fn connect(&mut self, sub: SubId) -> Result<Output, AllocError>
        ensures takes { IfOk result (λ o. TakesInput (held self.old) (names (asks sub events.connect)) (outcome o) (held self.new)) }
    {
        if !self.gateway.has_sub(sub) {
            let reply = self.gateway.step(Event::Connect(sub));
            return Ok(output(self.alloc, Note::Replied(reply))?);
        }
        if self.gateway.is_connected(sub) {
            let reply = self.gateway.step(Event::Connect(sub));
            return Ok(output(self.alloc, Note::Replied(reply))?);
        }
        match Session::new(self.alloc, sub) {
            Ok(session) => Ok(self.add_session(sub, session)?),
            Err(_) => Ok(refused(self.alloc, Refusal::NoMemory)?),
        }
    }

    /// A subscriber connects, with this session.
    fn add_session(&mut self, sub: SubId, session: Session) -> Result<Output, AllocError>
        requires new { SessionShows session [] }
        ensures takes { IfOk result (λ o. (m : WorldState) → refusal m.shared (asks sub events.connect) ≡ None
            → WorldStateShows (held self.old) m
            → Takes m (names (asks sub events.connect)) (outcome o) (held self.new)) }
    {
        match self.sessions.reserve(1) {
            Ok(()) => {}
            Err(_) => return Ok(refused(self.alloc, Refusal::NoMemory)?),
        }
        let reply = self.gateway.step(Event::Connect(sub));
        if is_done(&reply) {
            let _ = self.sessions.insert(sub, session);
            return Ok(output(self.alloc, Note::Replied(reply))?);
        }
        Ok(output(self.alloc, Note::Replied(reply))?)
    }

    /// A subscriber is hung up or dropped: its session ends, where that is done.
    fn end_session(&mut self, event: Event, sub: SubId) -> Result<Output, AllocError>
        requires ends { Ends sub (gateway_event event) }
        ensures takes { IfOk result (λ o. TakesInput (held self.old) (names (gateway_event event)) (outcome o) (held self.new)) }
    {
        let reply = self.gateway.step(event);
        if is_done(&reply) {
            self.sessions.shift_remove(&sub);
            return Ok(output(self.alloc, Note::Replied(reply))?);
        }
        Ok(output(self.alloc, Note::Replied(reply))?)
    }

    /// What waits for a subscriber is handed out into the buffer that is kept. What an earlier drain left in it says nothing.
    fn drain(&mut self, sub: SubId, size: u16) -> Result<Output, AllocError>
        ensures takes { IfOk result (λ o. TakesInput (held self.old) (names (asks sub (events.drain size))) (outcome o) (held self.new)) }
    {
        let mut buffer = mem::replace(&mut self.buffer, Vec::new(self.alloc));
        buffer.resize(usize::from(size), 0)?;
        self.answer(Event::Drain(sub, buffer))
    }

    /// What an operator asks for.
    fn edit(&mut self, edit: &Edit) -> Result<Output, AllocError>
        ensures takes { IfOk result (λ o. TakesInput (held self.old) (names (edited edit.now)) (outcome o) (held self.new)) }
    {
        match edit {
            Edit::AddPmu(key) => self.add_pmu(*key),
            Edit::DropPmu(key) => self.drop_pmu(*key),
            Edit::DropSub(sub) => self.end_session(Event::DropSub(*sub), *sub),
            _ => {
                let copy = edit.try_clone(self.alloc)?;
                self.answer(event_of(copy))
            }
        }
    }

    /// A PMU is registered. The link of a new source is made first, so that want of memory changes nothing.
    fn add_pmu(&mut self, key: PmuKey) -> Result<Output, AllocError>
        ensures takes { IfOk result (λ o. TakesInput (held self.old) (names (add_pmu key)) (outcome o) (held self.new)) }
    {
        if self.gateway.has_source(key.source) {
            let reply = self.gateway.step(Event::AddPmu(key));
            return Ok(output(self.alloc, Note::Replied(reply))?);
        }
        if self.gateway.is_full() {
            let reply = self.gateway.step(Event::AddPmu(key));
            return Ok(output(self.alloc, Note::Replied(reply))?);
        }
        match SourceLink::new(self.alloc, key.source) {
            Ok(line) => Ok(self.add_line(key, line)?),
            Err(_) => Ok(refused(self.alloc, Refusal::NoMemory)?),
        }
    }

    /// A PMU of a new source is registered, with this line.
    fn add_line(&mut self, key: PmuKey, line: SourceLink) -> Result<Output, AllocError>
        requires new { SourceLinkShows line (new_source_link key.source) }
        ensures takes { IfOk result (λ o. (m : WorldState) → has_source m.shared key.source ≡ false
            → refusal m.shared (add_pmu key) ≡ None
            → WorldStateShows (held self.old) m
            → Takes m (names (add_pmu key)) (outcome o) (held self.new)) }
    {
        match self.lines.reserve(1) {
            Ok(()) => {}
            Err(_) => return Ok(refused(self.alloc, Refusal::NoMemory)?),
        }
        let reply = self.gateway.step(Event::AddPmu(key));
        if is_done(&reply) {
            let _ = self.lines.insert(key.source, line);
            return Ok(output(self.alloc, Note::Replied(reply))?);
        }
        Ok(output(self.alloc, Note::Replied(reply))?)
    }

    /// A PMU is dropped, and with a source's last one its link.
    fn drop_pmu(&mut self, key: PmuKey) -> Result<Output, AllocError>
        ensures takes { IfOk result (λ o. TakesInput (held self.old) (names (drop_pmu key)) (outcome o) (held self.new)) }
    {
        let reply = self.gateway.step(Event::DropPmu(key));
        if !self.gateway.has_source(key.source) {
            self.lines.shift_remove(&key.source);
            return Ok(output(self.alloc, Note::Replied(reply))?);
        }
        Ok(output(self.alloc, Note::Replied(reply))?)
    }
}

/// Whether the event was done, by this reply.
fn is_done(reply: &Reply) -> bool
    ensures value { result ≡ is_done (told reply.now) }
{
    match reply {
        Reply::Done { .. } => true,
        _ => false,
    }
}

/// Why a subscriber has no session: it is not there, or not connected.
pub(crate) fn absence(gateway: &Gateway, sub: SubId) -> Refusal
    ensures value { (S : SharedMachine) → GatewayShows gateway.now S → result ≡ absence (is_some (slot_of sub S.subs)) }
{
    if gateway.has_sub(sub) {
        Refusal::NotConnected
    } else {
        Refusal::NoSuchSub
    }
}
