//! Streams that a reload removes while they are on.

use pg_console::ServiceHandle;
use pg_gateway::{Edit, Event, Gate, MemberPlace, Reply};
use pg_operator::Setup;
use pg_service::MeteredGate;
use pg_stream::Definition;
use pg_wire::{StreamId, SubId};
use std::alloc::{AllocError, Global};
use std::sync::Wait;

/// The streams of a subscriber at most.
const STREAMS: u8 = 8;

/// A stream that is on and is removed by a reload.
#[derive(Drop)]
pub(crate) struct Started {
    sub: SubId,
    stream: StreamId,
    // Whether it is defined anew with the same members in the same order.
    goes_on: bool,
}

impl Started {
    /// Has it go on, or its subscriber hung up, so that no stream falls silent, or has other members, under an open connection.
    pub(crate) fn follow<R: Wait>(&self, rt: &R, service: ServiceHandle<'_>) {
        if self.goes_on {
            service.resume(rt, self.sub, self.stream);
        } else {
            service.hang_up(rt, self.sub);
        }
    }
}

/// The streams that these edits remove and that are on by now. `old` is the setup in force.
///
/// # Errors
///
/// There is no memory for them.
pub(crate) fn started_streams<G: Gate>(
    alloc: Global,
    gate: &mut MeteredGate<G>,
    old: &Setup,
    edits: &[Edit],
) -> Result<Vec<Started>, AllocError> {
    let mut started = Vec::new(alloc);
    for edit in edits {
        if let Edit::Remove(sub, stream) = edit {
            if is_on(gate, *sub, *stream) {
                let before = definition_by(old, *sub, *stream);
                let after = definition_in(edits, *sub, *stream);
                let goes_on = have_same_members(before, after);
                started.push(Started {
                    sub: *sub,
                    stream: *stream,
                    goes_on,
                })?;
            }
        }
    }
    Ok(started)
}

/// Whether a stream is on.
fn is_on<G: Gate>(gate: &mut MeteredGate<G>, sub: SubId, stream: StreamId) -> bool {
    for stream_at in 0..STREAMS {
        let at = MemberPlace {
            stream: stream_at,
            member: 0,
        };
        let Reply::Standing(standing) = gate.post(Event::Standing(sub, at)) else {
            return false;
        };
        match standing.stream {
            Some(found) if found.stream == stream => return found.is_on,
            Some(_) => {}
            None => return false,
        }
    }
    false
}

/// How this setup defines a stream, if it does.
fn definition_by(setup: &Setup, sub: SubId, stream: StreamId) -> Option<&Definition> {
    let subscriber = setup.subscribers.iter().find(|it| it.sub == sub)?;
    subscriber.streams.iter().find(|it| it.stream == stream)
}

/// How these edits define a stream, if they do.
fn definition_in(edits: &[Edit], sub: SubId, stream: StreamId) -> Option<&Definition> {
    for edit in edits {
        if let Edit::Define(of, definition) = edit {
            if *of == sub && definition.stream == stream {
                return Some(definition);
            }
        }
    }
    None
}

/// Whether both have the same members in the same order.
fn have_same_members(before: Option<&Definition>, after: Option<&Definition>) -> bool {
    match (before, after) {
        (Some(before), Some(after)) => before.members.as_slice() == after.members.as_slice(),
        _ => false,
    }
}
