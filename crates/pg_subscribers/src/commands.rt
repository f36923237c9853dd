//! Commands that are posted in a subscriber's name.

ghost use Rattle.std.specs.Prelude.{◌≡◌};
ghost use Rattle.pg_service.specs.Posts.{OwnOnly};

use pg_command::{Command, Word};
use pg_gateway::{Event, Gate, Reply};
use pg_wire::{Refusal, SubId};

/// What came of a command for CFG-2 that was posted in a subscriber's name.
#[derive(Clone, Copy, PartialEq, Eq)]
pub(crate) enum Posted {
    /// CFG-2 is among the replies.
    Done,
    /// There is no such stream, or its subscriber is not connected.
    Refused,
    /// Too many replies wait, or there is no memory: it is to be posted again.
    Later,
}

/// Asks for CFG-2 of a stream in its subscriber's name.
pub(crate) fn post_config<G: Gate>(sub: SubId, stream: u16, gate: &mut G) -> Posted
    // It posts of its own subscriber alone.
    ensures own { OwnOnly sub (G.posts gate.old) (G.posts gate.new) }
{
    let reply = post_word(sub, stream, Word::SendCfgTwo, gate);
    posted_by(&reply)
}

/// Asks for CFG-2 of a stream and starts it, in its subscriber's name. Where the CFG-2 has to wait it is not started.
#[tactic(auto, using(crate::proofs::Own::own_more))]
pub(crate) fn post_resume<G: Gate>(sub: SubId, stream: u16, gate: &mut G) -> Posted
    // It posts of its own subscriber alone.
    ensures own { OwnOnly sub (G.posts gate.old) (G.posts gate.new) }
{
    let posted = post_config(sub, stream, gate);
    if posted == Posted::Done {
        post_word(sub, stream, Word::StartData, gate);
    }
    posted
}

/// What came of a command that was answered so.
fn posted_by(reply: &Reply) -> Posted {
    match reply {
        Reply::Done { .. } => Posted::Done,
        Reply::Refused(Refusal::ReplyFull | Refusal::NoMemory) => Posted::Later,
        _ => Posted::Refused,
    }
}

/// Posts a command to a stream.
fn post_word<G: Gate>(sub: SubId, stream: u16, word: Word, gate: &mut G) -> Reply
    ensures own { OwnOnly sub (G.posts gate.old) (G.posts gate.new) }
{
    let command = Command {
        stream,
        word: word.number(),
    };
    gate.post(Event::Command(sub, command))
}
