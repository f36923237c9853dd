//! What an edit asks for, in words.

use crate::journal::Subject;
use pg_gateway::Edit;
use pg_wire::{PmuId, PmuKey, Refusal, StreamId};
use std::fmt;

/// What an edit of a setup asks for, of a subscriber or of a source's PMU.
#[derive(Clone, Copy, Debug, PartialEq, Eq)]
pub enum Asked {
    /// The PMU of the source is registered.
    AddPmu(PmuId),
    /// It is registered no longer.
    DropPmu(PmuId),
    /// The subscriber is added.
    AddSub,
    /// It is dropped.
    DropSub,
    /// It may have the PMU.
    Grant(PmuKey),
    /// It may have it no longer.
    Revoke(PmuKey),
    /// It has a stream of this IDCODE.
    Define(StreamId),
    /// It has it no longer.
    Remove(StreamId),
}

impl Asked {
    /// What this edit asks for, and of which one; `None` where it asks for counters alone.
    pub fn of(edit: &Edit) -> Option<(Subject, Asked)> {
        let asked = match edit {
            Edit::AddPmu(key) => (Subject::Source(key.source), Asked::AddPmu(key.pmu)),
            Edit::DropPmu(key) => (Subject::Source(key.source), Asked::DropPmu(key.pmu)),
            Edit::AddSub(sub, ..) => (Subject::Subscriber(*sub), Asked::AddSub),
            Edit::DropSub(sub) => (Subject::Subscriber(*sub), Asked::DropSub),
            Edit::Grant(sub, key) => (Subject::Subscriber(*sub), Asked::Grant(*key)),
            Edit::Revoke(sub, key) => (Subject::Subscriber(*sub), Asked::Revoke(*key)),
            Edit::Define(sub, definition) => {
                (Subject::Subscriber(*sub), Asked::Define(definition.stream))
            }
            Edit::Remove(sub, stream) => (Subject::Subscriber(*sub), Asked::Remove(*stream)),
            Edit::Stats(_) | Edit::PmuStats(_) | Edit::Audit(..) => return None,
        };
        Some(asked)
    }
}

/// What was done.
pub(crate) fn write_done<W: fmt::Write>(asked: Asked, f: &mut fmt::Formatter<W>) -> fmt::Result {
    write_edited(&asked, f)?;
    let done = participle(&asked);
    match asked {
        Asked::AddSub | Asked::DropSub => f.write_str(done),
        _ => write!(f, "is {done}"),
    }
}

/// What can't be done.
pub(crate) fn write_asked<W: fmt::Write>(asked: Asked, f: &mut fmt::Formatter<W>) -> fmt::Result {
    write_edited(&asked, f)?;
    let done = participle(&asked);
    write!(f, "can't be {done}")
}

/// What is edited, where it is not the subscriber that is named before.
fn write_edited<W: fmt::Write>(asked: &Asked, f: &mut fmt::Formatter<W>) -> fmt::Result {
    match asked {
        Asked::AddPmu(pmu) | Asked::DropPmu(pmu) => write!(f, "PMU {} ", pmu.get()),
        Asked::AddSub | Asked::DropSub => Ok(()),
        Asked::Grant(key) => write!(f, "PMU {}/{} ", key.source.get(), key.pmu.get()),
        Asked::Revoke(key) => {
            let (source, pmu) = (key.source.get(), key.pmu.get());
            write!(f, "the grant of PMU {source}/{pmu} ")
        }
        Asked::Define(stream) | Asked::Remove(stream) => write!(f, "stream {} ", stream.get()),
    }
}

/// What an edit does to it.
fn participle(asked: &Asked) -> &'static str {
    match asked {
        Asked::AddPmu(_) => "registered",
        Asked::DropPmu(_) | Asked::DropSub => "dropped",
        Asked::AddSub => "added",
        Asked::Grant(_) => "granted",
        Asked::Revoke(_) => "revoked",
        Asked::Define(_) => "defined",
        Asked::Remove(_) => "removed",
    }
}

/// Why a running gateway refuses an edit.
pub(crate) fn why(refusal: Refusal) -> &'static str {
    match refusal {
        Refusal::NoMemory => "out of memory",
        Refusal::NoSuchPmu => "the PMU is not registered",
        Refusal::PmuExists => "the PMU is registered already",
        Refusal::PmusFull => "256 PMUs are registered, the most possible",
        Refusal::NoSuchSub => "there is no such subscriber",
        Refusal::SubExists => "there is a subscriber of this number already",
        Refusal::SubsFull => "there are 64 subscribers, the most possible",
        Refusal::GrantsFull => "the subscriber has 32 grants, the most possible",
        Refusal::NotGranted => "the PMU is not granted to it",
        Refusal::NoSuchStream => "the subscriber has no such stream",
        Refusal::StreamExists => "the subscriber has a stream of this IDCODE already",
        Refusal::StreamsFull => "the subscriber has 8 streams, the most possible",
        Refusal::BadDefinition => "a value of it is outside its range",
        _ => "the gateway refuses it",
    }
}
