//! The audit of a subscriber. A clause sees the last turn and the entries that stand, the oldest first.
ghost use Rattle.std.specs.Prelude.{◌≡◌, ◌∷◌, ◌++◌, [], slice_get, reverse, List, IfOk, IfErr};
ghost use Rattle.pg_audit.specs.Noting.{Noted, with_entry, ShowsAudit, newest_at};

use circular_buffer::HeapCircularBuffer;
use pg_wire::Refusal;
use std::alloc::{AllocError, Global};
use std::marker::Model;

/// The kind of event that an entry notes, with the number by which it is printed.
#[derive(Clone, Copy, Debug, PartialEq, Eq)]
pub enum What {
    /// The subscriber was added, or it was there already.
    AddSub = 1,
    /// A PMU was granted.
    Grant = 2,
    /// A grant was taken back, also because its PMU was dropped.
    Revoke = 3,
    /// A stream was defined.
    Define = 4,
    /// A stream was removed.
    Remove = 5,
    /// The subscriber connected.
    Connect = 6,
    /// The subscriber was hung up.
    Hangup = 7,
    /// A command came.
    Command = 8,
}

impl What {
    ghost use Rattle.pg_audit.specs.Noting.{what_number};

    /// Its number, from 1 to 8.
    pub fn number(self) -> u8
        ensures { result ≡ what_number self }
    {
        self as u8
    }
}

/// One entry of an audit.
#[derive(Clone, Copy, Debug, PartialEq, Eq)]
pub struct Entry {
    /// The count of the subscriber's entries with this one: from 1, and at most 2^64 - 1.
    pub turn: u64,
    /// The kind of event that it notes.
    pub what: What,
    /// Why the event was refused, or `None` where it was done.
    pub code: Option<Refusal>,
}

impl Entry {
    ghost use Rattle.pg_audit.specs.Noting.{result_number};

    /// The number of its result, by which it is printed: 0 for done, else that of the refusal.
    pub fn result_number(&self) -> u8
        ensures { result ≡ result_number self.now.code }
    {
        match self.code {
            None => 0,
            Some(refusal) => refusal.number(),
        }
    }
}

/// The audit of a subscriber: the newest 64 entries of all that was noted. Only `new` takes memory.
#[derive(Drop)]
pub struct Audit {
    turn: u64,
    entries: HeapCircularBuffer<Entry>,
}

impl Model for Audit {
    ghost use Rattle.std.specs.Prelude.{◌≡◌};
    ghost use Rattle.pg_audit.specs.Noting.{AuditValue};

    ghost Value = { AuditValue };

    ghost view = { λ a. record { turn = a.turn; entries = a.entries.items } };

    ghost invariant = { λ a. a.entries.capacity ≡ 64 };
}

impl Audit {
    /// An audit with no entry, with room reserved for 64. Refused with `NoMemory` alone.
    pub fn new(alloc: Global) -> Result<Audit, Refusal>
        ensures empty { IfOk result (λ audit. audit ≡ record { turn = 0; entries = [] }) }
        ensures shows { IfOk result (λ audit. ShowsAudit audit []) }
        ensures memory { IfErr result (λ refusal. refusal ≡ Refusal.NoMemory) }
    {
        Ok(Audit {
            turn: 0,
            entries: HeapCircularBuffer::with_capacity(alloc, 64)?,
        })
    }

    /// Notes an event: `code` is why it was refused, or `None` where it was done. The oldest entry goes where 64 stand.
    pub fn note(&mut self, what: What, code: Option<Refusal>)
        ensures entry { self.new ≡ with_entry self.old (what, code) }
        ensures shows { (noted : List Noted) → ShowsAudit self.old noted → ShowsAudit self.new (noted ++ (what, code) ∷ []) }
    {
        self.turn = self.turn.saturating_add(1);
        let entry = Entry {
            turn: self.turn,
            what,
            code,
        };
        let _oldest = self.entries.push_back(entry);
    }

    /// The entry at `index`, 0 the newest; `None` where there is none, and so from 64 on.
    pub fn last(&self, index: usize) -> Option<Entry>
        ensures entry { result ≡ slice_get (reverse self.now.entries) index }
        ensures noted { (noted : List Noted) → ShowsAudit self.now noted → result ≡ newest_at noted index }
    {
        let held = self.entries.len();
        if index < held {
            self.entries.get(held - 1 - index).copied()
        } else {
            None
        }
    }
}

#[cfg(test)]
mod tests;
