//! A tape: the calls that one worker has recorded and not yet handed over. It never keeps more than there was room for when it was made: a
//! record that finds no room is missed, and its place is a gap.

ghost use Rattle.std.specs.Prelude.{◌≡◌, ◌++◌, ◌≤◌, [], IfOk, None, length, nat_eq, take, drop, vec_capacity};
ghost use Rattle.pg_record.specs.Taping.{Taped, begun, ended, ended_drain, front_bytes, spelled, spelled_call};

use crate::checksum::short_sum;
use crate::record::{DONE, Record, RecordKind, record_end, record_start};
use std::alloc::{AllocError, Global};
use std::marker::Model;
use std::mem;

/// How many bytes the rest of a body has at most, so that two bytes count it with the longest front.
const MOST_REST: usize = 65_527;

/// The first bytes of a body, as a number of that many bytes.
#[derive(Clone, Copy, PartialEq, Eq)]
pub enum Front {
    /// None.
    Nothing,
    /// Four.
    Four(u32),
    /// Eight.
    Eight(u64),
}

/// A call on a tape. Behind the front of its body comes the rest, which stands among the bodies of the tape.
#[derive(Clone, Copy, PartialEq, Eq)]
pub struct TapedCall {
    /// The record, but for its body.
    pub entry: Record,
    /// The front of the body.
    pub front: Front,
    /// Where the rest of the body begins.
    pub from: usize,
    /// How many bytes the rest has.
    pub len: usize,
}

/// Calls as they are on a tape, in their order, and their bodies.
#[derive(Drop)]
pub struct TapedCalls {
    /// The calls.
    pub calls: Vec<TapedCall>,
    /// Their bodies, but for the fronts.
    pub bodies: Vec<u8>,
}

impl TapedCalls {
    /// No calls, with room for so many, and for bodies of so many bytes in all.
    ///
    /// # Errors
    ///
    /// There is no memory for them.
    pub fn with_capacity(
        alloc: Global,
        calls: usize,
        bytes: usize,
    ) -> Result<TapedCalls, AllocError>
        ensures empty { IfOk result (λ t. (t.calls.items ≡ []) × (t.bodies.items ≡ []) × (calls ≤ vec_capacity t.calls) × (bytes ≤ vec_capacity t.bodies)) }
    {
        Ok(TapedCalls {
            calls: Vec::with_capacity(alloc, calls)?,
            bodies: Vec::with_capacity(alloc, bytes)?,
        })
    }

    /// No calls, and room for none.
    pub fn none(alloc: Global) -> TapedCalls
        ensures empty { (result.calls.items ≡ []) × (result.bodies.items ≡ []) }
    {
        TapedCalls {
            calls: Vec::new(alloc),
            bodies: Vec::new(alloc),
        }
    }

    /// Whether there is no call.
    pub fn is_empty(&self) -> bool
        ensures { result ≡ nat_eq (length self.now.calls.items) 0 }
    {
        self.calls.is_empty()
    }

    /// Removes all calls.
    fn clear(&mut self)
        ensures calls { (self.new.calls.items ≡ []) × (vec_capacity self.new.calls ≡ vec_capacity self.old.calls) }
        ensures bodies { (self.new.bodies.items ≡ []) × (vec_capacity self.new.bodies ≡ vec_capacity self.old.bodies) }
    {
        self.calls.clear();
        self.bodies.clear();
    }

    /// The rest of a call's body.
    fn rest_of(&self, call: &TapedCall) -> &[u8]
        ensures { result.now ≡ take call.now.len (drop call.now.from self.now.bodies.items) }
    {
        let behind = match self.bodies.split_at_checked(call.from) {
            Some((_, behind)) => behind,
            None => &[],
        };
        match behind.split_at_checked(call.len) {
            Some((rest, _)) => rest,
            None => behind,
        }
    }

    /// Appends the records to these bytes.
    ///
    /// # Errors
    ///
    /// There is no memory for them.
    pub fn write_to(&self, out: &mut Vec<u8>) -> Result<(), AllocError>
        ensures written { IfOk result (λ _. out.new.items ≡ out.old.items ++ spelled self.now.bodies.items self.now.calls.items) }
    {
        let mut left = self.calls.as_slice();
        'calls: while let Some((call, rest)) = left.split_first() {
            self.write_call(call, out)?;
            left = rest;
        }
        Ok(())
    }

    /// Appends the record of a call to these bytes. One whose body has more bytes than two bytes count is left out.
    ///
    /// # Errors
    ///
    /// There is no memory for it.
    pub fn write_call(&self, call: &TapedCall, out: &mut Vec<u8>) -> Result<(), AllocError>
        ensures written { IfOk result (λ _. out.new.items ≡ out.old.items ++ spelled_call self.now.bodies.items call.now) }
    {
        let rest = self.rest_of(call);
        let Ok(size) = u16::try_from(call.front.len() + rest.len()) else {
            return Ok(());
        };
        let record = &call.entry;
        let start = record_start(record.kind, record.number, size);
        write_parts(out, &start, call.front, rest, &record_end(record))
    }
}

/// Appends the parts of a record to these bytes.
fn write_parts(
    out: &mut Vec<u8>,
    start: &[u8],
    front: Front,
    rest: &[u8],
    end: &[u8],
) -> Result<(), AllocError>
    ensures written { IfOk result (λ _. out.new.items ≡ out.old.items ++ start.now ++ front_bytes front ++ rest.now ++ end.now) }
{
    out.extend_from_slice(start)?;
    front.write_to(out)?;
    out.extend_from_slice(rest)?;
    out.extend_from_slice(end)
}

impl Front {
    /// How many bytes it has.
    fn len(self) -> usize
        ensures { result ≡ length (front_bytes self) }
    {
        match self {
            Front::Nothing => 0,
            Front::Four(_) => 4,
            Front::Eight(_) => 8,
        }
    }

    /// Appends it to these bytes.
    fn write_to(self, out: &mut Vec<u8>) -> Result<(), AllocError>
        ensures written { IfOk result (λ _. out.new.items ≡ out.old.items ++ front_bytes self) }
    {
        match self {
            Front::Nothing => Ok(()),
            Front::Four(number) => out.extend_from_slice(&number.to_be_bytes()),
            Front::Eight(number) => out.extend_from_slice(&number.to_be_bytes()),
        }
    }
}

/// Calls of one worker, in the order in which it made them. A record is begun before its call, since the call takes the event, and ended
/// behind it, when its place is known.
#[derive(Drop)]
pub struct Tape {
    taped: TapedCalls,
    // Of the record that was begun: its kind, its number, the front of its body, and where the rest begins.
    begun: Option<(RecordKind, u16, Front, usize)>,
    missed: u64,
}

impl Model for Tape {
    ghost use Rattle.std.specs.Prelude.{◌<◌, length, vec_capacity, IfSome};
    ghost use Rattle.pg_record.specs.Taping.{Taped};

    ghost Value = { Taped };

    ghost view = { λ t. record { calls = t.taped.calls.items; bodies = t.taped.bodies.items; begun = t.begun; most = vec_capacity t.taped.calls; room = vec_capacity t.taped.bodies; missed = t.missed } };

    ghost invariant = { λ t. IfSome t.begun (λ _. length t.taped.calls.items < vec_capacity t.taped.calls) };
}

impl Tape {
    /// An empty tape with room for so many calls, and for bodies of so many bytes in all.
    ///
    /// # Errors
    ///
    /// There is no memory for them.
    pub fn new(alloc: Global, calls: usize, bytes: usize) -> Result<Tape, AllocError>
        ensures empty { IfOk result (λ t. (t.calls ≡ []) × (t.bodies ≡ []) × (t.begun ≡ None) × (calls ≤ t.most) × (bytes ≤ t.room) × (t.missed ≡ 0)) }
    {
        Ok(Tape {
            taped: TapedCalls::with_capacity(alloc, calls, bytes)?,
            begun: None,
            missed: 0,
        })
    }

    /// How many calls it has.
    #[inline(always)]
    pub fn calls(&self) -> usize
        ensures { result ≡ length self.now.calls }
    {
        self.taped.calls.len()
    }

    /// How many bytes their bodies have, but for their fronts.
    #[inline(always)]
    pub fn bytes(&self) -> usize
        ensures { result ≡ length self.now.bodies }
    {
        self.taped.bodies.len()
    }

    /// Whether it has no call.
    #[inline(always)]
    pub fn is_empty(&self) -> bool
        ensures { result ≡ nat_eq (length self.now.calls) 0 }
    {
        self.taped.is_empty()
    }

    /// How many records found no room so far.
    pub fn missed(&self) -> u64
        ensures { result ≡ self.now.missed }
    {
        self.missed
    }

    /// Begins a record with this body, which is given in two pieces, where there is room for it. One that was begun and not ended is
    /// forgotten.
    #[inline(always)]
    pub fn begin(&mut self, kind: RecordKind, number: u16, front: Front, rest: &[u8])
        ensures state { self.new ≡ record (begun self.old kind number front rest.now) { room = self.new.room } }
        ensures room { self.old.room ≤ self.new.room }
    {
        self.begun = None;
        let calls = &self.taped.calls;
        let bodies = &mut self.taped.bodies;
        let from = bodies.len();
        let is_short = rest.len() <= MOST_REST && rest.len() <= bodies.capacity() - from;
        if calls.len() < calls.capacity() && is_short {
            // There is room for it.
            let _ = bodies.extend_from_slice(rest);
            self.begun = Some((kind, number, front, from));
        }
    }

    /// Ends the record that was begun, with the place of its call. Where it found no room it is missed.
    #[inline(always)]
    pub fn end(&mut self, place: u64, at: u16, answer: u8, handed: u16, sum: u32)
        ensures { self.new ≡ ended self.old place at answer handed sum }
    {
        let Some((kind, number, front, from)) = self.begun.take() else {
            self.missed = self.missed.saturating_add(1);
            return;
        };
        let entry = Record {
            kind,
            number,
            place,
            at,
            answer,
            handed,
            sum,
        };
        let len = self.taped.bodies.len().saturating_sub(from);
        self.taped.calls.push_reserved(TapedCall {
            entry,
            front,
            from,
            len,
        });
    }

    /// Ends the record of a drain that handed these bytes out, with how many they are, at most 65,535, and their sum, which is 0 where there is
    /// none.
    #[inline(never)]
    pub fn end_drain(&mut self, place: u64, at: u16, handed: &[u8])
        ensures { self.new ≡ ended_drain self.old place at handed.now }
    {
        let size = u16::try_from(handed.len()).unwrap_or(u16::MAX);
        let sum = if handed.is_empty() {
            0
        } else {
            short_sum(handed)
        };
        self.end(place, at, DONE, size, sum);
    }

    /// Hands its calls over, and goes on with these, which are emptied.
    pub fn take(&mut self, spare: TapedCalls) -> TapedCalls
        ensures whole { (result.calls.items ≡ self.old.calls) × (result.bodies.items ≡ self.old.bodies) }
        ensures rest { self.new ≡ record self.old { calls = []; bodies = []; begun = None; most = vec_capacity spare.calls; room = vec_capacity spare.bodies } }
    {
        let mut spare = spare;
        spare.clear();
        self.begun = None;
        mem::replace(&mut self.taped, spare)
    }
}
