//! What subscribers were handed and what they lost in the last five minutes.

ghost use Rattle.std.specs.Prelude.{◌≡◌, ◌≤◌, ◌++◌, ◌∷◌, [], IfOk, length};
ghost use Rattle.circular_buffer.specs.Buffer.{keep_last};
ghost use Rattle.pg_status.specs.Seconds.{frames_since, growth};

use circular_buffer::HeapCircularBuffer;
use pg_wire::SubId;
use std::alloc::{AllocError, Global};
use std::marker::Model;

/// How many seconds are remembered.
pub const SECONDS: usize = 300;

/// Data frames of a subscriber: counts since it was added, or those of one second.
#[derive(Clone, Copy, PartialEq, Eq)]
pub struct Frames {
    /// Those handed out.
    pub handed: u64,
    /// Those dropped.
    pub dropped: u64,
}

/// How much a count has grown. One that is smaller than before has begun anew.
fn grown(before: u64, total: u64) -> u64
    ensures { result ≡ growth before total }
{
    if before <= total {
        total - before
    } else {
        total
    }
}

/// What a subscriber was handed and what it lost in each of the last 300 seconds. It takes memory when it is made, and
/// none later.
#[derive(Drop)]
pub struct Past {
    before: Frames,
    seconds: HeapCircularBuffer<Frames>,
}

impl Model for Past {
    ghost use Rattle.std.specs.Prelude.{◌≡◌};
    ghost use Rattle.pg_status.specs.Seconds.{Remembered};

    ghost Value = { Remembered };

    ghost view = { λ p. record { before = p.before; seconds = p.seconds.items } };

    ghost invariant = { λ p. p.seconds.capacity ≡ 300 };
}

impl Past {
    /// No second is remembered, and its counts begin at 0.
    ///
    /// # Errors
    ///
    /// There is no memory.
    pub fn new(alloc: Global) -> Result<Past, AllocError>
        ensures { IfOk result (λ past. past ≡ record { before = record { handed = 0; dropped = 0 }; seconds = [] }) }
    {
        Ok(Past {
            before: Frames {
                handed: 0,
                dropped: 0,
            },
            seconds: HeapCircularBuffer::with_capacity(alloc, SECONDS)?,
        })
    }

    /// A second has passed, and its counts are these now. The oldest second beyond 300 is forgotten.
    pub fn note(&mut self, total: Frames)
        ensures seconds { self.new.seconds ≡ keep_last 300 (self.old.seconds ++ frames_since self.old.before total ∷ []) }
        ensures before { self.new.before ≡ total }
    {
        self.seconds.push_back(Frames {
            handed: grown(self.before.handed, total.handed),
            dropped: grown(self.before.dropped, total.dropped),
        });
        self.before = total;
    }

    /// How many seconds are remembered, at most 300.
    pub fn len(&self) -> usize
        ensures value { result ≡ length self.now.seconds }
        ensures most { result ≤ 300 }
    {
        self.seconds.len()
    }

    /// The frames of each second that is remembered, the oldest first.
    ///
    /// # Errors
    ///
    /// There is no memory.
    pub fn seconds(&self, alloc: Global) -> Result<Vec<Frames>, AllocError>
        ensures { IfOk result (λ frames. frames.items ≡ self.now.seconds) }
    {
        self.seconds.to_vec(alloc)
    }
}

/// The counts of a subscriber.
#[derive(Clone, Copy, PartialEq, Eq)]
pub struct Total {
    /// The subscriber.
    pub sub: SubId,
    /// Its data frames since it was added.
    pub frames: Frames,
}

/// A subscriber that is remembered.
#[derive(Drop)]
struct Kept {
    sub: SubId,
    past: Past,
}

/// What all subscribers were handed and what they lost in the last five minutes.
#[derive(Drop)]
pub struct History {
    alloc: Global,
    kept: Vec<Kept>,
}

impl History {
    /// Nothing is remembered.
    pub fn new(alloc: Global) -> History {
        History {
            alloc,
            kept: Vec::new(alloc),
        }
    }

    /// A second has passed, and these are the counts of all subscribers now. One that is not among them any more is forgotten.
    ///
    /// # Errors
    ///
    /// There is no memory for a new one. Those behind it in the list miss this second.
    pub fn note(&mut self, totals: &[Total]) -> Result<(), AllocError> {
        self.kept.retain(|kept| has(totals, kept.sub));
        for total in totals {
            self.note_one(*total)?;
        }
        Ok(())
    }

    /// What is remembered of a subscriber.
    pub fn past_of(&self, sub: SubId) -> Option<&Past> {
        let place = self.kept.iter().position(|kept| kept.sub == sub)?;
        match self.kept.get(place) {
            Some(kept) => Some(&kept.past),
            None => None,
        }
    }

    /// Notes the counts of one subscriber.
    fn note_one(&mut self, total: Total) -> Result<(), AllocError> {
        let found = self.kept.iter().position(|kept| kept.sub == total.sub);
        if let Some(place) = found {
            if let Some(kept) = self.kept.get_mut(place) {
                kept.past.note(total.frames);
            }
            return Ok(());
        }
        let mut past = Past::new(self.alloc)?;
        past.note(total.frames);
        let sub = total.sub;
        self.kept.push(Kept { sub, past })?;
        Ok(())
    }
}

/// Whether a subscriber is among these.
fn has(totals: &[Total], sub: SubId) -> bool {
    totals.iter().any(|total| total.sub == sub)
}
