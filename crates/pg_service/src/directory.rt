//! Which sources have PMUs, and what workers have to do after an edit.

use crate::assignment::Assignment;
use crate::edits_in_force::EditsInForce;
use pg_gateway::{Edit, Reply};
use pg_limits::least_room;
use pg_wire::{PmuId, PmuKey, Refusal, SubId};
use std::alloc::Global;

/// As many PMUs as a gateway has at most.
const MOST: usize = 256;

/// As many subscribers as a gateway has at most.
const MOST_SUBS: usize = 64;

/// What workers have to do after an edit that was done.
#[derive(Clone, Copy, Debug, PartialEq, Eq)]
pub enum FollowUp {
    /// Nothing.
    Nothing,
    /// This source has a new PMU: it is to be called anew, so that it announces again.
    Renew(PmuId),
    /// This source has no PMU any more: its connection ends.
    Rest(PmuId),
    /// This subscriber is dropped: its connection ends.
    HangUp(SubId),
}

/// What an edit changes, as far as workers are concerned.
#[derive(Clone, Copy, PartialEq, Eq)]
pub enum Change {
    /// A PMU is registered.
    Adds(PmuKey),
    /// A PMU leaves the registry.
    Drops(PmuKey),
    /// A subscriber is added, with a ring of so many frames.
    Enters(SubId, u16),
    /// A subscriber leaves.
    Leaves(SubId),
    /// A subscriber has one stream more.
    Defines(SubId),
    /// A subscriber has one stream less.
    Removes(SubId),
    /// Something else.
    Other,
}

impl Change {
    /// What this edit changes.
    pub fn of(edit: &Edit) -> Change {
        match edit {
            Edit::AddPmu(key) => Change::Adds(*key),
            Edit::DropPmu(key) => Change::Drops(*key),
            Edit::AddSub(sub, ring, _) => Change::Enters(*sub, ring.get()),
            Edit::DropSub(sub) => Change::Leaves(*sub),
            Edit::Define(sub, _) => Change::Defines(*sub),
            Edit::Remove(sub, _) => Change::Removes(*sub),
            _ => Change::Other,
        }
    }

    /// Whether it concerns the rings of subscribers, or their streams.
    pub fn is_of_ring(&self) -> bool {
        match self {
            Change::Enters(..) | Change::Leaves(_) | Change::Defines(_) | Change::Removes(_) =>
                true,
            Change::Adds(_) | Change::Drops(_) | Change::Other => false,
        }
    }
}

/// The PMUs and subscribers that are registered at the gateway, by the edits that were done, and whose workers serve them.
#[derive(Drop)]
pub struct Directory {
    /// Which workers call which sources.
    pub callers: Assignment,
    /// Which workers serve which subscribers.
    pub servers: Assignment,
    /// The edits by which the gateway is what it is.
    pub in_force: EditsInForce,
    pmus: Vec<PmuKey>,
    subscribers: Vec<SubId>,
    // The frames that the ring of each holds, and its streams, in the same order.
    rings: Vec<(u16, u16)>,
}

impl Directory {
    /// None is registered. There is room for as many as a gateway has at most.
    ///
    /// # Errors
    ///
    /// `NoMemory`.
    pub fn new(alloc: Global) -> Result<Directory, Refusal> {
        Ok(Directory {
            callers: Assignment::new(alloc),
            servers: Assignment::new(alloc),
            in_force: EditsInForce::new(alloc),
            pmus: Vec::with_capacity(alloc, MOST)?,
            subscribers: Vec::with_capacity(alloc, MOST_SUBS)?,
            rings: Vec::with_capacity(alloc, MOST_SUBS)?,
        })
    }

    /// The PMUs, in no order.
    pub fn pmus(&self) -> &[PmuKey] {
        self.pmus.as_slice()
    }

    /// The subscribers, in no order.
    pub fn subscribers(&self) -> &[SubId] {
        self.subscribers.as_slice()
    }

    /// Whether a PMU of this source is registered.
    pub fn has(&self, source: PmuId) -> bool {
        self.pmus.iter().any(|key| key.source == source)
    }

    /// A PMU is not registered any more.
    fn drop_key(&mut self, reason: PmuKey) {
        if let Some(place) = self.pmus.iter().position(|key| *key == reason) {
            self.pmus.swap_remove(place);
        }
    }

    /// A subscriber is there no more.
    fn drop_sub(&mut self, reason: SubId) {
        if let Some(place) = self.subscribers.iter().position(|sub| *sub == reason) {
            self.subscribers.swap_remove(place);
            if place < self.rings.len() {
                self.rings.swap_remove(place);
            }
        }
    }

    /// A subscriber has one stream more, or one less.
    fn count_stream(&mut self, of: SubId, is_more: bool) {
        let Some(place) = self.subscribers.iter().position(|sub| *sub == of) else {
            return;
        };
        if let Some((_, streams)) = self.rings.get_mut(place) {
            *streams = if is_more {
                streams.saturating_add(1)
            } else {
                streams.saturating_sub(1)
            };
        }
    }

    /// How many events at least fill the ring of a subscriber, where each makes a frame of each of its streams. One at least.
    pub fn room(&self) -> u32 {
        least_room(self.rings.as_slice())
    }

    /// Keeps what an edit changed that was answered so, and returns what workers have to do.
    ///
    /// # Errors
    ///
    /// `NoMemory`, where more PMUs or subscribers are registered than a gateway has.
    pub fn note(&mut self, change: Change, reply: &Reply) -> Result<FollowUp, Refusal> {
        let Reply::Done { .. } = reply else {
            return Ok(FollowUp::Nothing);
        };
        match change {
            Change::Adds(key) => {
                let source = key.source;
                self.pmus.push(key)?;
                Ok(FollowUp::Renew(source))
            }
            Change::Drops(key) => {
                let source = key.source;
                self.drop_key(key);
                if self.has(source) {
                    Ok(FollowUp::Nothing)
                } else {
                    Ok(FollowUp::Rest(source))
                }
            }
            Change::Enters(sub, ring) => {
                self.subscribers.push(sub)?;
                self.rings.push((ring, 0))?;
                Ok(FollowUp::Nothing)
            }
            Change::Defines(sub) => {
                self.count_stream(sub, true);
                Ok(FollowUp::Nothing)
            }
            Change::Removes(sub) => {
                self.count_stream(sub, false);
                Ok(FollowUp::Nothing)
            }
            Change::Leaves(sub) => {
                self.drop_sub(sub);
                Ok(FollowUp::HangUp(sub))
            }
            Change::Other => Ok(FollowUp::Nothing),
        }
    }
}
