//! What became of the blocks of a stream's members, frame by frame.

use pg_session::StreamStanding;
use pg_stream::{Definition, slot_of};
use pg_wire::{PmuKey, Refusal, StreamId};
use std::alloc::{AllocError, Global};
use std::collections::VecDeque;

/// How many slots without a frame are kept of a stream.
const MOST_OPEN: usize = 4_096;

/// For how many milliseconds a stream has no frame before none is waited for.
const QUIET_MS: u64 = 600_000;

/// What became of a member's block in a slot. Times are milliseconds since 1970-01-01 00:00 UTC.
#[derive(Clone, Copy, PartialEq, Eq)]
pub(crate) enum Fate {
    /// It came then, and is in the frame.
    Came(u64),
    /// It came then, after the frame had left.
    Late(u64),
    /// It came then, and was refused.
    Refused(u64, Refusal),
    /// None came that could be read: then a frame of the source was ignored for this reason, which by its time was that of the slot.
    Ignored(u64, Refusal),
    /// None came.
    Nothing,
    /// The frame has no place for it, since the PMU is not granted to the subscriber.
    NotGranted,
    /// The frame has no place for it, since the PMU is not announced.
    NotAnnounced,
}

/// Why a frame left.
#[derive(Clone, Copy, PartialEq, Eq)]
pub(crate) enum Cause {
    /// The block of each member that the frame has a place for had come.
    Complete,
    /// Its slot had waited long enough.
    Waited,
    /// More slots than the window were open.
    Pushed,
    /// The members of the stream, or their blocks, changed.
    Changed,
}

/// What became of a frame that had left.
#[derive(Clone, Copy, PartialEq, Eq)]
pub(crate) enum Handing {
    /// It waits in the queue.
    Waiting,
    /// It was handed out at this time, and so many frames of its stream before it were dropped.
    Handed(u64, u64),
    /// It was dropped, since the queue was full.
    Dropped,
    /// It was cleared, since the connection ended.
    Cleared,
}

/// A data frame of a stream.
#[derive(Drop)]
pub(crate) struct MadeFrame {
    pub(crate) stream: StreamId,
    /// Its slot, SOC and FRACSEC's numerator of that, and its time in milliseconds.
    pub(crate) slot: u64,
    pub(crate) stamp: (u32, u32),
    pub(crate) time: u64,
    /// When it left, and why.
    pub(crate) left: u64,
    pub(crate) cause: Cause,
    /// What became of each member's block. It is empty where nobody asks for the frame.
    pub(crate) fates: Vec<(PmuKey, Fate)>,
    pub(crate) handing: Handing,
}

/// How many frames of a stream left for each cause.
#[derive(Clone, Copy)]
pub(crate) struct Causes {
    complete: u64,
    waited: u64,
    pushed: u64,
    changed: u64,
}

impl Causes {
    /// None.
    pub(crate) fn none() -> Causes {
        Causes {
            complete: 0,
            waited: 0,
            pushed: 0,
            changed: 0,
        }
    }

    /// Those that a stream counted.
    pub(crate) fn counted(stream: &StreamStanding) -> Causes {
        Causes {
            complete: stream.complete,
            waited: stream.waited,
            pushed: stream.pushed,
            changed: stream.changed,
        }
    }

    /// Those that are not in an earlier count.
    pub(crate) fn since(self, earlier: Causes) -> Causes {
        Causes {
            complete: self.complete.saturating_sub(earlier.complete),
            waited: self.waited.saturating_sub(earlier.waited),
            pushed: self.pushed.saturating_sub(earlier.pushed),
            changed: self.changed.saturating_sub(earlier.changed),
        }
    }

    /// How many they are.
    pub(crate) fn sum(self) -> u64 {
        self.complete
            .saturating_add(self.waited)
            .saturating_add(self.pushed)
            .saturating_add(self.changed)
    }

    /// Takes one of them: for a frame without a filler that of a complete one, if there is one.
    pub(crate) fn take(&mut self, has_filler: bool) -> Cause {
        if !has_filler && self.complete > 0 {
            self.complete -= 1;
            return Cause::Complete;
        }
        if self.waited > 0 {
            self.waited -= 1;
            return Cause::Waited;
        }
        if self.pushed > 0 {
            self.pushed -= 1;
            return Cause::Pushed;
        }
        if self.changed > 0 {
            self.changed -= 1;
            return Cause::Changed;
        }
        self.complete = self.complete.saturating_sub(1);
        Cause::Complete
    }
}

/// Whether a recording goes on for so long since it had gone on for `since` milliseconds that no frame is waited for.
pub(crate) fn is_quiet(since: u64, passed: u64) -> bool {
    passed >= since.saturating_add(QUIET_MS)
}

/// How a member of a stream stands.
#[derive(Clone, Copy)]
pub(crate) struct Place {
    pub(crate) is_granted: bool,
    /// Whether frames have a place for it.
    pub(crate) is_effective: bool,
}

/// The fates of the members' blocks in a slot whose frame has not left.
#[derive(Drop)]
struct OpenSlot {
    slot: u64,
    fates: Vec<Fate>,
}

/// A stream of the subscriber.
#[derive(Drop)]
pub(crate) struct StreamTrack {
    pub(crate) id: StreamId,
    rate: u8,
    base: u32,
    pub(crate) members: Vec<PmuKey>,
    /// How many milliseconds behind its slot the last block of each member came.
    delays: Vec<u64>,
    /// How its members stand, in their order.
    pub(crate) places: Vec<Place>,
    pub(crate) causes: Causes,
    open: VecDeque<OpenSlot>,
    // The time of its newest frame that has left, and for how many milliseconds the recording had gone on then.
    newest: u64,
    since: u64,
}

impl StreamTrack {
    /// A stream that is defined so, once the recording has gone on for so many milliseconds.
    pub(crate) fn new(
        alloc: Global,
        definition: &Definition,
        passed: u64,
    ) -> Result<StreamTrack, AllocError> {
        Ok(StreamTrack {
            id: definition.stream,
            rate: definition.rate,
            base: definition.base,
            members: definition.members.as_slice().to_vec(alloc)?,
            delays: vec![in alloc; 0; definition.members.as_slice().len()]?,
            places: Vec::new(alloc),
            causes: Causes::none(),
            open: VecDeque::new(alloc),
            newest: 0,
            since: passed,
        })
    }

    /// A frame of this time has left, once the recording has gone on for so many milliseconds.
    pub(crate) fn note_left(&mut self, time: u64, passed: u64) {
        self.newest = self.newest.max(time);
        self.since = passed;
    }

    /// Whether no frame before `end` is to come any more: one of that time or later has left, or this machine's clock is past it and none has left for
    /// ten minutes. (The clock alone does not say so, since it may be ahead, and be set back.)
    pub(crate) fn is_past(&self, end: u64, now: u64, passed: u64) -> bool {
        self.newest >= end || (now >= end && is_quiet(self.since, passed))
    }

    /// The slot of this time, of which `frac` is in parts of `base`.
    pub(crate) fn slot_at(&self, base: u32, soc: u32, frac: u32) -> Option<u64> {
        if self.rate == 0 || self.rate > 120 {
            return None;
        }
        slot_of(self.rate, base, soc, frac).ok()
    }

    /// The slot of a frame of the stream with this stamp.
    pub(crate) fn slot_of_stamp(&self, soc: u32, frac: u32) -> Option<u64> {
        self.slot_at(self.base, soc, frac)
    }

    /// The time of a slot: milliseconds since 1970-01-01 00:00 UTC, rounded down.
    pub(crate) fn time_of(&self, slot: u64) -> u64 {
        let rate = u64::from(self.rate).max(1);
        let second = (slot / rate).saturating_mul(1_000);
        second.saturating_add((slot % rate).saturating_mul(1_000) / rate)
    }

    /// The slot of which a member's block would most likely have come at this time.
    pub(crate) fn slot_of_arrival(&self, member: usize, at: u64) -> u64 {
        let delay = self.delays.get(member).copied().unwrap_or(0);
        let time = at.saturating_sub(delay);
        time.saturating_mul(u64::from(self.rate))
            .saturating_add(500)
            / 1_000
    }

    /// What is known of a member's block in a slot whose frame has not left; `None` where nothing is known of any member's.
    pub(crate) fn noted(&self, slot: u64, member: usize) -> Option<Fate> {
        let open = self.open.iter().rfind(|it| it.slot == slot);
        match open {
            Some(open) => open.fates.get(member).copied(),
            None => None,
        }
    }

    /// Notes the fate of a member's block. A block that came stays.
    pub(crate) fn note(
        &mut self,
        alloc: Global,
        slot: u64,
        member: usize,
        fate: Fate,
    ) -> Result<(), AllocError> {
        if let Fate::Came(at) = fate {
            let delay = at.saturating_sub(self.time_of(slot));
            if let Some(last) = self.delays.get_mut(member) {
                *last = delay;
            }
        }
        let count = self.members.len();
        let found = self.open.iter().rposition(|it| it.slot == slot);
        let at = match found {
            Some(at) => at,
            None => {
                if self.open.len() >= MOST_OPEN {
                    self.open.pop_front();
                }
                let fates = vec![in alloc; Fate::Nothing; count]?;
                self.open.push_back(OpenSlot { slot, fates })?;
                self.open.len().saturating_sub(1)
            }
        };
        let Some(open) = self.open.get_mut(at) else {
            return Ok(());
        };
        if let Some(noted) = open.fates.get_mut(member) {
            if !matches!(noted, Fate::Came(_)) {
                *noted = fate;
            }
        }
        Ok(())
    }

    /// The fates of the members' blocks in a slot whose frame leaves now.
    pub(crate) fn take(
        &mut self,
        alloc: Global,
        slot: u64,
    ) -> Result<Vec<(PmuKey, Fate)>, AllocError> {
        let at = self.open.iter().position(|it| it.slot == slot);
        let open = at.and_then(|it| self.open.remove(it));
        let mut fates = Vec::new(alloc);
        for (member, (key, place)) in self.members.iter().zip(&self.places).enumerate() {
            let noted = match &open {
                Some(open) => open.fates.get(member).copied(),
                None => None,
            };
            let fate = match noted.unwrap_or(Fate::Nothing) {
                Fate::Came(at) => Fate::Came(at),
                _ if !place.is_granted => Fate::NotGranted,
                _ if !place.is_effective => Fate::NotAnnounced,
                fate => fate,
            };
            fates.push((*key, fate))?;
        }
        Ok(fates)
    }

    /// Forgets the slots whose frames have not left.
    pub(crate) fn forget_open(&mut self) {
        self.open.clear();
    }
}
