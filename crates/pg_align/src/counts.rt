//! How many slots of a stream left, by their cause, and which members were missing.

ghost use Rattle.std.specs.Prelude.{◌≡◌, ◌<◌, ◌≤◌, length, true};
ghost use Rattle.pg_align.specs.Histories.{has_all};
ghost use Rattle.pg_align.specs.Counts.{counted_if, counted_late, counted_left, no_counts, raised, with_missing};

use crate::answer::Arrived;
use pg_data::SharedBlock;

/// The most members of a stream.
const MEMBERS: usize = 32;

/// Why a slot left.
#[derive(Clone, Copy, PartialEq, Eq)]
pub enum Cause {
    /// The block of each effective member had come.
    Complete,
    /// It had waited long enough.
    Waited,
    /// More slots than the window were open.
    Pushed,
    /// The stream's effective members, or their blocks, were about to change.
    Changed,
}

/// The slots of a stream that left since it was defined, by their cause, and its members by their places in the definition. Each number stays
/// at 2^64 - 1 once it is there.
#[derive(Clone, Copy, PartialEq, Eq)]
pub struct SlotCounts {
    /// Those that left complete.
    pub complete: u64,
    /// Those that had waited long enough.
    pub waited: u64,
    /// Those that left since more than the window were open.
    pub pushed: u64,
    /// Those that left before a change of the effective members or their blocks.
    pub changed: u64,
    /// For each member, the slots that left without its block while it was effective: their frames have a filler in its place.
    pub missing: [u64; MEMBERS],
    /// For each member, its blocks that came for a slot at or below the last one that had left.
    pub late: [u64; MEMBERS],
}

impl SlotCounts {
    /// Those of a stream that was just defined.
    pub(crate) fn new() -> SlotCounts
        ensures { result ≡ no_counts }
    {
        SlotCounts {
            complete: 0,
            waited: 0,
            pushed: 0,
            changed: 0,
            missing: [0; MEMBERS],
            late: [0; MEMBERS],
        }
    }

    /// A slot left complete.
    #[inline(always)]
    pub(crate) fn count_complete(&mut self)
        ensures { self.new ≡ raised Cause.Complete self.old }
    {
        self.complete = self.complete.saturating_add(1);
    }

    /// A slot left for this cause, with these effective members and parts.
    #[tactic(auto, using(crate::proofs::Looking::none_missing))]
    pub(crate) fn count_left(
        &mut self,
        cause: Cause,
        effective: &[bool],
        parts: &[Option<SharedBlock>],
    )
        requires few { length effective.now ≤ 32 }
        requires places { length parts.now ≡ length effective.now }
        requires complete { cause ≡ Cause.Complete → has_all effective.now parts.now ≡ true }
        ensures { self.new ≡ counted_left cause effective.now parts.now self.old }
    {
        match cause {
            Cause::Complete => {
                // No member is missing then.
                self.count_complete();
                return;
            }
            Cause::Waited => self.waited = self.waited.saturating_add(1),
            Cause::Pushed => self.pushed = self.pushed.saturating_add(1),
            Cause::Changed => self.changed = self.changed.saturating_add(1),
        }
        count_missing(&mut self.missing, effective, parts);
    }

    /// A block of the member at this place came for a slot at or below the last one that left.
    pub(crate) fn count_late(&mut self, place: usize)
        requires { place < 32 }
        ensures { self.new ≡ counted_late place self.old }
    {
        self.late[place] = self.late[place].saturating_add(1);
    }

    /// What became of a block of the member at this place: a late one is counted.
    #[inline(always)]
    pub(crate) fn count_if_late(&mut self, arrived: Arrived, place: usize)
        requires { place < 32 }
        ensures { self.new ≡ counted_if arrived place self.old }
    {
        match arrived {
            Arrived::Late => self.count_late(place),
            Arrived::Kept | Arrived::Twice => {}
        }
    }
}

/// Each effective member without a part is missing once more.
#[tactic(auto, using(crate::proofs::Looking::counted_all))]
fn count_missing(missing: &mut [u64; MEMBERS], effective: &[bool], parts: &[Option<SharedBlock>])
    requires few { length effective.now ≤ 32 }
    requires places { length parts.now ≡ length effective.now }
    ensures { missing.new ≡ with_missing effective.now parts.now missing.old }
{
    for place in 0..effective.len() {
        if effective[place] && parts[place].is_none() {
            missing[place] = missing[place].saturating_add(1);
        }
    }
}
