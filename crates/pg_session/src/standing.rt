//! How a subscriber stands.

ghost use Rattle.std.specs.Prelude.{◌≡◌, ◌≤◌, length, option_map, slice_get};
ghost use Rattle.pg_outcfg.specs.Frames.{effective_of};
ghost use Rattle.pg_session.specs.Standing.{member_standing};

use crate::change::config_of;
use crate::layouts::Layouts;
use pg_align::SlotCounts;
use pg_entitle::Grants;
use pg_outcfg::ConfigList;
use pg_wire::{PmuKey, StreamId};

/// A member of a stream of a subscriber, by places.
#[derive(Clone, Copy, PartialEq, Eq)]
pub struct MemberPlace {
    /// The stream's place among those of the subscriber, 0 the one that was defined first.
    pub stream: u8,
    /// The member's place among those of the stream, in the definition's order.
    pub member: u8,
}

/// How a subscriber stands: what waits for it, and one of its streams.
#[derive(Clone, Copy, PartialEq, Eq)]
pub struct Standing {
    /// The frames that wait to be handed out, replies and data frames. The one in hand is one of them where bytes of it are left.
    pub frames: u64,
    /// The bytes that wait to be handed out, at most 2^64 - 1.
    pub bytes: u64,
    /// The stream at the place that was asked for, or `None` where there are no so many.
    pub stream: Option<StreamStanding>,
}

/// How a stream stands. Each count stays at 2^64 - 1 once it is there.
#[derive(Clone, Copy, PartialEq, Eq)]
pub struct StreamStanding {
    /// Its number.
    pub stream: StreamId,
    /// Whether it is on.
    pub is_on: bool,
    /// The effective members, those that its frames carry: they are granted and have announced. At most 32.
    pub effective: u16,
    /// All its members, 1 to 32.
    pub members: u16,
    /// The layouts of its data frames.
    pub layouts: Layouts,
    /// Its data frames since it was defined that left complete: the block of each effective member had come.
    pub complete: u64,
    /// Those that left since their slot had waited long enough.
    pub waited: u64,
    /// Those that left since more slots than the window were open.
    pub pushed: u64,
    /// Those that left before a change of its effective members or their blocks.
    pub changed: u64,
    /// The member at the place that was asked for, or `None` where there are no so many.
    pub member: Option<MemberStanding>,
}

/// How a member of a stream stands. Each count stays at 2^64 - 1 once it is there.
#[derive(Clone, Copy, PartialEq, Eq)]
pub struct MemberStanding {
    /// Its key.
    pub key: PmuKey,
    /// Whether it is granted to the subscriber.
    pub is_granted: bool,
    /// Whether it is effective: granted and announced.
    pub is_effective: bool,
    /// The stream's data frames since it was defined that have a filler in its place.
    pub missing: u64,
    /// Its blocks that came for a slot at or below the last one that had left: too late for a frame.
    pub late: u64,
}

/// How many of these members are effective.
pub(crate) fn count_effective(listed: &ConfigList, members: &[PmuKey]) -> u16
    requires { length members.now ≤ 32 }
    ensures { result ≡ length (effective_of listed.now members.now) }
{
    let mut effective = 0;
    for key in members {
        if config_of(listed, key).is_some() {
            effective += 1;
        }
    }
    effective
}

/// How the member at a place stands, by these grants, this CFG-1 list and the stream's counts; or `None` where there are no so many.
pub(crate) fn member_standing(
    grants: &Grants,
    listed: &ConfigList,
    counts: &SlotCounts,
    members: &[PmuKey],
    place: u8,
) -> Option<MemberStanding>
    requires { length members.now ≤ 32 }
    ensures { result ≡ option_map (member_standing grants.now listed.now counts.now place) (slice_get members.now place) }
{
    let at = usize::from(place);
    let key = *members.get(at)?;
    Some(MemberStanding {
        key,
        is_granted: grants.holds(key),
        is_effective: config_of(listed, &key).is_some(),
        missing: counts.missing[at],
        late: counts.late[at],
    })
}
