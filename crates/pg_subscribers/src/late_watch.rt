//! Whether all data that come for a stream are too late for it. They are where the clock of its PMUs was set back: what it sends rises in time
//! until its subscriber starts it again (own rule of the gateway).

ghost use Rattle.std.specs.Prelude.{◌≡◌, ◌==◌, ◌&&◌, nat_le, None};
ghost use Rattle.pg_service.specs.Posts.{OwnOnly};
ghost use Rattle.pg_subscribers.specs.LateLooks.{looked};

use crate::standings::post_member;
use pg_gateway::Gate;
use pg_limits::STREAMS;
use pg_session::{MemberPlace, StreamStanding};
use pg_wire::SubId;
use std::time::{Duration, Instant};

/// How many seconds lie between two looks.
const LOOK_SECONDS: u64 = 10;

/// How many blocks have to come too late from one look to the next.
const LATE: u64 = 5;

/// At how many looks in a row they have to.
const LOOKS: u8 = 2;

/// The streams of a subscriber and the members of a stream at most, as an event counts them.
const PLACES: u8 = 8;

const MEMBERS: u8 = 32;

/// What was seen of a stream at the last look.
#[derive(Clone, Copy)]
pub struct StreamLook {
    /// Its number.
    pub stream: u16,
    /// Its data frames since it was defined.
    pub frames: u64,
    /// The blocks that had come too late for it, if no frame had left since the look before.
    pub late: Option<u64>,
    /// At how many looks in a row no frame had left, and five blocks or more had come too late since the look before.
    pub looks: u8,
}

impl StreamLook {
    /// The first look at a stream with so many frames.
    pub fn new(stream: u16, frames: u64) -> StreamLook
        ensures { result ≡ record { stream = stream; frames = frames; late = None; looks = 0 } }
    {
        StreamLook {
            stream,
            frames,
            late: None,
            looks: 0,
        }
    }

    /// Whether it was at this stream, and no frame left since, where it has so many by now.
    pub fn is_of(&self, stream: u16, frames: u64) -> bool
        ensures { result ≡ (self.now.stream == stream && self.now.frames == frames) }
    {
        self.stream == stream && self.frames == frames
    }

    /// The next look, if no frame left since the last one, where so many blocks have come too late by now.
    pub fn look(&mut self, late: u64)
        ensures { self.new ≡ looked self.old late }
    {
        let were_late = match self.late {
            Some(before) => late.saturating_sub(before) >= LATE,
            None => false,
        };
        self.late = Some(late);
        self.looks = if were_late {
            self.looks.saturating_add(1)
        } else {
            0
        };
    }

    /// Whether all data were too late for 20 seconds.
    pub fn is_late(&self) -> bool
        ensures { result ≡ nat_le 2 self.now.looks }
    {
        self.looks >= LOOKS
    }
}

/// What came of a look at the stream of a place.
#[derive(Clone, Copy)]
enum Looked {
    /// There is none.
    Absent,
    /// It is well, or not late for long enough.
    Well,
    /// All its data are too late.
    Late(u16),
}

/// What was seen of the streams of the subscriber that connected, and when it is looked at them again.
#[derive(Drop)]
pub(crate) struct LateWatch {
    due: Option<Instant>,
    streams: [Option<StreamLook>; STREAMS],
}

impl LateWatch {
    /// Nobody has connected.
    pub(crate) fn new() -> LateWatch {
        LateWatch {
            due: None,
            streams: [None; STREAMS],
        }
    }

    /// A subscriber connected.
    pub(crate) fn begin(&mut self, now: Instant) {
        self.due = now.checked_add(Duration::from_secs(LOOK_SECONDS));
    }

    /// When it is looked at the streams again.
    pub(crate) fn due(&self) -> Option<Instant> {
        self.due
    }

    /// Whether it is time for that.
    pub(crate) fn is_due(&self, now: Instant) -> bool {
        match self.due {
            Some(due) => due <= now,
            None => false,
        }
    }

    /// Looks at the streams of this subscriber, and returns one of which all data are too late.
    #[tactic(auto, using(crate::proofs::Own::own_nil, crate::proofs::Own::own_more))]
    pub(crate) fn look<G: Gate>(&mut self, sub: SubId, gate: &mut G) -> Option<u16>
        // It posts of its own subscriber alone.
        ensures own { OwnOnly sub (G.posts gate.old) (G.posts gate.new) }
    {
        let mut late = None;
        'places: for place in 0..PLACES {
            match self.look_at(sub, place, gate) {
                Looked::Absent => break,
                Looked::Well => {}
                Looked::Late(stream) => late = Some(stream),
            }
        }
        late
    }

    /// Looks at the stream of this place.
    #[tactic(auto, using(crate::proofs::Own::own_nil, crate::proofs::Own::own_more))]
    fn look_at<G: Gate>(&mut self, sub: SubId, place: u8, gate: &mut G) -> Looked
        ensures own { OwnOnly sub (G.posts gate.old) (G.posts gate.new) }
    {
        let Some(standing) = post_member(sub, first_of(place), gate) else {
            return Looked::Absent;
        };
        let Some(seen) = self.streams.get_mut(usize::from(place)) else {
            return Looked::Absent;
        };
        let (stream, frames) = (standing.stream.get(), frames_of(&standing));
        let mut look = quiet(*seen, standing.is_on, stream, frames);
        if let Some(look) = &mut look {
            look.look(late_of(sub, place, standing.members, gate));
        }
        *seen = Some(look.unwrap_or(StreamLook::new(stream, frames)));
        match look {
            Some(look) if look.is_late() => Looked::Late(stream),
            _ => Looked::Well,
        }
    }
}

/// The last look at a stream, if the stream is on and no frame left since.
fn quiet(seen: Option<StreamLook>, is_on: bool, stream: u16, frames: u64) -> Option<StreamLook> {
    match seen {
        Some(look) if is_on && look.is_of(stream, frames) => Some(look),
        _ => None,
    }
}

/// The first member of the stream at a place.
fn first_of(place: u8) -> MemberPlace
    ensures { result ≡ record { stream = place; member = 0 } }
{
    MemberPlace {
        stream: place,
        member: 0,
    }
}

/// The data frames of a stream.
fn frames_of(standing: &StreamStanding) -> u64 {
    standing
        .complete
        .saturating_add(standing.waited)
        .saturating_add(standing.pushed)
        .saturating_add(standing.changed)
}

/// How many blocks of the members of a stream came too late for it.
#[tactic(auto, using(crate::proofs::Own::own_nil, crate::proofs::Own::own_more))]
fn late_of<G: Gate>(sub: SubId, place: u8, members: u16, gate: &mut G) -> u64
    ensures own { OwnOnly sub (G.posts gate.old) (G.posts gate.new) }
{
    let mut late = 0u64;
    'members: for member in 0..MEMBERS {
        if u16::from(member) >= members {
            break;
        }
        let of = MemberPlace {
            stream: place,
            member,
        };
        let standing = post_member(sub, of, gate);
        late = late.saturating_add(late_in(standing));
    }
    late
}

/// How many blocks came too late of the member that was asked about.
fn late_in(standing: Option<StreamStanding>) -> u64 {
    match standing {
        Some(standing) => match standing.member {
            Some(member) => member.late,
            None => 0,
        },
        None => 0,
    }
}
