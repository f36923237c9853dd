//! How the streams of a subscriber stand.

ghost use Rattle.std.specs.Prelude.{◌≡◌};
ghost use Rattle.pg_service.specs.Posts.{OwnOnly};

use pg_gateway::{Event, Gate, Reply};
use pg_limits::{FoundStream, STREAMS};
use pg_session::{MemberPlace, StreamStanding};
use pg_wire::SubId;

/// The streams of a subscriber at most, as an event counts them.
const PLACES: u8 = 8;

/// What is found of the streams of a subscriber, in the order of their definition.
pub(crate) type Standings = [Option<FoundStream>; STREAMS];

/// No stream.
fn no_standings() -> Standings {
    [None; STREAMS]
}

/// Asks how the streams of a subscriber stand.
#[tactic(auto, using(crate::proofs::Own::own_nil, crate::proofs::Own::own_more))]
pub(crate) fn ask_standings<G: Gate>(sub: SubId, gate: &mut G) -> Standings
    // It posts of its own subscriber alone.
    ensures own { OwnOnly sub (G.posts gate.old) (G.posts gate.new) }
{
    let mut found = no_standings();
    'places: for place in 0..PLACES {
        let standing = post_standing(sub, place, gate);
        if standing.is_none() {
            break;
        }
        if let Some(free) = found.get_mut(usize::from(place)) {
            *free = standing;
        }
    }
    found
}

/// Asks how the stream at this place stands, if there is one.
fn post_standing<G: Gate>(sub: SubId, place: u8, gate: &mut G) -> Option<FoundStream>
    ensures own { OwnOnly sub (G.posts gate.old) (G.posts gate.new) }
{
    let first = MemberPlace {
        stream: place,
        member: 0,
    };
    match post_member(sub, first, gate) {
        Some(standing) => Some(found_stream(&standing)),
        None => None,
    }
}

/// Asks how a stream and a member of it stand, by their places, if there is such a stream.
pub(crate) fn post_member<G: Gate>(
    sub: SubId,
    place: MemberPlace,
    gate: &mut G,
) -> Option<StreamStanding>
    ensures own { OwnOnly sub (G.posts gate.old) (G.posts gate.new) }
{
    let reply = gate.post(Event::Standing(sub, place));
    standing_in(&reply)
}

/// How a stream stands by this reply, if it has one.
fn standing_in(reply: &Reply) -> Option<StreamStanding> {
    match reply {
        Reply::Standing(standing) => standing.stream,
        _ => None,
    }
}

/// What is found of a stream that stands so.
fn found_stream(standing: &StreamStanding) -> FoundStream
    ensures { result ≡ record { stream = standing.now.stream; definition = standing.now.layouts.definition; layout = standing.now.layouts.number; lengths = standing.now.layouts.lengths; is_on = standing.now.is_on } }
{
    FoundStream {
        stream: standing.stream.get(),
        definition: standing.layouts.definition,
        layout: standing.layouts.number,
        lengths: standing.layouts.lengths,
        is_on: standing.is_on,
    }
}
