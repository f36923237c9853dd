//! How many events fill a ring.
ghost use Rattle.std.specs.Prelude.{◌≡◌};
ghost use Rattle.pg_limits.specs.Credits.{least_room, room_of};

/// As many frames as a ring holds at most.
const MOST: u16 = 1_024;

/// How many events fill a ring of so many frames, where each event makes a frame of each of so many streams. At least one.
fn room_of(frames: u16, streams: u16) -> u16
    ensures { result ≡ room_of (frames, streams) }
{
    (frames / streams.max(1)).max(1)
}

/// How many events fill the first of some rings, where each event makes a frame of each stream of the ring's subscriber. Of each ring
/// its frames and the number of its subscriber's streams are given. At least one, and 1,024 where there is no ring.
pub fn least_room(rings: &[(u16, u16)]) -> u32
    ensures { result ≡ least_room rings.now }
{
    let mut least = MOST;
    for ring in rings {
        least = least.min(room_of(ring.0, ring.1));
    }
    u32::from(least)
}
