//! Times of a clock that the test moves.

use std::process::Abort;
use std::time::{Duration, Instant};

/// The instant so much later.
pub fn after(rt: &impl Abort, from: Instant, passed: Duration) -> Instant {
    from.checked_add(passed).expect(rt, "a later instant")
}
