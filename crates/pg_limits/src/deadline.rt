//! Deadlines by the monotonic clock.
ghost use Rattle.std.specs.Prelude.{◌≡◌, ◌-◌, ◌↔◌, IsTrue};
ghost use Rattle.std.specs.Duration.{as_nanos};
ghost use Rattle.std.specs.Time.{instant_nanos};

use std::time::{Duration, Instant};

/// What is waited for, and how long at most: a source's next event (*silence*), a byte that a subscriber's socket takes
/// (*stall*), any byte of a subscriber (*idle*), a connection that is being made.
#[derive(Clone, Copy)]
pub struct Deadline {
    /// When it was last seen.
    pub last: Instant,
    /// How long it may stay away.
    pub limit: Duration,
}

impl Deadline {
    /// It was seen now.
    pub fn seen(&mut self, now: Instant)
        ensures last { self.new.last ≡ now }
        ensures limit { self.new.limit ≡ self.old.limit }
    {
        self.last = now;
    }

    /// How long it may still stay away: nothing where the limit is reached.
    pub fn left(&self, now: Instant) -> Duration
        ensures { as_nanos result ≡ as_nanos self.now.limit - (instant_nanos now - instant_nanos self.now.last) }
    {
        self.limit
            .saturating_sub(now.saturating_duration_since(self.last))
    }

    /// Whether it stayed away as long as it may, or longer.
    pub fn is_over(&self, now: Instant) -> bool
        ensures { IsTrue result ↔ (as_nanos self.now.limit - (instant_nanos now - instant_nanos self.now.last) ≡ 0) }
    {
        self.left(now).is_zero()
    }
}
