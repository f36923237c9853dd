//! Bytes that were sent and that the other side does not acknowledge.
ghost use Rattle.std.specs.Prelude.{◌≡◌, option_map};
ghost use Rattle.std.specs.Time.{instant_nanos};
ghost use Rattle.pg_limits.specs.Acknowledged.{fresh, looked};

use std::marker::Model;
use std::time::Instant;

/// Since when the other side of a connection acknowledged nothing, though bytes wait for that: so a host that lost its power is
/// found.
#[derive(Drop)]
pub struct Unacknowledged {
    acknowledged: u64,
    since: Option<Instant>,
}

impl Model for Unacknowledged {
    ghost use Rattle.std.specs.Prelude.{option_map};
    ghost use Rattle.std.specs.Time.{instant_nanos};
    ghost use Rattle.pg_limits.specs.Acknowledged.{Standing};

    ghost Value = { Standing };

    ghost view = { λ u. record { acknowledged = u.acknowledged; since = option_map instant_nanos u.since } };
}

impl Unacknowledged {
    /// Of a new connection, to which nothing was written.
    pub fn new() -> Unacknowledged
        ensures { result ≡ fresh }
    {
        Unacknowledged {
            acknowledged: 0,
            since: None,
        }
    }

    /// At this time so many bytes were written to the connection in all, of which the last `queue` are not acknowledged.
    pub fn look(&mut self, written: u64, queue: u32, now: Instant)
        ensures { self.new ≡ looked self.old written queue (instant_nanos now) }
    {
        let acknowledged = written.saturating_sub(u64::from(queue));
        if queue == 0 {
            self.since = None;
        } else if acknowledged > self.acknowledged || self.since.is_none() {
            self.since = Some(now);
        }
        self.acknowledged = self.acknowledged.max(acknowledged);
    }

    /// The time from which on bytes waited to be acknowledged and none was; `None` where all were at the last look.
    pub fn since(&self) -> Option<Instant>
        ensures { option_map instant_nanos result ≡ self.now.since }
    {
        self.since
    }
}
