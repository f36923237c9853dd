//! How long a subscriber that has connected is waited for.

ghost use Rattle.std.specs.Prelude.{◌≡◌, option_map, is_some};
ghost use Rattle.std.specs.Duration.{as_nanos};
ghost use Rattle.std.specs.Time.{instant_nanos};
ghost use Rattle.pg_limits.specs.Timers.{acknowledges, acknowledging, connected, idles, is_settled, left_by, timeout_by, served, stalls};
ghost use Rattle.pg_limits.specs.Plans.{least, left_of};

use crate::deadline::Deadline;
use std::marker::Model;
use std::time::{Duration, Instant};

/// How long a connection stands before another one may take its place, in seconds: two clients that both connect again at once
/// would hang each other up for ever.
const SETTLED_SECONDS: u64 = 5;

/// Why a subscriber is to be hung up.
#[derive(Clone, Copy, Debug, PartialEq, Eq)]
pub enum Timeout {
    /// Bytes waited, and its socket took none of them for as long as it may.
    Stalled,
    /// Bytes were sent, and none of them was acknowledged for as long as it may.
    Unacknowledged,
    /// It neither sent nor was sent a byte for as long as it may.
    Idle,
}

/// How long a subscriber that has connected is waited for: where bytes wait, for its socket to take one; where bytes were sent,
/// for the acknowledgement of one; and for a byte either way.
#[derive(Drop)]
pub struct ConnectionTimers {
    since: Instant,
    stall: Option<Duration>,
    idle: Option<Duration>,
    blocked: Option<Instant>,
    unacknowledged: Option<Instant>,
    active: Instant,
}

impl Model for ConnectionTimers {
    ghost use Rattle.std.specs.Prelude.{option_map};
    ghost use Rattle.std.specs.Duration.{as_nanos};
    ghost use Rattle.std.specs.Time.{instant_nanos};
    ghost use Rattle.pg_limits.specs.Timers.{Waited};

    ghost Value = { Waited };

    ghost view = { λ p. record { since = instant_nanos p.since; stall = option_map as_nanos p.stall; idle = option_map as_nanos p.idle; blocked = option_map instant_nanos p.blocked; unacknowledged = option_map instant_nanos p.unacknowledged; active = instant_nanos p.active } };
}

impl ConnectionTimers {
    /// With a subscriber that connects now, with these limits; `None` is for ever.
    pub fn new(stall: Option<Duration>, idle: Option<Duration>, now: Instant) -> ConnectionTimers
        ensures { result ≡ connected (option_map as_nanos stall) (option_map as_nanos idle) (instant_nanos now) }
    {
        ConnectionTimers {
            since: now,
            stall,
            idle,
            blocked: None,
            unacknowledged: None,
            active: now,
        }
    }

    /// Whether it is connected for 5 seconds by now, so that another connection may take its place.
    pub fn is_settled(&self, now: Instant) -> bool
        ensures { result ≡ is_settled (instant_nanos now) self.now }
    {
        let settles = Deadline {
            last: self.since,
            limit: Duration::from_secs(SETTLED_SECONDS),
        };
        settles.is_over(now)
    }

    /// Whether its socket takes no more bytes by now.
    pub fn is_blocked(&self) -> bool
        ensures { result ≡ is_some self.now.blocked }
    {
        self.blocked.is_some()
    }

    /// It was served: whether bytes of it came, whether its socket took bytes, and whether it takes no more of those that wait.
    pub fn served(&mut self, now: Instant, came: bool, took: bool, is_blocked: bool)
        ensures { self.new ≡ served (instant_nanos now) came took is_blocked self.old }
    {
        if came || took {
            self.active = now;
        }
        self.blocked = match (is_blocked, self.blocked) {
            (true, Some(since)) if !took => Some(since),
            (true, _) => Some(now),
            (false, _) => None,
        };
    }

    /// Since this time none of the bytes that were sent to it is acknowledged; `None` where all are.
    pub fn acknowledged(&mut self, since: Option<Instant>)
        ensures { self.new ≡ acknowledging (option_map instant_nanos since) self.old }
    {
        self.unacknowledged = since;
    }

    /// The byte that its socket is to take, where some wait.
    fn stall(&self) -> Option<Deadline>
        ensures { option_map (λ d. record { since = instant_nanos d.last; limit = as_nanos d.limit }) result ≡ stalls self.now }
    {
        match (self.blocked, self.stall) {
            (Some(last), Some(limit)) => Some(Deadline { last, limit }),
            _ => None,
        }
    }

    /// The byte that is to be acknowledged, where some were sent.
    fn acknowledgement(&self) -> Option<Deadline>
        ensures { option_map (λ d. record { since = instant_nanos d.last; limit = as_nanos d.limit }) result ≡ acknowledges self.now }
    {
        match (self.unacknowledged, self.stall) {
            (Some(last), Some(limit)) => Some(Deadline { last, limit }),
            _ => None,
        }
    }

    /// The byte that is to go either way.
    fn idle(&self) -> Option<Deadline>
        ensures { option_map (λ d. record { since = instant_nanos d.last; limit = as_nanos d.limit }) result ≡ idles self.now }
    {
        match self.idle {
            Some(limit) => Some(Deadline {
                last: self.active,
                limit,
            }),
            None => None,
        }
    }

    /// How long until it is hung up, if nothing goes either way; `None` for ever.
    pub fn left(&self, now: Instant) -> Option<Duration>
        ensures { option_map as_nanos result ≡ left_by (instant_nanos now) self.now }
    {
        let sent = least_left(
            left_of(self.acknowledgement(), now),
            left_of(self.idle(), now),
        );
        least_left(left_of(self.stall(), now), sent)
    }

    /// Why it is to be hung up by now, if it is.
    pub fn timeout(&self, now: Instant) -> Option<Timeout>
        ensures { result ≡ timeout_by (instant_nanos now) self.now }
    {
        match self.stall() {
            Some(stall) if stall.is_over(now) => return Some(Timeout::Stalled),
            _ => {}
        }
        match self.acknowledgement() {
            Some(acknowledgement) if acknowledgement.is_over(now) => {
                return Some(Timeout::Unacknowledged);
            }
            _ => {}
        }
        match self.idle() {
            Some(idle) if idle.is_over(now) => Some(Timeout::Idle),
            _ => None,
        }
    }
}

/// How long until a deadline, if there is one.
fn left_of(deadline: Option<Deadline>, now: Instant) -> Option<Duration>
    ensures { option_map as_nanos result ≡ option_map (λ d. left_of (instant_nanos now) (record { since = instant_nanos d.last; limit = as_nanos d.limit })) deadline }
{
    match deadline {
        Some(deadline) => Some(deadline.left(now)),
        None => None,
    }
}

/// The shorter of two times, as far as there are any.
fn least_left(one: Option<Duration>, other: Option<Duration>) -> Option<Duration>
    ensures { option_map as_nanos result ≡ least (option_map as_nanos one) (option_map as_nanos other) }
{
    match (one, other) {
        (Some(one), Some(other)) => Some(one.min(other)),
        (Some(left), None) | (None, Some(left)) => Some(left),
        (None, None) => None,
    }
}
