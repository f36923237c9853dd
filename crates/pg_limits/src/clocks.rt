//! How the clocks of sources stand to this machine's.
ghost use Rattle.std.specs.Prelude.{◌≡◌, ◌+◌, nat_lt};
ghost use Rattle.pg_limits.specs.Sources.{both, none, one, wrong_by};

use crate::guard::is_clock_wrong;
use std::marker::Model;

/// How the clocks of connected sources stand to this machine's: how many sources there are, how many are refused since the time
/// of their data is ahead of this machine's clock, and how many since it is behind.
#[derive(Clone, Copy, PartialEq, Eq)]
pub struct Clocks {
    connected: u32,
    ahead: u32,
    behind: u32,
    // The least difference of each, in milliseconds.
    least_ahead: i64,
    least_behind: i64,
}

impl Model for Clocks {
    ghost use Rattle.pg_limits.specs.Sources.{Sources};

    ghost Value = { Sources };

    ghost view = { λ c. record { connected = c.connected; ahead = c.ahead; behind = c.behind; least_ahead = c.least_ahead; least_behind = c.least_behind } };

    ghost inverse = { λ s. record { connected = s.connected; ahead = s.ahead; behind = s.behind; least_ahead = s.least_ahead; least_behind = s.least_behind } };
}

impl Clocks {
    /// No source is connected.
    pub fn none() -> Clocks
        ensures { result ≡ none }
    {
        Clocks {
            connected: 0,
            ahead: 0,
            behind: 0,
            least_ahead: i64::MAX,
            least_behind: i64::MIN,
        }
    }

    /// One source, whose data are refused for so many milliseconds, if for any; see [`Clocks::add`].
    fn one(off: Option<i64>) -> Clocks
        ensures { result ≡ one off }
    {
        match off {
            Some(off) if off < 0 => Clocks {
                connected: 1,
                behind: 1,
                least_behind: off,
                ..Clocks::none()
            },
            Some(off) => Clocks {
                connected: 1,
                ahead: 1,
                least_ahead: off,
                ..Clocks::none()
            },
            None => Clocks {
                connected: 1,
                ..Clocks::none()
            },
        }
    }

    /// One more source is connected. Where its data are refused, their time is by so many milliseconds ahead of this machine's clock, or
    /// behind it where that is negative.
    pub fn add(&mut self, off: Option<i64>)
        ensures { self.new ≡ both self.old (one off) }
    {
        *self = self.with(Clocks::one(off));
    }

    /// The sources of both.
    pub fn with(self, other: Clocks) -> Clocks
        ensures { result ≡ both self other }
    {
        Clocks {
            connected: self.connected.saturating_add(other.connected),
            ahead: self.ahead.saturating_add(other.ahead),
            behind: self.behind.saturating_add(other.behind),
            least_ahead: self.least_ahead.min(other.least_ahead),
            least_behind: self.least_behind.max(other.least_behind),
        }
    }

    /// Whether the data of a source are refused.
    pub fn has_refused(&self) -> bool
        ensures { result ≡ nat_lt 0 (self.now.ahead + self.now.behind) }
    {
        self.ahead > 0 || self.behind > 0
    }

    /// By how many milliseconds the sources are ahead of this machine's clock at least, where that is probably the wrong one; behind it where
    /// negative.
    pub fn wrong_by(&self) -> Option<i64>
        ensures { result ≡ wrong_by self.now }
    {
        if is_clock_wrong(self.connected, self.ahead) {
            Some(self.least_ahead)
        } else if is_clock_wrong(self.connected, self.behind) {
            Some(self.least_behind)
        } else {
            None
        }
    }
}
