//! How many frames may be made before those that were made are handed out.
ghost use Rattle.std.specs.Prelude.{◌≡◌, ◌+◌, ◌≤◌, ◌<◌, max, true, nat_lt};
ghost use Rattle.pg_limits.specs.Credits.{confirmed, is_half_free, left_of, marked, spent, untouched};

use std::marker::Model;

/// How many events may make frames before those are known to be handed out that were made before: `most`. They are counted in
/// two parts, those before a mark, of which it is waited that they are handed out, and those since. Once all are out it is waited until
/// half of them are handed out, so that a worker that makes frames and one that hands them out change over seldom.
#[derive(Clone, Copy)]
pub struct Credit {
    most: u32,
    before: u32,
    since: u32,
}

impl Model for Credit {
    ghost use Rattle.std.specs.Prelude.{◌<◌};
    ghost use Rattle.pg_limits.specs.Credits.{Account};

    ghost Value = { Account };

    ghost view = { λ c. record { most = c.most; before = c.before; since = c.since } };

    ghost inverse = { λ a. record { most = a.most; before = a.before; since = a.since } };

    ghost invariant = { λ c. 0 < c.most };
}

impl Credit {
    /// So many events, one at least, of which none is out.
    pub fn new(most: u32) -> Credit
        ensures { result ≡ untouched most }
    {
        Credit {
            most: most.max(1),
            before: 0,
            since: 0,
        }
    }

    /// From now on so many events, one at least.
    pub fn resize(&mut self, most: u32)
        ensures { self.new ≡ record self.old { most = max most 1 } }
    {
        self.most = most.max(1);
    }

    /// How many more events may make frames by now.
    pub fn left(&self) -> u32
        ensures { result ≡ left_of self.now }
    {
        self.most
            .saturating_sub(self.before)
            .saturating_sub(self.since)
    }

    /// Whether half of all may make frames by now: it is worth going on.
    pub fn is_half_free(&self) -> bool
        ensures half { result ≡ is_half_free self.now }
        // Then one may at least.
        ensures some { result ≡ true → 0 < left_of self.now }
    {
        self.left() >= self.most - self.most / 2
    }

    /// So many events made frames.
    pub fn spend(&mut self, events: u32)
        ensures state { self.new ≡ spent events self.old }
        // A worker that makes no more frames than may be made never has more out than may be.
        ensures within { events ≤ left_of self.old → self.old.before + self.old.since ≤ self.old.most → self.new.before + self.new.since ≤ self.new.most }
    {
        self.since = self.since.saturating_add(events);
    }

    /// Whether events made frames since the mark.
    pub fn has_spent(&self) -> bool
        ensures { result ≡ nat_lt 0 self.now.since }
    {
        self.since > 0
    }

    /// The mark is set here: the events since then are before it now.
    pub fn mark(&mut self)
        ensures state { self.new ≡ marked self.old }
        ensures within { self.old.before + self.old.since ≤ self.old.most → self.new.before + self.new.since ≤ self.new.most }
    {
        self.before = self.before.saturating_add(self.since);
        self.since = 0;
    }

    /// What was made before the mark is handed out.
    pub fn confirm(&mut self)
        ensures { self.new ≡ confirmed self.old }
    {
        self.before = 0;
    }
}
