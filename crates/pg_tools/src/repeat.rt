//! What is done again and again.

ghost use Rattle.std.specs.Prelude.{◌≡◌, if◌then◌else◌};
ghost use Rattle.pg_tools.specs.Queueing.{is_over};

/// What is due each time that so many milliseconds have passed.
#[derive(Clone, Copy)]
pub struct Repeat {
    since: u64,
    period: u64,
}

impl Repeat {
    /// It was done now, and is due each `period`.
    pub fn new(now: u64, period: u64) -> Repeat
        ensures since { result.since ≡ now }
        ensures period { result.period ≡ period }
    {
        Repeat { since: now, period }
    }

    /// It was done now.
    pub fn begin(&mut self, now: u64)
        ensures since { self.new.since ≡ now }
        ensures period { self.new.period ≡ self.old.period }
    {
        self.since = now;
    }

    /// Whether it is due by now. It counts as done then.
    pub fn is_due(&mut self, now: u64) -> bool
        ensures due { result ≡ is_over self.old.since self.old.period now }
        ensures since { self.new.since ≡ (if is_over self.old.since self.old.period now then now else self.old.since) }
        ensures period { self.new.period ≡ self.old.period }
    {
        let is_due = now.saturating_sub(self.since) >= self.period;
        if is_due {
            self.since = now;
        }
        is_due
    }
}
