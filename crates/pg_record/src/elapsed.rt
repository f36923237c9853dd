//! How long a recording goes on.

ghost use Rattle.std.specs.Prelude.{◌≡◌};
ghost use Rattle.pg_record.specs.Elapsing.{gone_on, nothing_yet};

/// How many milliseconds two times of a recording lie apart at most where this machine's clock was not set between them.
const NEAR: u64 = 5_000;

/// For how long a recording goes on, by the times that it has. Where they jump this machine's clock was set, and no time has passed.
#[derive(Clone, Copy)]
pub struct Elapsed {
    /// The newest time since this machine's clock was set last: milliseconds since 1970-01-01 00:00 UTC.
    pub newest: u64,
    /// How many milliseconds have passed; it stays at 2^64 - 1 once it is there.
    pub passed: u64,
}

impl Elapsed {
    /// Nothing was recorded.
    pub fn new() -> Elapsed
        ensures { result ≡ nothing_yet }
    {
        Elapsed {
            newest: 0,
            passed: 0,
        }
    }

    /// Something was recorded at this time.
    pub fn go_on(&mut self, at: u64)
        ensures { self.new ≡ gone_on self.old at }
    {
        let after = at.saturating_sub(self.newest);
        let before = self.newest.saturating_sub(at);
        if after <= NEAR && before <= NEAR {
            self.passed = self.passed.saturating_add(after);
            self.newest = self.newest.max(at);
        } else {
            self.newest = at;
        }
    }
}
