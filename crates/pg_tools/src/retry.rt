//! When a command is sent again that was not answered.

ghost use Rattle.std.specs.Prelude.{◌≡◌, ◌+◌, ◌<◌, ◌≤◌, if◌then◌else◌};
ghost use Rattle.pg_tools.specs.Retrying.{is_due, waited_after};

/// After how many seconds without its answer a command is sent again.
pub const RETRY_TIMEOUT: u32 = 3;

/// How long a command waits for its answer: fewer than 3 seconds.
#[derive(Clone, Copy)]
pub struct Retry {
    /// The seconds since it was sent.
    pub waited: u32,
}

impl Retry {
    /// It was sent, or answered, now.
    pub const NEW: Retry = Retry { waited: 0 };

    /// A second passes without its answer. Answers whether it is to be sent again, which is so in each third second.
    pub fn tick(&mut self) -> bool
        ensures asks { result ≡ is_due self.old.waited }
        ensures waits { self.new.waited ≡ waited_after self.old.waited }
    {
        let waited = self.waited.saturating_add(1);
        let is_due = waited >= RETRY_TIMEOUT;
        self.waited = if is_due { 0 } else { waited };
        is_due
    }
}
