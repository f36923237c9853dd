//! Pauses between calls of a source.
ghost use Rattle.std.specs.Prelude.{◌≡◌, ◌≤◌};
ghost use Rattle.pg_limits.specs.Calling.{longer};

use std::marker::Model;

/// How long to wait before a source is called again, in whole seconds: 0 after an event of it; after a call that failed,
/// or a connection that ended before its first event, 1, and then twice as long each time, 30 at most.
#[derive(Clone, Copy)]
pub struct Pause {
    seconds: u8,
}

impl Model for Pause {
    ghost use Rattle.std.specs.Prelude.{ℕ, ◌≤◌};

    ghost Value = { ℕ };

    ghost view = { λ p. p.seconds };

    ghost inverse = { λ n. record { seconds = n } };

    ghost invariant = { λ p. p.seconds ≤ 30 };
}

impl Pause {
    /// None: the source may be called at once.
    pub fn none() -> Pause
        ensures { result ≡ 0 }
    {
        Pause { seconds: 0 }
    }

    /// The pause after one more failure.
    pub fn longer(self) -> Pause
        ensures { result ≡ longer self }
    {
        Pause {
            seconds: (2 * self.seconds).max(1).min(30),
        }
    }

    /// How many seconds it lasts, 0 to 30.
    pub fn seconds(self) -> u8
        ensures value { result ≡ self }
        ensures most { result ≤ 30 }
    {
        self.seconds
    }
}
