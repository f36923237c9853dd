//! How long entries that are alike are held back.
ghost use Rattle.std.specs.Prelude.{◌≡◌, ◌≤◌, ◌*◌, min, if◌then◌else◌};

use std::marker::Model;

/// How long an entry that is like one that was logged is held back, in milliseconds: a second at first, then twice as long behind each line
/// before which some were held back, a minute at most; a second again once it was quiet for that long.
#[derive(Clone, Copy)]
pub struct HoldTime {
    millis: u64,
}

impl Model for HoldTime {
    ghost use Rattle.std.specs.Prelude.{ℕ, ◌≤◌};

    ghost Value = { ℕ };

    ghost view = { λ p. p.millis };

    ghost inverse = { λ n. record { millis = n } };

    ghost invariant = { λ p. p.millis ≤ 60000 };
}

impl HoldTime {
    /// That behind the first line.
    pub fn first() -> HoldTime
        ensures { result ≡ 1000 }
    {
        HoldTime { millis: 1_000 }
    }

    /// That behind the next line: `has_repeated` says whether some were held back before it.
    pub fn next(self, has_repeated: bool) -> HoldTime
        ensures { result ≡ if has_repeated then min 60000 (2 * self) else 1000 }
    {
        if has_repeated {
            HoldTime {
                millis: (2 * self.millis).min(60_000),
            }
        } else {
            HoldTime::first()
        }
    }

    /// How many milliseconds it lasts, 60,000 at most.
    pub fn millis(self) -> u64
        ensures value { result ≡ self }
        ensures most { result ≤ 60000 }
    {
        self.millis
    }
}
