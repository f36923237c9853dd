//! A counter: the machine of `add_both`, of the tests and of the benchmark.
ghost use Rattle.std.specs.Prelude.{◌≡◌};

use pg_turn::Machine;

/// A machine that adds up what it is given. Its reply is the total after the event.
#[derive(Drop)]
pub struct Counter {
    /// The sum of all that was added, at most `u64::MAX`, where it stays.
    pub total: u64,
}

/// The event of a `Counter`: so much is added.
#[derive(Clone, Copy)]
pub struct Add(
    /// How much, 0 to `u32::MAX`.
    pub u32,
);

impl Counter {
    /// A counter in its opening state, with a total of 0.
    pub fn new() -> Counter
        ensures total { result.total ≡ 0 }
    {
        Counter { total: 0 }
    }
}

impl Machine for Counter {
    ghost use Rattle.std.specs.Prelude.{◌≡◌};
    ghost use Rattle.pg_laws.specs.Totals.{total_of, capped_add};

    type Event = Add;

    type Reply = u64;

    ghost shows = { λ c history. c.total ≡ total_of history };

    ghost may = { λ history event reply. reply ≡ capped_add (total_of history) event.0 };

    fn step(&mut self, event: Add) -> u64 {
        let total = self.total.saturating_add(u64::from(event.0));
        self.total = total;
        total
    }
}
