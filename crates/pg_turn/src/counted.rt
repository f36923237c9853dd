//! A machine with the count of its calls.

/// What lies in the slot of a turnstile: the machine, and how many calls it has answered.
#[derive(Drop)]
pub struct Counted<M> {
    /// The machine.
    pub machine: M,
    /// How many calls it has answered, at most `u64::MAX`, where it stays.
    pub calls: u64,
}
