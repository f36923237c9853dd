//! The output queue of a subscriber: the rest of the frame in hand, then replies, then data frames out of a ring that
//! drops the oldest. Each data frame carries its gap: the count of frames dropped or lost directly before it.
//! What no clause of IEEE C37.118.2 is named for is a rule of this project.
#![tactic(auto)]

mod laws;
mod queue;
mod ring;
mod sizes;

pub use laws::{each_number_has_one_fate, gaps_count_numbers};
pub use queue::{Drained, OutQueue};
pub use sizes::{RingBytes, RingSize};
