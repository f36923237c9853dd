//! Counters that saturate, and the audit: the newest 64 entries of what was asked of a subscriber.
//! What no clause of IEEE C37.118.2 is named for is a rule of this project.
#![tactic(auto)]

mod audit;
mod counters;

pub use audit::{Audit, Entry, What};
pub use counters::{PmuStats, Stats};
