//! The PMUs that a subscriber was granted: a set of at most 32 keys, kept in order.
//! What no clause of IEEE C37.118.2 is named for is a rule of this project.
#![tactic(auto)]

mod grants;
mod laws;

pub use grants::Grants;
pub use laws::{grants_are_sets, grants_stay_sorted};
