//! What is wrong with a setup, or what would run by it, for a person; and what is to be done so that a gateway that runs by one setup runs by another.
//! What no clause of IEEE C37.118.2 is named for is a rule of this project.
#![tactic(auto)]

mod alike;
mod changes;
mod checking;
mod copying;
mod listing;
mod misfits;
mod orders;
mod places;
mod ports;
mod report;
mod restarts;
mod steps;
mod warnings;

pub use changes::{Changes, changes_between};
pub use checking::{Checked, Trouble, check_setup};
pub use orders::Order;
pub use restarts::Restart;
