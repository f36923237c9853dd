//! The replay of a script: each of its lines is read, handed to a world, and answered by the lines that it prints.
//! What no clause of IEEE C37.118.2 is named for is a rule of this project.
#![tactic(auto)]

mod answers;
mod lines;
mod reading;
mod script;

pub use lines::{Line, read_line};
pub use script::{Fault, replay};
