//! The gateway with two simulated sources and two subscribers in one process, to see it work.
//! What no clause of IEEE C37.118.2 is named for is a rule of this project.
#![tactic(auto)]

mod command_line;
mod fault;
mod keyboard;
mod run_demo;
mod setup;
mod simulators;
mod sockets;
mod state;
mod subscribers;
mod workers;

pub use command_line::{DemoError, demo_by, demo_words};
pub use fault::Fault;
pub use run_demo::{DemoOptions, demo};
