//! The gateway as it runs: its setup is posted, its workers serve, and an operator's lines are answered.
//! What no clause of IEEE C37.118.2 is named for is a rule of this project.
#![tactic(auto)]

mod admin_listeners;
mod failure;
mod make_workers;
mod naming;
mod operator;
mod recording;
mod redefined;
mod reload_worker;
mod reloading;
mod run_context;
mod running;
mod served;
mod serving;
mod showing;
mod steering;
mod stoppable_stdin;
mod workers;

pub use failure::Failure;
pub use pg_console::Runtime;
pub use running::{Start, run};
