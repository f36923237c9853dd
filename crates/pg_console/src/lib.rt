//! A gateway that threads share is set up, its workers are made, and its operator's lines are answered, whoever runs it.
//! What no clause of IEEE C37.118.2 is named for is a rule of this project.
#![tactic(auto)]

mod admin_listeners;
mod advise;
mod backend;
mod builder;
mod console;
mod delay_watch;
mod mailboxes;
mod reloads;
mod runtime;
mod seats;
mod service_handle;
mod service_worker;
mod shared_state;
mod snapshot;

pub use admin_listeners::AdminListeners;
pub use backend::ControlBackend;
pub use builder::{ServiceBuilder, ServicePlan};
pub use console::{Console, NoServiceCommands, ServiceCommands, answer_lines};
pub use delay_watch::DelayWatch;
pub use mailboxes::{Mailboxes, Pollers, WorkerCounts};
pub use reloads::Reloads;
pub use runtime::Runtime;
pub use seats::{HoldsSeat, SetUp, serve_by, set_up};
pub use service_handle::ServiceHandle;
pub use service_worker::ServiceWorker;
pub use shared_state::SharedState;
