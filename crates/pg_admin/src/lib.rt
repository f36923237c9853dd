//! The control socket, and by HTTP the page and the metrics. One worker serves them, so that they cost the workers of sources and
//! subscribers no turn. pg_status decides what is sent over a connection; here are the sockets, and when they are served; a client of the control socket;
//! and what the program prints where it ends by an error. All of it is a rule of this project.
#![tactic(auto)]

mod admin_server;
mod asking;
mod backend;
mod client_text;
mod control_server;
mod events;
mod http_server;
mod listening;
mod refusal_text;
mod snapshot_cache;
mod start_text;

pub use admin_server::AdminServer;
pub use asking::ask;
pub use backend::AdminBackend;
pub use client_text::{not_answered, not_reached};
pub use listening::listen_at;
pub use refusal_text::{Signed, say};
pub use start_text::{Bound, not_bound, not_read};
