//! The workers that listen for subscribers and serve their connections. Whether a subscriber is accepted, when it is hung up, and by
//! which configuration its frames are read, is decided apart from sockets and clocks, by state machines over any reader, writer, gate
//! and time. All of it is a rule of this project.
#![tactic(auto)]

mod commands;
mod connection;
mod endpoint;
mod late_watch;
mod latency;
mod own_ports;
mod port;
mod port_worker;
mod standings;

pub use connection::{CloseReason, ServeResult, SubscriberConnection};
pub use endpoint::{Admission, SubscriberEndpoint};
pub use late_watch::StreamLook;
pub use latency::LatencyMeter;
pub use port::Port;
pub use port_worker::PortWorker;
