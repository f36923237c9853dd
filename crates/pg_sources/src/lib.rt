//! What makes frames: the workers that call sources and serve their connections, and the clock's ticks. When a source is called is decided apart from
//! sockets and clocks, by a state machine over any reader, writer, gate and time. What a source sends is measured before it is posted. All of it is a
//! rule of this project.
#![tactic(auto)]

mod counted_announcements;
mod measures;
mod own_sources;
mod pace;
mod quality_gate;
mod source;
mod source_entry;
mod source_worker;
mod ticker;
mod trial;

pub use counted_announcements::CountedAnnouncements;
pub use measures::Measures;
pub use own_sources::clock_ms;
pub use quality_gate::QualityGate;
pub use source::{SourceConnection, Turn};
pub use source_worker::SourceWorker;
pub use ticker::Ticker;
