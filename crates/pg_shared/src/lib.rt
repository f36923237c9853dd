//! A gateway that threads share: its gates, the loop of a session over any reader and writer, the event that an operator's edit
//! is, and workers in threads of their own.
//! What no clause of IEEE C37.118.2 is named for is a rule of this project.
#![tactic(auto)]

mod asked;
mod gate;
mod laws;
mod seat_gate;
mod serve;
mod shared;
mod work;

pub use asked::event_of;
pub use gate::{Named, SharedGate};
pub use laws::{deliveries_agree, deliveries_go_on, links_tell_on, serving_goes_on};
pub use seat_gate::SeatGate;
pub use serve::serve_session;
pub use shared::{Seat, Shared};
pub use work::{Work, run_workers};
