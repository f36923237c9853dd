//! The world: the gateway with the links of its sources and the sessions of its subscribers, over lists of inputs. The gateway
//! that threads share, its gates and its loops are those of pg_shared, and are named here too.
//! What no clause of IEEE C37.118.2 is named for is a rule of this project.
#![tactic(auto)]

mod feeding;
mod input;
mod laws;
mod source_link;
mod world;
mod world_core;

pub use input::{Input, Note, Output};
pub use laws::{
    equal_views_queue_alike, frames_are_events, neighbours_change_nothing, own_blocks_alone,
    replays_alike, ungranted_bytes_change_nothing,
};
pub use pg_shared::{
    Named, Seat, SeatGate, Shared, SharedGate, Work, deliveries_agree, deliveries_go_on, event_of,
    links_tell_on, run_workers, serve_session, serving_goes_on,
};
pub use world::World;
