//! The gateway: which PMUs are registered, and the subscribers, each a private gateway of its own. One event is one atomic
//! step.
//! What no clause of IEEE C37.118.2 is named for is a rule of this project.
#![tactic(auto)]

mod announcing;
mod asking;
mod blocks;
mod broadcast;
mod deliver;
mod edit;
mod event;
mod gate;
mod gateway;
mod laws;
mod machine;
mod routes;
mod slot;
mod state;

pub use edit::Edit;
pub use event::{Event, Reply};
pub use gate::Gate;
pub use gateway::Gateway;
pub use laws::{
    each_goes_by_its_view, equal_views_leave_alike, nothing_lost_is_full, own_blocks_alone,
};
pub use pg_ring::Drained;
pub use pg_session::{MemberPlace, MemberStanding, Standing, StreamStanding};
