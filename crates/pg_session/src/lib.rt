//! One subscriber: a private gateway of its own, and the session that cuts its bytes into commands.
//! What no clause of IEEE C37.118.2 is named for is a rule of this project.
#![tactic(auto)]

mod accepting;
mod arriving;
mod change;
mod copying;
mod event;
mod filling;
mod laws;
mod layouts;
mod leaving;
mod listing;
mod output;
mod pending;
mod reply;
mod session;
mod standing;
mod stream;
mod streams;
mod subscriber;

pub use copying::copy_parts;
pub use event::{PrivateEvent, PrivateReply};
pub use laws::{
    changes_are_told, no_slot_needs_no_memory, numbers_are_kept, only_time_ends, runs_go_on,
    stamps_rise,
};
pub use layouts::Layouts;
pub use session::{Next, Session};
pub use standing::{MemberPlace, MemberStanding, Standing, StreamStanding};
pub use subscriber::Subscriber;
