//! Time alignment: the open slots of a stream, and which of them leave when.
//! What no clause of IEEE C37.118.2 is named for is a rule of this project.
//!
//! A slot opens with its first arrival. The least open slot leaves when all effective members have come, when it has
//! waited long enough, or when more than the window are open; a flush lets all of them leave.
#![tactic(auto)]

mod align;
mod answer;
mod counts;
mod laws;
mod slot;

pub use align::{Align, Left};
pub use answer::Arrived;
pub use counts::{Cause, SlotCounts};
pub use laws::{
    all_flushed_in_steps, all_leaving_in_steps, counts_look_back, few_stay_open,
    flushing_shows_history, leaving_repeats, leaving_shows_history, slots_rise,
};
