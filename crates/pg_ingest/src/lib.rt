//! The link to a source: its bytes become announcements and measurements, and it is asked for what is missing.
//! What no clause of IEEE C37.118.2 is named for is a rule of this project.
#![tactic(auto)]

mod asking;
mod laws;
mod link;
mod pending;
mod read_frame;
mod run;
mod spares;
mod transfer;

pub use laws::{
    calls_are_one_run, calls_serve_the_source, command_is_owed, told_goes_on, told_is_a_function,
    told_is_own, words_are_due,
};
pub use link::{Link, LinkEvent};
pub use run::{End, run_link};
pub use transfer::{PIECE, end_of_read, write_bytes};
