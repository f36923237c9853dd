//! Command frames: what a subscriber commands, and what a link commands its source.
//! What no clause of IEEE C37.118.2 is named for is a rule of this project.
#![tactic(auto)]

mod command;
mod laws;
mod word;

pub use command::{Command, read_command, write_command};
pub use laws::{one_command, written_is_read};
pub use word::Word;
