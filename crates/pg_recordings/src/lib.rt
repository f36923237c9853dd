//! What can be asked of recordings: the script that replays them, whether the replay hands each subscriber the bytes that the service
//! handed it, and why a subscriber was sent what it was sent.
//! What no clause of IEEE C37.118.2 is named for is a rule of this project.
#![tactic(auto)]

mod capture;
mod command_line;
mod explained;
mod explanation;
mod fates;
mod help;
mod input;
mod laws;
mod line;
mod reader;
mod replayed;
mod script;
mod verification;

pub use command_line::{
    RecordingsError, explain_by, explain_words, script_by, script_words, verify_by, verify_words,
};
pub use explained::Totals;
pub use explanation::{Inquiry, explain};
pub use input::input_of;
pub use laws::records_are_spelled;
pub use line::line_of;
pub use reader::{Fault, Notice, RecordReader, Start, Step};
pub use script::{print_script, read_time};
pub use verification::{Verdict, verify};
