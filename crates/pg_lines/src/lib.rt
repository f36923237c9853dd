//! The lines of an operator, one edit each, the lines that answer them, and the words of lines and of the setup file. The service and the
//! replay of a script read and answer them alike.
//! What no clause of IEEE C37.118.2 is named for is a rule of this project.
#![tactic(auto)]

pub mod address;
mod answers;
mod define;
mod edits;
mod line;
mod question;
mod steer;
mod verb;
pub mod words;

pub use answers::{NotPrinted, print_counters, print_hex, print_refusal, print_reply};
pub use define::Numbers;
pub use edits::{is_comment, read_edit, without_end};
pub use line::{parse_line, words_of};
pub use question::{Question, parse_question};
pub use steer::{Steer, parse_steer};
