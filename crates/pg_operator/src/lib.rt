//! What an operator writes: lines, and the setup file with what it asks for and what is wrong with it. Lines are read by pg_lines,
//! whose names stand here too; a program that needs no setup file stands on that crate alone.
//! What no clause of IEEE C37.118.2 is named for is a rule of this project.
#![tactic(auto)]

mod address;
mod faults;
mod general;
mod key_texts;
mod keys;
mod kind;
mod lines;
mod place;
mod pmu;
mod port_rules;
mod setup;
mod shown;
mod source;
mod stream;
mod table;

pub use address::SourceAddress;
pub use faults::{Fault, Wrong, setup_faults};
pub use general::{LogLevel, is_gateway_name};
pub use key_texts::help_on_keys;
pub use kind::{Found, Heading, Kind, Misfit};
pub use lines::{SetupLines, SetupTable};
pub use pg_lines::{Steer, parse_line, parse_steer, words_of};
pub use place::{BoundBy, line_of_key};
pub use port_rules::{PortRules, PortSetup};
pub use setup::{Setup, SubscriberSetup, read_setup, setup_edits};
pub use shown::{PortState, Shown, StreamState, print_subscriber};
pub use source::{SourceRules, SourceSetup};
