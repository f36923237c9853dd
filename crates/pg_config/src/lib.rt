//! Configuration frames and header frames: what a source and its PMUs announce of themselves, and what a stream's subscriber is sent.
//! What no clause of IEEE C37.118.2 is named for is a rule of this project.
#![tactic(auto)]

mod laws;
mod read;
mod source;
mod write;

pub use laws::{
    filled_is_frame, output_is_read, own_block_alone, source_is_read, written_is_read,
    written_is_spelled,
};
pub use read::read_config;
pub use source::{Announced, PmuConfig, SourceConfig};
pub use write::{end_config, start_config, write_config, write_header, write_source};
