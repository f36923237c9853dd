//! Data frames: what the PMUs of a source measured at one instant, one data block for each.
//! What no clause of IEEE C37.118.2 is named for is a rule of this project.
#![tactic(auto)]

mod filler;
mod frame;
mod laws;
mod read;
mod shared;
mod write;

pub use filler::filler_into;
pub use frame::DataFrame;
pub use laws::{
    block_is_spelled, filler_is_block, one_resolution, own_block_alone, written_is_read,
};
pub use read::{read_data, read_data_over};
pub use shared::SharedBlock;
pub use write::write_data;
