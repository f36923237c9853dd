//! Frames of a synchrophasor stream: their check, their heads, and how a stream is cut into them.
//! What no clause of IEEE C37.118.2 is named for is a rule of this project.
#![tactic(auto)]

mod checksum;
mod crc_shift;
mod deframer;
mod head;
mod ids;
mod kind;
mod laws;
mod refusal;

pub use checksum::{check, check_alone, check_bytewise, check_head, check_more};
pub use crc_shift::{CrcShift, body_alone};
pub use deframer::{CAPACITY, Deframer, Taken, is_frame};
pub use head::{Head, end_frame, end_frame_by, head_bytes, read_head, start_frame};
pub use ids::{PmuId, PmuKey, StreamId, SubId};
pub use kind::Kind;
pub use laws::{
    frame_is_spelled, goes_on, no_frame_begins_another, one_remainder, one_split,
    spelling_is_frame, split_appends, started_is_spelled, stream_is_split,
};
pub use refusal::Refusal;
