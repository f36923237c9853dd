//! Recordings of a gateway's history: the records of what was posted, each with its place in the one history of all threads, and
//! how the records of several workers are put into order again. A place without a record is a gap, and shows.
//! What no clause of IEEE C37.118.2 is named for is a rule of this project.
#![tactic(auto)]

mod block;
mod checksum;
mod elapsed;
mod laws;
mod merge;
mod numbers;
mod record;
mod recording;
mod tape;

pub use block::{
    BLOCK_HEAD, BlockHead, FoundBlock, PRELUDE, block_head, next_block, read_block_head,
};
pub use checksum::{short_sum, sum};
pub use elapsed::Elapsed;
pub use laws::{block_head_is_read, record_is_read};
pub use merge::{Merge, Merged, Timed};
pub use record::{
    AROUND_BODY, DONE, LOST, Record, RecordKind, read_record, record_end, record_start,
};
pub use recording::{Placed, Recording, Records, is_row};
pub use tape::{Front, Tape, TapedCall, TapedCalls};
