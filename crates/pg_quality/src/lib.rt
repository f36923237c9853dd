//! How good the data of a source and of its PMUs are, apart from sockets and clocks: the instants for which a frame came, the delay and the time quality
//! of its frames ([`FrameQuality`]); STAT and the frequency of a PMU's blocks ([`BlockQuality`]). It takes no memory, and nothing in it overflows,
//! whatever a source sends. Fields are those of C37.118.2; what no clause of it is named for is a rule of this project.
#![tactic(auto)]

mod block_quality;
mod completeness;
mod delay;
mod frame_quality;
mod frame_time;
mod frequency;
mod pmu_quality;
mod source_quality;
mod span;
mod spans;
mod stat;
mod summary;
mod time_quality;
mod watch;

pub use block_quality::{Block, BlockQuality};
pub use completeness::{Completeness, Row, Tally};
pub use delay::{BUCKETS, Delays, Histogram};
pub use frame_quality::FrameQuality;
pub use frame_time::FrameTime;
pub use frequency::{Band, Frequency, FrequencyRow, nominal_of};
pub use pmu_quality::{PmuQuality, PmuSummary};
pub use source_quality::SourceQuality;
pub use span::{JUMP_SECONDS, Place, Span, SpanCounts};
pub use spans::Spans;
pub use stat::{StatCounts, StatTally};
pub use summary::{BOUND_COUNT, BOUNDS, DelaySummary, FrameSummary};
pub use time_quality::TimeQuality;
pub use watch::{PmuChanges, PmuWatch, is_short_after};
