//! How good a source's data frames are, for those that ask.
ghost use Rattle.std.specs.Prelude.{◌≡◌, ◌-◌, ◌^◌, map};
ghost use Rattle.pg_quality.specs.Summing.{delay_summary, delays_below, frame_summary, metric_bounds};

use crate::completeness::Tally;
use crate::delay::{Delays, Histogram};
use crate::frame_quality::FrameQuality;
use crate::time_quality::TimeQuality;

/// How many bounds of delays are counted.
pub const BOUND_COUNT: usize = 13;

/// Bounds of delays in milliseconds. A bucket begins with each.
pub const BOUNDS: [i64; BOUND_COUNT] = [
    -1_024, -128, -16, 0, 16, 32, 64, 128, 256, 512, 1_024, 2_048, 8_192,
];

/// The delays of the last 60 seconds, in milliseconds.
#[derive(Clone, Copy, PartialEq, Eq)]
pub struct DelaySummary {
    /// The least.
    pub least: i64,
    /// The median.
    pub median: i64,
    /// The 99th per cent.
    pub most: i64,
    /// The greatest.
    pub greatest: i64,
}

/// How good a source's data frames are.
#[derive(Clone, Copy)]
pub struct FrameSummary {
    /// DATA_RATE.
    pub rate: i16,
    /// What came in the last 60 seconds.
    pub minute: Tally,
    /// What came in the last 60 minutes.
    pub hour: Tally,
    /// What came since the source connected.
    pub connected: Tally,
    /// How many spans began.
    pub spans: u64,
    /// Frames of an instant that had come.
    pub repeated: u64,
    /// Frames of an instant before the last one that had not come, or of which that is not known.
    pub out_of_order: u64,
    /// The delays of the last 60 seconds, if a frame came in them.
    pub delay: Option<DelaySummary>,
    /// How many of all frames have a delay below each of the bounds.
    pub below: [u64; BOUND_COUNT],
    /// How many frames came.
    pub frames: u64,
    /// Their time quality.
    pub time_quality: TimeQuality,
}

impl FrameSummary {
    /// How good data frames are in this second of this machine's clock.
    pub(crate) fn new(quality: &FrameQuality, second: u64) -> FrameSummary
        ensures { result ≡ frame_summary quality.now second }
    {
        let completeness = quality.completeness();
        let counts = quality.span_counts();
        let delays = quality.delays();
        FrameSummary {
            rate: quality.rate(),
            minute: completeness.last_minute(second),
            hour: completeness.last_hour(second),
            connected: completeness.since_connected(),
            spans: counts.begun,
            repeated: counts.repeated,
            out_of_order: counts.out_of_order,
            delay: delay_summary(&delays.last_minute(second)),
            below: delays_below(delays),
            frames: delays.count(),
            time_quality: quality.time_quality(),
        }
    }
}

/// What a histogram says, if a frame came.
fn delay_summary(histogram: &Histogram) -> Option<DelaySummary>
    ensures { result ≡ delay_summary histogram.now }
{
    let median = histogram.quantile(500)?;
    let most = histogram.quantile(990)?;
    Some(DelaySummary {
        least: histogram.least,
        median,
        most,
        greatest: histogram.greatest,
    })
}

/// How many of all frames have a delay below each of the bounds.
fn delays_below(delays: &Delays) -> [u64; BOUND_COUNT]
    ensures { result ≡ delays_below delays.now metric_bounds }
{
    [
        delays.below(BOUNDS[0]),
        delays.below(BOUNDS[1]),
        delays.below(BOUNDS[2]),
        delays.below(BOUNDS[3]),
        delays.below(BOUNDS[4]),
        delays.below(BOUNDS[5]),
        delays.below(BOUNDS[6]),
        delays.below(BOUNDS[7]),
        delays.below(BOUNDS[8]),
        delays.below(BOUNDS[9]),
        delays.below(BOUNDS[10]),
        delays.below(BOUNDS[11]),
        delays.below(BOUNDS[12]),
    ]
}
