//! A clock that has lost its source of time: what a PMU says of it (C37.118.2, 6.2 and 6.3). The clock is of quartz and runs fast
//! or slow by a millionth, so that after a number of microseconds it is wrong by as many picoseconds.

ghost use Rattle.std.specs.Prelude.{◌≡◌, ◌≤◌};
ghost use Rattle.pg_tools.specs.Holdover.{pmu_quality, time_quality, unlocked_stat, unlocked_time};

/// The bit of STAT of a PMU that is not in sync with UTC.
const OUT_OF_SYNC: u16 = 0x2000;

/// The time quality of a frame, so many microseconds after the source was lost: code c, 1 to 11, is within 10^(c - 10) seconds of UTC, and 15
/// is beyond.
pub fn time_quality(unlocked: u64) -> u8
    ensures { result ≡ time_quality unlocked }
{
    match unlocked {
        0..=1_000 => 1,
        1_001..=10_000 => 2,
        10_001..=100_000 => 3,
        100_001..=1_000_000 => 4,
        1_000_001..=10_000_000 => 5,
        10_000_001..=100_000_000 => 6,
        100_000_001..=1_000_000_000 => 7,
        1_000_000_001..=10_000_000_000 => 8,
        10_000_000_001..=100_000_000_000 => 9,
        100_000_000_001..=1_000_000_000_000 => 10,
        1_000_000_000_001..=10_000_000_000_000 => 11,
        _ => 15,
    }
}

/// PMU time quality, STAT's bits 8 to 6, by the time quality of the frame.
fn pmu_quality(code: u8) -> u8
    ensures value { result ≡ pmu_quality code }
    ensures most { result ≤ 7 }
{
    match code {
        0..=3 => 1,
        4..=8 => code - 2,
        _ => 7,
    }
}

/// Unlocked time, STAT's bits 5 and 4, of so many microseconds.
fn unlocked_time(micros: u64) -> u8
    ensures value { result ≡ unlocked_time micros }
    ensures most { result ≤ 3 }
{
    match micros {
        0..=9_999_999 => 0,
        10_000_000..=99_999_999 => 1,
        100_000_000..=1_000_000_000 => 2,
        _ => 3,
    }
}

/// The bits of STAT that say how long the clock has been without its source, and how wrong it may be: 13, 8 to 6, and 5 and 4.
pub fn unlocked_stat(unlocked: u64) -> u16
    ensures { result ≡ unlocked_stat unlocked }
{
    OUT_OF_SYNC
        + 64 * u16::from(pmu_quality(time_quality(unlocked)))
        + 16 * u16::from(unlocked_time(unlocked))
}
