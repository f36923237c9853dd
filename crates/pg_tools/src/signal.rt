//! The signals of a plausible grid, as functions of the time alone.

use crate::unix_time::UnixTime;
use crate::wave::{UNIT, cosine, decay, sine};

/// A slow drift of the angle.
#[derive(Clone, Copy)]
struct Drift {
    /// Its period, in seconds.
    seconds: u32,
    /// How far it turns the angle, of which 2^32 are a turn.
    turn: i64,
    /// The deviation of the frequency that goes with it, in microhertz.
    deviation: i64,
    /// The rate of change of that, in microhertz a second.
    change: i64,
}

/// The drifts of a grid: together at most 12 mHz.
const DRIFTS: [Drift; 3] = [
    Drift {
        seconds: 600,
        turn: 2_050_695_827,
        deviation: 5_000,
        change: 52,
    },
    Drift {
        seconds: 97,
        turn: 265_223_327,
        deviation: 4_000,
        change: 259,
    },
    Drift {
        seconds: 23,
        turn: 47_166_004,
        deviation: 3_000,
        change: 820,
    },
];

/// How far a swing turns the angle at first, of which 2^32 are a turn: 1.5 degrees.
const SWING_TURN: i64 = 18_038_863;

/// The state of the grid at an instant, as one PMU sees it.
#[derive(Clone, Copy)]
pub struct Grid {
    /// How far the angle has turned from that of the nominal frequency: 2^32 are a turn.
    pub turn: u32,
    /// The frequency less the nominal one, in microhertz: within 20,000.
    pub deviation: i64,
    /// The rate of change of the frequency, in microhertz a second.
    pub change: i64,
    /// How strongly the minute's swing pushes, of `UNIT`.
    pub swing: i64,
}

/// A part of a whole: `amount` times `share` of `whole`.
pub fn part(amount: i64, share: i64, whole: i64) -> i64 {
    amount.saturating_mul(share).checked_div(whole).unwrap_or(0)
}

/// The angle of something that turns once in so many seconds: 2^32 are a turn.
pub fn turning(at: UnixTime, seconds: u32) -> u32 {
    let period = u64::from(seconds.max(1)) * 1_000_000;
    // The fraction of a period, in 2^32ths: of a period of at most an hour it fits.
    let past = at.micros % period;
    (past.saturating_mul(0x1_0000_0000) / period % 0x1_0000_0000) as u32
}

/// The grid at an instant: slow drifts of the frequency within 12 mHz, and a swing of 0.3 Hz that begins with each minute at
/// 8 mHz and dies away. `is_against` is of a PMU at the other end of the grid, which swings the other way.
pub fn grid_at(at: UnixTime, is_against: bool) -> Grid {
    let mut turn = 0i64;
    let mut deviation = 0i64;
    let mut change = 0i64;
    for drift in DRIFTS {
        let angle = turning(at, drift.seconds);
        turn = turn.saturating_add(part(drift.turn, sine(angle), UNIT));
        deviation = deviation.saturating_add(part(drift.deviation, cosine(angle), UNIT));
        change = change.saturating_sub(part(drift.change, sine(angle), UNIT));
    }
    let swing = swing_at(at, is_against);
    Grid {
        turn: low_bits(turn.saturating_add(swing.turn)),
        deviation: deviation.saturating_add(swing.deviation),
        change: change.saturating_add(swing.change),
        swing: swing.push,
    }
}

/// What a swing adds.
#[derive(Clone, Copy)]
struct Swing {
    turn: i64,
    deviation: i64,
    change: i64,
    push: i64,
}

/// The swing of the minute: 18 periods of 0.3 Hz, which die away with a time constant of 8 seconds.
fn swing_at(at: UnixTime, is_against: bool) -> Swing {
    let within = at.micros % 60_000_000;
    let left = decay((within / 1_000_000) as u32, (within % 1_000_000) as u32);
    let angle = (within * 3 % 10_000_000 * 0x1_0000_0000 / 10_000_000 % 0x1_0000_0000) as u32;
    let left = if is_against {
        0i64.saturating_sub(left)
    } else {
        left
    };
    let up = part(sine(angle), left, 65_536);
    let along = part(cosine(angle), left, 65_536);
    Swing {
        turn: part(SWING_TURN, up, UNIT),
        deviation: part(7_917, along, UNIT).saturating_sub(part(525, up, UNIT)),
        change: part(-14_857, up, UNIT).saturating_sub(part(1_979, along, UNIT)),
        push: up,
    }
}

/// The low 32 bits, so that an angle is counted from 0 again after a turn.
fn low_bits(angle: i64) -> u32 {
    (angle.cast_unsigned() % 0x1_0000_0000) as u32
}
