//! What a simulated PMU measures: its data block (C37.118.2, 6.3).

ghost use Rattle.std.specs.Prelude.{◌≡◌, pos, negsuc, ◌≤ℤ◌};

use crate::layout::{Quantity, add_word, is_polar, quantity_of, scale_of};
use crate::settings::{Nominal, Settings};
use crate::signal::{Grid, grid_at, part, turning};
use crate::unix_time::UnixTime;
use crate::wave::{UNIT, cosine, sine};
use std::alloc::AllocError;

/// The largest count of a value. The least one, -32768, stands for a value that is absent.
const MOST: i64 = 32_767;

/// Twice pi in steps of a polar angle, 10^-4 radians.
const WHOLE_TURN: i64 = 62_832;

/// A third of a turn.
const THIRD: u32 = 0x5555_5555;

/// A phasor: its magnitude in counts, and its angle, of which 2^32 are a turn.
#[derive(Clone, Copy)]
struct Phasor {
    magnitude: i64,
    turn: u32,
}

impl Phasor {
    /// The same, in counts that stand for so many times as much.
    fn in_unit(self, scale: i64) -> Phasor {
        Phasor {
            magnitude: part(self.magnitude, 1, scale),
            turn: self.turn,
        }
    }
}

/// A value as a count of 16 bits, held at -32767 and 32767.
fn count(value: i64) -> i16
    ensures least { negsuc 32766 ≤ℤ result }
    ensures most { result ≤ℤ pos 32767 }
    ensures same { negsuc 32766 ≤ℤ value → value ≤ℤ pos 32767 → result ≡ value }
{
    value.clamp(-MOST, MOST) as i16
}

/// Adds a count.
fn add_count(out: &mut Vec<u8>, value: i64) -> Result<(), AllocError> {
    out.extend_from_slice(&count(value).to_be_bytes())
}

/// Adds the data block of PMU i at an instant: STAT, its phasors, the deviation of the frequency in millihertz and its change
/// in hundredths of a hertz a second, its analog values and digital words. Phasors and analog values are in the units of this configuration.
pub fn add_measured(
    out: &mut Vec<u8>,
    settings: &Settings,
    at: UnixTime,
    pmu: u8,
    stat: u16,
    configuration: u64,
) -> Result<(), AllocError> {
    let place = settings.place.wrapping_add(pmu);
    let grid = grid_at(at, place % 2 == 1);
    let scale = i64::from(scale_of(configuration));
    add_word(out, stat)?;
    for k in 0..settings.channels.phasors {
        let phasor = phasor_at(at, &grid, settings.nominal, place, k).in_unit(scale);
        if is_polar(place) {
            add_polar(out, phasor)?;
        } else {
            add_rectangular(out, phasor)?;
        }
    }
    add_count(out, grid.deviation / 1_000)?;
    add_count(out, grid.change / 10_000)?;
    for k in 0..settings.channels.analogs {
        add_count(out, part(analog_at(at, &grid, place, k), 1, scale))?;
    }
    for k in 0..settings.channels.digitals {
        add_word(out, digital_at(at, place, k))?;
    }
    Ok(())
}

/// The real and the imaginary part.
fn add_rectangular(out: &mut Vec<u8>, phasor: Phasor) -> Result<(), AllocError> {
    add_count(out, part(phasor.magnitude, cosine(phasor.turn), UNIT))?;
    add_count(out, part(phasor.magnitude, sine(phasor.turn), UNIT))
}

/// The magnitude, and the angle in 10^-4 radians.
fn add_polar(out: &mut Vec<u8>, phasor: Phasor) -> Result<(), AllocError> {
    add_word(out, phasor.magnitude.clamp(0, MOST) as u16)?;
    let half_turns = i64::from(phasor.turn.cast_signed());
    add_count(out, part(half_turns, WHOLE_TURN, 0x1_0000_0000))
}

/// Phasor k of PMU i. Voltages stay within some percent of the nominal one; currents lag, and swing more.
fn phasor_at(at: UnixTime, grid: &Grid, nominal: Nominal, pmu: u8, k: u8) -> Phasor {
    let (nominal, lag, drift, swing) = match quantity_of(k) {
        // 288.7 kV or 230.9 kV to earth, a count of 10 V.
        Quantity::Voltage => match nominal {
            Nominal::Sixty => (28_868, 0, 150, 300),
            Nominal::Fifty => (23_094, 0, 120, 240),
        },
        // 1,000 A, a count of 50 mA; a lag of 18 degrees.
        Quantity::Current => (20_000, 0x0CCC_CCCC, 900, 1_500),
    };
    let slow = sine(turning(at, 47).wrapping_add(u32::from(pmu).wrapping_mul(0x1234_5678)));
    let back = u32::from(k % 3)
        .wrapping_mul(THIRD)
        .wrapping_add(lag)
        // PMUs stand 4 degrees apart.
        .wrapping_add(u32::from(pmu).wrapping_mul(0x02D8_2D83));
    Phasor {
        magnitude: part(drift, slow, UNIT)
            .saturating_add(nominal)
            .saturating_sub(part(swing, grid.swing, UNIT)),
        turn: grid.turn.wrapping_sub(back),
    }
}

/// Analog value k of PMU i: power in MW or Mvar, which goes up and down in five minutes and with the swing.
fn analog_at(at: UnixTime, grid: &Grid, pmu: u8, k: u8) -> i64 {
    let angle = turning(at, 300).wrapping_add(u32::from(pmu).wrapping_mul(0x3000_0000));
    let level = if k % 2 == 0 { 800 } else { 120 };
    part(level / 5, sine(angle), UNIT)
        .saturating_add(level)
        .saturating_add(part(level / 8, grid.swing, UNIT))
        .saturating_add(i64::from(k))
}

/// Digital word k of PMU i: the breaker changes each ten seconds, an alarm stands in each minute's first second, a trip in the
/// second after it, and the last input is the parity of the minute.
fn digital_at(at: UnixTime, pmu: u8, k: u8) -> u16 {
    let soc = at.soc();
    let shifted = soc.wrapping_add(u32::from(pmu)).wrapping_add(u32::from(k));
    let breaker = u16::from(shifted / 10 % 2 == 0);
    let alarm = u16::from(soc % 60 == 0);
    let trip = u16::from(soc % 60 == 1);
    let minute = u16::from(soc / 60 % 2 == 1);
    breaker + 2 * alarm + 4 * trip + 8 * minute
}
