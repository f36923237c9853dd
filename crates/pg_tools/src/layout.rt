//! The configuration of a simulated source: names, units and counts of its channels (C37.118.2, 6.4).

ghost use Rattle.std.specs.Prelude.{◌≡◌, ◌+◌, ◌%◌, ◌≤◌};

use crate::settings::{Nominal, Settings};
use std::alloc::{AllocError, Global};

/// How long a name is.
const NAME: usize = 16;

/// What a count of a voltage is: 10 V, in units of 10^-5 V (PHUNIT).
pub const VOLT_UNIT: u32 = 1_000_000;

/// What a count of a current is: 50 mA, in units of 10^-5 A (PHUNIT).
pub const AMPERE_UNIT: u32 = 5_000;

/// The digital inputs of a word that are used, its low four bits (DIGUNIT).
const USED_INPUTS: u16 = 0x000F;

/// What a phasor is of.
#[derive(Clone, Copy)]
pub enum Quantity {
    /// A voltage.
    Voltage,
    /// A current.
    Current,
}

/// What phasor k is of: three phases of a voltage, three of a current, and so on.
pub fn quantity_of(phasor: u8) -> Quantity {
    if phasor / 3 % 2 == 0 {
        Quantity::Voltage
    } else {
        Quantity::Current
    }
}

/// Whether the PMU at a place of the grid reports polar phasors, as each second one does; the others report rectangular
/// ones.
pub fn is_polar(place: u8) -> bool {
    place % 2 == 1
}

/// How many units of configuration 0 a unit of this configuration is, and a count stands for so many times as much: two where its number is odd.
pub fn scale_of(configuration: u64) -> u8
    ensures { result ≡ 1 + configuration % 2 }
{
    1 + (configuration % 2) as u8
}

/// CFGCNT of a configuration: 1 at first, and 0 behind 65,535.
pub fn count_of(configuration: u64) -> u16
    ensures { result ≡ (configuration + 1) % 65536 }
{
    ((configuration % 65_536 + 1) % 65_536) as u16
}

/// The blocks of all PMUs in the configuration of this number.
pub fn blocks_of(
    alloc: Global,
    settings: &Settings,
    configuration: u64,
) -> Result<Vec<u8>, AllocError> {
    let mut out = Vec::new(alloc);
    for pmu in 0..settings.numbers.pmus {
        add_block(alloc, &mut out, settings, configuration, pmu)?;
    }
    Ok(out)
}

/// Adds the block of PMU i: STN, IDCODE, FORMAT, counts, names, units, FNOM and CFGCNT.
fn add_block(
    alloc: Global,
    out: &mut Vec<u8>,
    settings: &Settings,
    configuration: u64,
    pmu: u8,
) -> Result<(), AllocError> {
    let id = settings.numbers.first.saturating_add(u16::from(pmu));
    let channels = settings.channels;
    add_name(out, &format!(in alloc; "SIMULATED {id}")?)?;
    add_word(out, id)?;
    add_word(out, u16::from(is_polar(settings.place.wrapping_add(pmu))))?;
    add_word(out, u16::from(channels.phasors))?;
    add_word(out, u16::from(channels.analogs))?;
    add_word(out, u16::from(channels.digitals))?;
    add_names(alloc, out, settings)?;
    add_units(out, settings, scale_of(configuration))?;
    add_word(
        out,
        match settings.nominal {
            Nominal::Fifty => 1,
            Nominal::Sixty => 0,
        },
    )?;
    add_word(out, count_of(configuration))
}

/// Adds the names of a PMU's channels.
fn add_names(alloc: Global, out: &mut Vec<u8>, settings: &Settings) -> Result<(), AllocError> {
    for phasor in 0..settings.channels.phasors {
        let of = match quantity_of(phasor) {
            Quantity::Voltage => "V",
            Quantity::Current => "I",
        };
        let phase = match phasor % 3 {
            0 => "A",
            1 => "B",
            _ => "C",
        };
        let set = phasor / 6;
        add_name(out, &format!(in alloc; "BUS{set} {of}{phase}")?)?;
    }
    for analog in 0..settings.channels.analogs {
        let of = if analog % 2 == 0 { "MW" } else { "MVAR" };
        let line = analog / 2;
        add_name(out, &format!(in alloc; "LINE{line} {of}")?)?;
    }
    for digital in 0..settings.channels.digitals {
        add_inputs(alloc, out, digital)?;
    }
    Ok(())
}

/// Adds the names of the sixteen inputs of a digital word, the least significant first.
fn add_inputs(alloc: Global, out: &mut Vec<u8>, digital: u8) -> Result<(), AllocError> {
    for input in 0..16u8 {
        let name = match input {
            0 => format!(in alloc; "BREAKER{digital}")?,
            1 => format!(in alloc; "ALARM{digital}")?,
            2 => format!(in alloc; "TRIP{digital}")?,
            3 => format!(in alloc; "MINUTE{digital}")?,
            _ => format!(in alloc; "SPARE{digital}.{input}")?,
        };
        add_name(out, &name)?;
    }
    Ok(())
}

/// Adds PHUNIT and ANUNIT of a PMU's channels, so many times as large as at first, and DIGUNIT.
fn add_units(out: &mut Vec<u8>, settings: &Settings, scale: u8) -> Result<(), AllocError>
    requires { scale ≤ 2 }
{
    for phasor in 0..settings.channels.phasors {
        let unit = match quantity_of(phasor) {
            Quantity::Voltage => u32::from(scale) * VOLT_UNIT,
            // The top byte 1 stands for a current.
            Quantity::Current => 0x0100_0000 + u32::from(scale) * AMPERE_UNIT,
        };
        out.extend_from_slice(&unit.to_be_bytes())?;
    }
    for _ in 0..settings.channels.analogs {
        // The top byte 1 stands for an effective value; a count is 1 at first.
        out.extend_from_slice(&[1, 0, 0, scale])?;
    }
    for _ in 0..settings.channels.digitals {
        add_word(out, 0)?;
        add_word(out, USED_INPUTS)?;
    }
    Ok(())
}

/// Adds a name, filled up with spaces.
fn add_name(out: &mut Vec<u8>, name: &String) -> Result<(), AllocError> {
    let bytes = name.as_bytes();
    for at in 0..NAME {
        out.push(bytes.get(at).copied().unwrap_or(b' '))?;
    }
    Ok(())
}

/// Adds two bytes.
pub fn add_word(out: &mut Vec<u8>, word: u16) -> Result<(), AllocError> {
    out.extend_from_slice(&word.to_be_bytes())
}
