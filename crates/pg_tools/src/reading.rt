//! A PMU's data block in units, by its configuration (C37.118.2, 6.3 and 6.4). Whatever the configuration says, what does not
//! stand in the bytes reads as 0.

use pg_config::PmuConfig;
use std::fmt;

/// A value that is absent (own rule of the gateway, and the usual one).
const ABSENT: u16 = 0x8000;

/// How long a name is.
const NAME: usize = 16;

/// The bytes of a configuration block before its names.
const BEFORE_NAMES: usize = 26;

/// A name, as it stands in a configuration: what is no printable ASCII shows as `?`, and the spaces behind it are left out. So no
/// name writes to the terminal what it likes.
#[derive(Clone, Copy)]
pub struct Name {
    bytes: [u8; NAME],
}

impl Name {
    /// How many letters it has, without the spaces behind them.
    pub fn len(&self) -> usize {
        let mut len = 0;
        for (at, byte) in self.bytes.iter().enumerate() {
            if *byte != b' ' && *byte != 0 {
                len = at + 1;
            }
        }
        len
    }

    /// Its bytes as they came, without the spaces behind them: 0 to 16.
    pub fn bytes(&self) -> &[u8] {
        self.bytes.get(..self.len()).unwrap_or(&[])
    }
}

impl fmt::Display for Name {
    fn fmt<W: fmt::Write>(&self, f: &mut fmt::Formatter<W>) -> fmt::Result {
        for byte in self.bytes.iter().take(self.len()) {
            write!(f, "{}", shown(*byte))?;
        }
        Ok(())
    }
}

/// A byte of a text as it is shown: what is no printable ASCII as `?`.
pub fn shown(byte: u8) -> char {
    match byte {
        b' '..=b'~' => char::from(byte),
        _ => '?',
    }
}

/// A name in a line of values with commas between: its own commas and quotes show as `_`.
#[derive(Clone, Copy)]
pub struct Cell(pub Name);

impl fmt::Display for Cell {
    fn fmt<W: fmt::Write>(&self, f: &mut fmt::Formatter<W>) -> fmt::Result {
        for byte in self.0.bytes.iter().take(self.0.len()) {
            match shown(*byte) {
                ',' | '"' => f.write_str("_")?,
                letter => write!(f, "{letter}")?,
            }
        }
        Ok(())
    }
}

/// A phasor in volts or amperes, and degrees.
#[derive(Clone, Copy)]
pub struct Polar {
    /// Its magnitude.
    pub magnitude: f64,
    /// Its angle, -180 to 180 degrees.
    pub degrees: f64,
    /// Whether it is of a current.
    pub is_current: bool,
}

/// The block of one PMU, with its configuration.
#[derive(Clone, Copy)]
pub struct Reading<'a> {
    config: &'a [u8],
    phasors: u16,
    analogs: u16,
    digitals: u16,
    block: &'a [u8],
}

impl<'a> Reading<'a> {
    /// A data block by its configuration.
    pub fn new(part: &'a PmuConfig, block: &'a [u8]) -> Reading<'a> {
        Reading {
            config: &part.block,
            phasors: part.phasors,
            analogs: part.analogs,
            digitals: part.digitals,
            block,
        }
    }

    /// The PMU's name, STN.
    pub fn station(&self) -> Name {
        name_at(self.config, 0)
    }

    /// The name of channel k: phasors first, then analog values.
    pub fn channel(&self, k: usize) -> Name {
        name_at(
            self.config,
            BEFORE_NAMES.saturating_add(NAME.saturating_mul(k)),
        )
    }

    /// The name of input i of digital word k: i is 0, the least significant bit, to 15.
    pub fn input(&self, k: usize, i: usize) -> Name {
        let first = usize::from(self.phasors) + usize::from(self.analogs);
        self.channel(
            first
                .saturating_add(16usize.saturating_mul(k))
                .saturating_add(i),
        )
    }

    /// How many phasors it has.
    pub fn phasors(&self) -> usize {
        usize::from(self.phasors)
    }

    /// How many analog values it has.
    pub fn analogs(&self) -> usize {
        usize::from(self.analogs)
    }

    /// How many digital words it has.
    pub fn digitals(&self) -> usize {
        usize::from(self.digitals)
    }

    /// The unit of phasor k by PHUNIT: `A` for a current, `V` for all else.
    pub fn phasor_unit(&self, k: usize) -> &'static str {
        if is_of_current(self.unit(k)) {
            "A"
        } else {
            "V"
        }
    }

    /// What analog value k is, by the top byte of ANUNIT: `sample`, a single point on the wave; `rms`; `peak`; `user` for all else.
    pub fn analog_unit(&self, k: usize) -> &'static str {
        match self.unit(self.phasors().saturating_add(k)) / 0x0100_0000 {
            0 => "sample",
            1 => "rms",
            2 => "peak",
            _ => "user",
        }
    }

    /// CFGCNT.
    pub fn config_count(&self) -> u16 {
        word_at(self.config, self.config.len().saturating_sub(2))
    }

    /// STAT.
    pub fn stat(&self) -> u16 {
        word_at(self.block, 0)
    }

    /// Whether the data are good: bits 15 and 14 of STAT are 0.
    pub fn is_good(&self) -> bool {
        self.stat() / 0x4000 == 0
    }

    /// Whether it is a filler: STAT 0x8000 and FREQ 0x8000 (own rule of the gateway).
    pub fn is_filler(&self) -> bool {
        self.stat() == ABSENT && word_at(self.block, self.after_phasors()) == ABSENT
    }

    /// The nominal frequency in Hz: 50 or 60, by FNOM.
    pub fn nominal(&self) -> u16 {
        let at = self.config.len().saturating_sub(4);
        if word_at(self.config, at) % 2 == 1 {
            50
        } else {
            60
        }
    }

    /// The frequency in millihertz, unless it is absent.
    pub fn millihertz(&self) -> Option<i32> {
        let deviation = self.count_at(self.after_phasors())?;
        Some(1_000 * i32::from(self.nominal()) + i32::from(deviation))
    }

    /// The frequency in hertz, unless it is absent.
    pub fn hertz(&self) -> Option<f64> {
        let millihertz = self.millihertz()?;
        Some(f64::from(millihertz) / 1_000.0)
    }

    /// The rate of change of the frequency in hertz a second, unless it is absent.
    pub fn hertz_per_second(&self) -> Option<f64> {
        let change = self.change()?;
        Some(f64::from(change) / 100.0)
    }

    /// The rate of change of the frequency in hundredths of a hertz a second, unless it is absent.
    pub fn change(&self) -> Option<i16> {
        self.count_at(self.after_phasors().saturating_add(2))
    }

    /// Phasor k, unless it is absent.
    pub fn phasor(&self, k: usize) -> Option<Polar> {
        let at = 4usize.saturating_mul(k).saturating_add(2);
        let first = word_at(self.block, at);
        let second = word_at(self.block, at.saturating_add(2));
        if first == ABSENT && second == ABSENT {
            return None;
        }
        let unit = self.unit(k);
        let scale = f64::from(unit % 0x0100_0000) / 100_000.0;
        let (magnitude, radians) = if word_at(self.config, 18) % 2 == 1 {
            (f64::from(first), f64::from(second.cast_signed()) / 10_000.0)
        } else {
            let real = f64::from(first.cast_signed());
            let imaginary = f64::from(second.cast_signed());
            (real.hypot(imaginary), imaginary.atan2(real))
        };
        Some(Polar {
            magnitude: magnitude * scale,
            degrees: radians * 57.295_779_513_082_32,
            is_current: is_of_current(unit),
        })
    }

    /// Analog value k times the scale of its ANUNIT, unless it is absent. A scale of 0 counts as 1.
    pub fn analog(&self, k: usize) -> Option<i64> {
        let at = self
            .after_phasors()
            .saturating_add(4)
            .saturating_add(2usize.saturating_mul(k));
        let unit = self.unit(usize::from(self.phasors).saturating_add(k));
        let low = i64::from(unit % 0x0100_0000);
        let scale = match low {
            0 => 1,
            1..=0x7F_FFFF => low,
            _ => low.saturating_sub(0x0100_0000),
        };
        Some(scale.saturating_mul(i64::from(self.count_at(at)?)))
    }

    /// Digital word k.
    pub fn digital(&self, k: usize) -> u16 {
        let at = self
            .after_phasors()
            .saturating_add(4)
            .saturating_add(2usize.saturating_mul(usize::from(self.analogs)))
            .saturating_add(2usize.saturating_mul(k));
        word_at(self.block, at)
    }

    /// Where FREQ stands.
    fn after_phasors(&self) -> usize {
        2 + 4 * usize::from(self.phasors)
    }

    /// A count, unless it is absent.
    fn count_at(&self, at: usize) -> Option<i16> {
        match word_at(self.block, at) {
            ABSENT => None,
            word => Some(word.cast_signed()),
        }
    }

    /// PHUNIT of phasor k, or behind them ANUNIT.
    fn unit(&self, k: usize) -> u32 {
        let names = usize::from(self.phasors)
            + usize::from(self.analogs)
            + 16 * usize::from(self.digitals);
        let at = (BEFORE_NAMES + NAME * names).saturating_add(4usize.saturating_mul(k));
        let high = u32::from(word_at(self.config, at));
        let low = u32::from(word_at(self.config, at.saturating_add(2)));
        0x1_0000 * high + low
    }
}

/// Whether a PHUNIT is of a current.
fn is_of_current(unit: u32) -> bool {
    unit / 0x0100_0000 == 1
}

/// The name of sixteen bytes.
fn name_at(bytes: &[u8], at: usize) -> Name {
    let mut name = [b' '; NAME];
    for (k, byte) in name.iter_mut().enumerate() {
        *byte = bytes.get(at.saturating_add(k)).copied().unwrap_or(b' ');
    }
    Name { bytes: name }
}

/// The number of two bytes.
fn word_at(bytes: &[u8], at: usize) -> u16 {
    let high = bytes.get(at).copied().unwrap_or(0);
    let low = bytes.get(at.saturating_add(1)).copied().unwrap_or(0);
    u16::from_be_bytes([high, low])
}

/// STAT in words (C37.118.2, 6.3): what it says of the data, and then what else is set.
#[derive(Clone, Copy)]
pub struct Status(pub u16);

impl fmt::Display for Status {
    fn fmt<W: fmt::Write>(&self, f: &mut fmt::Formatter<W>) -> fmt::Result {
        let stat = self.0;
        let data = match stat / 0x4000 {
            0 => "good",
            1 => "PMU error",
            2 => "test or absent",
            _ => "PMU error, absent",
        };
        write!(f, "{data}")?;
        for (bit, word) in [
            (0x2000u16, ", not in sync"),
            (0x1000, ", by arrival"),
            (0x0800, ", triggered"),
            (0x0400, ", config changes"),
            (0x0200, ", modified"),
        ] {
            if stat & bit != 0 {
                write!(f, "{word}")?;
            }
        }
        Ok(())
    }
}

/// The time quality in words (C37.118.2, 6.2.2): the code, and the leap second flags.
#[derive(Clone, Copy)]
pub struct Quality(pub u8);

impl fmt::Display for Quality {
    fn fmt<W: fmt::Write>(&self, f: &mut fmt::Formatter<W>) -> fmt::Result {
        let code = self.0 % 16;
        match code {
            0 => f.write_str("locked")?,
            15 => f.write_str("unreliable")?,
            _ => write!(f, "unlocked, code {code}")?,
        }
        if self.0 / 16 % 2 == 1 {
            f.write_str(", leap second ahead")?;
        }
        Ok(())
    }
}
