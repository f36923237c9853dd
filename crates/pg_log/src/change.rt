//! What differs between two configurations of a source.

use pg_config::{PmuConfig, SourceConfig};
use std::fmt;

/// Where FORMAT begins in a PMU's configuration block: behind STN and IDCODE (C37.118.2, 6.4).
const FORMAT: usize = 18;

/// Where the channel names begin.
const NAMES: usize = 26;

/// What differs between two configurations of a source. CFGCNT is no difference.
#[derive(Clone, Copy, Debug, PartialEq, Eq)]
pub struct ConfigChange {
    /// The PMUs, their order or their station names.
    pub pmus: bool,
    /// FORMAT, the numbers of channels or their names.
    pub channels: bool,
    /// PHUNIT, ANUNIT or DIGUNIT.
    pub units: bool,
    /// FNOM.
    pub nominal: bool,
    /// DATA_RATE.
    pub rate: bool,
    /// The resolution of TIME_BASE.
    pub base: bool,
}

/// The parts of a PMU's configuration block: STN and IDCODE, FORMAT to the names, the units, FNOM.
#[derive(Clone, Copy)]
struct Parts<'a> {
    head: Option<&'a [u8]>,
    channels: Option<&'a [u8]>,
    units: Option<&'a [u8]>,
    nominal: Option<&'a [u8]>,
}

impl Parts<'_> {
    fn of(config: &PmuConfig) -> Parts<'_> {
        let phasors = usize::from(config.phasors);
        let analogs = usize::from(config.analogs);
        let digitals = usize::from(config.digitals);
        let units = NAMES + 16 * (phasors + analogs + 16 * digitals);
        let nominal = units + 4 * (phasors + analogs + digitals);
        let block = config.block.as_slice();
        Parts {
            head: block.get(..FORMAT),
            channels: block.get(FORMAT..units),
            units: block.get(units..nominal),
            nominal: block.get(nominal..nominal + 2),
        }
    }
}

impl ConfigChange {
    /// What differs between two configurations.
    pub fn between(old: &SourceConfig, new: &SourceConfig) -> ConfigChange {
        let mut change = ConfigChange {
            pmus: old.parts.len() != new.parts.len(),
            channels: false,
            units: false,
            nominal: false,
            rate: false,
            base: false,
        };
        for (old, new) in old.parts.iter().zip(new.parts.iter()) {
            change.note(old, new);
        }
        change
    }

    /// Adds what differs between the configurations of two PMUs at one place.
    fn note(&mut self, old: &PmuConfig, new: &PmuConfig) {
        self.rate = self.rate || old.rate != new.rate;
        self.base = self.base || old.base != new.base;
        let (old, new) = (Parts::of(old), Parts::of(new));
        self.pmus = self.pmus || old.head != new.head;
        self.channels = self.channels || old.channels != new.channels;
        self.units = self.units || old.units != new.units;
        self.nominal = self.nominal || old.nominal != new.nominal;
    }

    /// Whether nothing differs.
    pub fn is_nothing(&self) -> bool {
        !(self.pmus || self.channels || self.units || self.nominal || self.rate || self.base)
    }
}

impl fmt::Display for ConfigChange {
    fn fmt<W: fmt::Write>(&self, f: &mut fmt::Formatter<W>) -> fmt::Result {
        let mut is_behind = false;
        write_part("PMUs", self.pmus, &mut is_behind, f)?;
        write_part("channels", self.channels, &mut is_behind, f)?;
        write_part("units", self.units, &mut is_behind, f)?;
        write_part("FNOM", self.nominal, &mut is_behind, f)?;
        write_part("DATA_RATE", self.rate, &mut is_behind, f)?;
        write_part("TIME_BASE", self.base, &mut is_behind, f)
    }
}

/// Writes the name of a part that differs; behind a comma where one was written before.
fn write_part<W: fmt::Write>(
    name: &str,
    differs: bool,
    is_behind: &mut bool,
    f: &mut fmt::Formatter<W>,
) -> fmt::Result {
    if !differs {
        return Ok(());
    }
    if *is_behind {
        f.write_str(", ")?;
    }
    *is_behind = true;
    f.write_str(name)
}
