//! FREQ and DFREQ of a PMU's data blocks, as whole numbers (C37.118.2, 6.3).
ghost use Rattle.std.specs.Prelude.{◌≡◌, ◌%◌, ◌==◌, pos, if◌then◌else◌};
ghost use Rattle.pg_quality.specs.Frequencies.{at_second, band_if_any, band_of, filed_at, no_band, no_frequency, noted, rolled};

use crate::span::is_same;

/// How many seconds are kept: five minutes.
const ROWS: u64 = 300;

/// FREQ or DFREQ where there is no value.
const NO_VALUE: i16 = i16::MIN;

/// The least and the greatest FREQ of some time, in millihertz from the nominal frequency.
#[derive(Clone, Copy, Debug, PartialEq, Eq)]
pub struct Band {
    /// The least; 32,767 where there is none.
    pub least: i16,
    /// The greatest; -32,768 where there is none.
    pub greatest: i16,
}

impl Band {
    /// Of no value.
    pub fn none() -> Band
        ensures { result ≡ no_band }
    {
        Band {
            least: i16::MAX,
            greatest: i16::MIN,
        }
    }

    /// One more FREQ. Most are within the band, and the one that says that there is no value is the least number.
    #[inline(always)]
    fn widen(&mut self, freq: i16)
        ensures { self.new ≡ band_if_any self.old freq }
    {
        if freq < self.least {
            self.widen_down(freq);
        } else if freq > self.greatest {
            self.greatest = freq;
        }
    }

    /// The same of any.
    #[inline(never)]
    fn widen_down(&mut self, freq: i16)
        ensures { self.new ≡ band_if_any self.old freq }
    {
        if !is_same(freq, NO_VALUE) {
            self.least = self.least.min(freq);
            self.greatest = self.greatest.max(freq);
        }
    }

    /// The band, where it has a value.
    fn found(self) -> Option<Band>
        ensures { result ≡ band_of self }
    {
        if self.greatest < self.least {
            None
        } else {
            Some(self)
        }
    }
}

/// The band of one second.
#[derive(Clone, Copy)]
pub struct FrequencyRow {
    /// The second of this machine's clock, since 1970-01-01 00:00 UTC.
    pub second: u64,
    /// Its band.
    pub band: Band,
}

/// The last FREQ and DFREQ of a PMU, and the least and greatest FREQ of each second for five minutes. FREQ -32,768, in which no value is sent, is in no
/// band.
#[derive(Clone, Copy)]
pub struct Frequency {
    /// FREQ of the last block: millihertz from the nominal frequency; -32,768 before the first.
    pub freq: i16,
    /// DFREQ of the last block: hundredths of a hertz per second; -32,768 before the first.
    pub dfreq: i16,
    /// The second to which this machine's clock has come, since 1970-01-01 00:00 UTC.
    pub second: u64,
    /// The band of that second.
    pub current: Band,
    /// The bands of the seconds before it: that of second n in row n mod 300, where no later one took its place.
    pub rows: [FrequencyRow; 300],
}

impl Frequency {
    /// No block came.
    pub fn new() -> Frequency
        ensures { result ≡ no_frequency }
    {
        let row = FrequencyRow {
            second: 0,
            band: Band::none(),
        };
        Frequency {
            freq: NO_VALUE,
            dfreq: NO_VALUE,
            second: 0,
            current: Band::none(),
            rows: [row; 300],
        }
    }

    /// This machine's clock has come to a second: the band of the second before is filed.
    pub fn come_to(&mut self, second: u64)
        ensures { self.new ≡ at_second self.old second }
    {
        if second != self.second {
            self.roll(second);
        }
    }

    /// Another second of this machine's clock begins.
    fn roll(&mut self, second: u64)
        ensures { self.new ≡ rolled self.old second }
    {
        self.rows[(self.second % ROWS) as usize] = FrequencyRow {
            second: self.second,
            band: self.current,
        };
        self.second = second;
        self.current = Band::none();
    }

    /// A block came with these values.
    #[inline(always)]
    pub fn note(&mut self, freq: i16, dfreq: i16)
        ensures { self.new ≡ noted self.old freq dfreq }
    {
        self.freq = freq;
        self.dfreq = dfreq;
        self.current.widen(freq);
    }

    /// The band of a second that is filed, where it is kept and has a value.
    pub fn filed(&self, second: u64) -> Option<Band>
        ensures { result ≡ filed_at self.now second }
    {
        let row = self.rows[(second % ROWS) as usize];
        if row.second == second {
            row.band.found()
        } else {
            None
        }
    }
}

/// The nominal frequency by FNOM (C37.118.2, 6.4), in millihertz: 50 Hz where bit 0 is set, else 60 Hz.
pub fn nominal_of(fnom: u16) -> i32
    ensures { result ≡ (if fnom % 2 == 1 then pos 50000 else pos 60000) }
{
    if fnom % 2 == 1 { 50_000 } else { 60_000 }
}
