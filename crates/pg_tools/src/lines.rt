//! What is watched, as lines of text: a line a second, or a line of comma separated values for each frame.

ghost use Rattle.std.specs.Prelude.{◌≤◌};

use crate::reading::{Cell, Quality, Reading};
use crate::unix_time::{TIME_BASE, UnixTime};
use crate::watcher::Watcher;
use jiff_core::Timestamp;
use jiff_fmt::temporal::DateTimePrinter;
use pg_config::{PmuConfig, SourceConfig};
use pg_data::DataFrame;
use std::alloc::AllocError;
use std::fmt;

/// The longest delay that is shown, in milliseconds.
const MOST_DELAY: u64 = 4_000_000_000;

/// The time of a frame. Its text is ISO 8601, to the microsecond.
#[derive(Clone, Copy)]
pub struct FrameTime {
    /// Seconds since 1970-01-01 00:00 UTC.
    pub soc: u32,
    /// The numerator of the fraction.
    pub frac: u32,
    /// Its denominator.
    pub base: u32,
}

impl FrameTime {
    /// When a frame was measured.
    pub fn of(frame: &DataFrame) -> FrameTime {
        FrameTime {
            soc: frame.soc,
            frac: frame.frac,
            base: frame.base(),
        }
    }

    /// The same in microseconds since 1970.
    pub fn unix_time(self) -> UnixTime {
        UnixTime::new(self.soc, self.micros() as u32)
    }

    /// The time of a clock, as the time of a frame.
    pub fn at(time: UnixTime) -> FrameTime {
        FrameTime {
            soc: time.soc(),
            frac: time.fraction(),
            base: TIME_BASE,
        }
    }

    /// How many milliseconds a time is behind this one, below 0 where it is before: -4,000,000,000 to 4,000,000,000.
    pub fn millis_behind(self, at: UnixTime) -> i64 {
        let stamp = self.unix_time();
        let behind = (at.micros.saturating_sub(stamp.micros) / 1_000).min(MOST_DELAY);
        let ahead = (stamp.micros.saturating_sub(at.micros) / 1_000).min(MOST_DELAY);
        i64::from(behind as u32).saturating_sub(i64::from(ahead as u32))
    }

    /// The fraction in microseconds.
    fn micros(self) -> u64
        ensures { result ≤ 999999 }
    {
        (u64::from(self.frac) * 1_000_000)
            .checked_div(u64::from(self.base))
            .unwrap_or(0)
            .min(999_999)
    }
}

impl fmt::Display for FrameTime {
    fn fmt<W: fmt::Write>(&self, f: &mut fmt::Formatter<W>) -> fmt::Result {
        let micros = self.micros();
        let second = self.soc;
        let nanos = i128::from(second) * 1_000_000_000 + i128::from(micros) * 1_000;
        match Timestamp::from_nanosecond(nanos) {
            Ok(time) => {
                let text = DateTimePrinter::new()
                    .precision(Some(6))
                    .timestamp_text(time);
                f.write_str(text.as_str())
            }
            Err(_) => write!(f, "{second}.{micros:06}"),
        }
    }
}

/// What is shown where the configuration has no PMU: none of the stream's is granted and announced.
pub const NO_PMU: &str = "no PMU yet";

/// The heading of the lines of values: `time`, the time quality, and the channels of each PMU by their names.
pub fn write_heading(out: &mut String, config: &SourceConfig) -> Result<(), AllocError> {
    out.push_str("time,quality")?;
    for part in config.parts.iter() {
        write_headings_of(out, part)?;
    }
    out.push('\n')
}

/// The headings of one PMU.
fn write_headings_of(out: &mut String, part: &PmuConfig) -> Result<(), AllocError> {
    let reading = Reading::new(part, &[]);
    let station = Cell(reading.station());
    let phasors = usize::from(part.phasors);
    write!(out, ",{station} STAT")?;
    for k in 0..phasors {
        let name = Cell(reading.channel(k));
        write!(out, ",{station} {name} magnitude,{station} {name} degrees")?;
    }
    write!(out, ",{station} Hz,{station} Hz/s")?;
    for k in 0..usize::from(part.analogs) {
        let name = Cell(reading.channel(phasors.saturating_add(k)));
        write!(out, ",{station} {name}")?;
    }
    for k in 0..part.digitals {
        write!(out, ",{station} digital {k}")?;
    }
    Ok(())
}

/// The line of a frame: magnitudes in volts or amperes, angles in degrees. A value that is absent is left out.
pub fn write_values(out: &mut String, frame: &DataFrame) -> Result<(), AllocError> {
    let time = FrameTime::of(frame);
    let quality = frame.quality;
    write!(out, "{time},{quality:02X}")?;
    for (i, part) in frame.config.parts.iter().enumerate() {
        if i < frame.count() {
            write_block(
                out,
                &Reading::new(part, frame.block(i)),
                usize::from(part.phasors),
                usize::from(part.analogs),
                usize::from(part.digitals),
            )?;
        }
    }
    out.push('\n')
}

/// The values of one PMU.
fn write_block(
    out: &mut String,
    reading: &Reading<'_>,
    phasors: usize,
    analogs: usize,
    digitals: usize,
) -> Result<(), AllocError> {
    let stat = reading.stat();
    write!(out, ",{stat:04X}")?;
    for k in 0..phasors {
        match reading.phasor(k) {
            Some(phasor) => {
                let magnitude = phasor.magnitude;
                let degrees = phasor.degrees;
                write!(out, ",{magnitude:.3},{degrees:.3}")?;
            }
            None => out.push_str(",,")?,
        }
    }
    match reading.millihertz() {
        Some(millihertz) => {
            let hertz = f64::from(millihertz) / 1_000.0;
            write!(out, ",{hertz:.3}")?;
        }
        None => out.push(',')?,
    }
    match reading.change() {
        Some(change) => {
            let change = f64::from(change) / 100.0;
            write!(out, ",{change:.2}")?;
        }
        None => out.push(',')?,
    }
    for k in 0..analogs {
        match reading.analog(k) {
            Some(value) => write!(out, ",{value}")?,
            None => out.push(',')?,
        }
    }
    for k in 0..digitals {
        let word = reading.digital(k);
        write!(out, ",{word:04X}")?;
    }
    Ok(())
}

/// The line of a second: what came in it, what was counted since the start, and of each PMU its frequency.
pub fn write_second(
    out: &mut String,
    frame: Option<&DataFrame>,
    in_second: u64,
    delay: Option<i64>,
    watcher: &Watcher,
) -> Result<(), AllocError> {
    let tally = watcher.tally();
    let frames = tally.frames;
    let missing = tally.missing;
    let fillers = tally.fillers;
    let troubles = tally.troubles;
    let Some(frame) = frame else {
        let why = if watcher.has_no_pmu() {
            NO_PMU
        } else {
            "no data frame yet"
        };
        return write!(out, "{why}; {troubles} troubles\n");
    };
    let time = FrameTime::of(frame);
    let quality = Quality(frame.quality);
    let delay = delay.unwrap_or(0);
    write!(
        out,
        "{time} {in_second} frames, {frames} so far, {missing} missing, {fillers} fillers, {troubles} troubles, {delay} ms behind, time {quality}"
    )?;
    for (i, part) in frame.config.parts.iter().enumerate() {
        if i < frame.count() {
            write_frequency(out, &Reading::new(part, frame.block(i)))?;
        }
    }
    out.push('\n')
}

/// The frequency of one PMU.
fn write_frequency(out: &mut String, reading: &Reading<'_>) -> Result<(), AllocError> {
    let station = reading.station();
    match reading.millihertz() {
        Some(millihertz) => {
            let hertz = f64::from(millihertz) / 1_000.0;
            write!(out, "; {station} {hertz:.3} Hz")
        }
        None => write!(out, "; {station} absent"),
    }
}
