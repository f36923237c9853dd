//! How good data are, as text: numbers with a unit, and words.

use crate::snapshot::{PmuState, SourceState};
use crate::station::print_station;
use pg_quality::{DelaySummary, FrameSummary, PmuSummary, nominal_of};
use std::io;
use std::io::Write;

/// FREQ or DFREQ where there is no value.
const NO_VALUE: i16 = i16::MIN;

/// STAT's bit 13: not in sync with a UTC traceable time source (C37.118.2, 6.3).
const OUT_OF_SYNC: u16 = 0x2000;

/// Writes the line of a PMU of a source. `-` stands for what is not there.
///
/// ```text
/// pmu 7/1 "STATION A" 30/s got 99.8% delay 12 35 80 ms sync locked stat 0000 60.003 Hz
/// pmu 7/2 "STATION B" 30/s silent
/// pmu 7/3 - - not announced
/// ```
pub(crate) fn print_pmu<W: Write>(
    out: &mut W,
    source: &SourceState,
    pmu: &PmuState,
) -> io::Result<()> {
    write!(out, "pmu {}/{}", source.source.get(), pmu.pmu.get())?;
    let (Some(quality), Some(blocks)) = (&source.quality, &pmu.blocks) else {
        return writeln!(out, " - - not announced");
    };
    write!(out, " ")?;
    print_station(out, &blocks.station)?;
    print_rate(out, quality.rate)?;
    match &quality.delay {
        Some(delay) => print_data(out, quality, delay, blocks),
        None => writeln!(out, " silent"),
    }
}

/// Writes DATA_RATE: frames a second, or seconds a frame.
fn print_rate<W: Write>(out: &mut W, rate: i16) -> io::Result<()> {
    if rate < 0 {
        write!(out, " 1/{}s", rate.unsigned_abs())
    } else {
        write!(out, " {rate}/s")
    }
}

/// Writes how good the data of a PMU are that sent some in the last minute.
fn print_data<W: Write>(
    out: &mut W,
    quality: &FrameSummary,
    delay: &DelaySummary,
    blocks: &PmuSummary,
) -> io::Result<()> {
    write!(out, " got ")?;
    print_completeness(out, quality)?;
    let DelaySummary {
        median,
        most,
        greatest,
        ..
    } = *delay;
    write!(out, " delay {median} {most} {greatest} ms")?;
    let sync = if is_in_sync(blocks) { "sync" } else { "nosync" };
    let time = time_word(quality.time_quality.code());
    write!(out, " {sync} {time} stat {:04x} ", blocks.stat.last)?;
    print_frequency(out, blocks)?;
    writeln!(out, " Hz")
}

/// Writes how many of the instants of the last minute came.
fn print_completeness<W: Write>(out: &mut W, quality: &FrameSummary) -> io::Result<()> {
    match quality.minute.completeness() {
        Some(tenths) => write!(out, "{}.{}%", tenths / 10, tenths % 10),
        None => write!(out, "-"),
    }
}

/// Whether a PMU's last block was in sync.
pub(crate) fn is_in_sync(blocks: &PmuSummary) -> bool {
    blocks.stat.last & OUT_OF_SYNC == 0
}

/// FREQ or DFREQ, where it is a value.
pub(crate) fn value_of(number: i16) -> Option<i16> {
    if number == NO_VALUE {
        None
    } else {
        Some(number)
    }
}

/// The frequency of a PMU's last block in millihertz, if it sent one.
pub(crate) fn millihertz(blocks: &PmuSummary) -> Option<i32> {
    let freq = value_of(blocks.freq)?;
    Some(nominal_of(blocks.fnom) + i32::from(freq))
}

/// Writes a PMU's frequency in hertz.
pub(crate) fn print_frequency<W: Write>(out: &mut W, blocks: &PmuSummary) -> io::Result<()> {
    match millihertz(blocks) {
        Some(value) => print_thousandths(out, i64::from(value)),
        None => write!(out, "-"),
    }
}

/// Writes a number that is given in thousandths.
pub(crate) fn print_thousandths<W: Write>(out: &mut W, value: i64) -> io::Result<()> {
    let sign = if value < 0 { "-" } else { "" };
    let size = value.unsigned_abs();
    write!(out, "{sign}{}.{:03}", size / 1_000, size % 1_000)
}

/// The code of a time quality (C37.118.2, table 3).
pub(crate) fn time_word(code: u8) -> &'static str {
    match code {
        0 => "locked",
        1 => "within-1ns",
        2 => "within-10ns",
        3 => "within-100ns",
        4 => "within-1us",
        5 => "within-10us",
        6 => "within-100us",
        7 => "within-1ms",
        8 => "within-10ms",
        9 => "within-100ms",
        10 => "within-1s",
        11 => "within-10s",
        15 => "unreliable",
        _ => "reserved",
    }
}
