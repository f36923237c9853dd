//! Lines as comma separated values (RFC 4180), one row each, with the same 18 columns: type, time, gateway, stream, idcode, station, stat,
//! good, filled, time_quality, leap_second, frequency, rocof, from, to, slots, why, detail. What a line has not is empty; `detail` is a JSON
//! object.

use crate::json_lines::{put_counts, put_layout, put_values};
use crate::line_parts::{BlockLine, ConfigLine, GapLine, Origin, StateLine};
use crate::lines::FrameTime;
use crate::name_text::{put_cell, text_of};
use crate::reading::Reading;
use std::alloc::{AllocError, Global};

/// Adds the first four columns.
fn put_head(
    out: &mut String,
    kind: &str,
    time: FrameTime,
    origin: &Origin<'_>,
) -> Result<(), AllocError> {
    write!(out, "{kind},{time},")?;
    if let Some(gateway) = origin.gateway {
        put_cell(out, gateway)?;
    }
    let stream = origin.stream;
    write!(out, ",{stream}")
}

/// Adds the columns of the PMU.
fn put_pmu(
    alloc: Global,
    out: &mut String,
    idcode: u16,
    reading: &Reading<'_>,
) -> Result<(), AllocError> {
    write!(out, ",{idcode},")?;
    let station = text_of(alloc, &reading.station())?;
    put_cell(out, station.as_str())
}

/// Adds a data line: one PMU of a frame.
pub fn put_data(
    alloc: Global,
    out: &mut String,
    origin: &Origin<'_>,
    line: &BlockLine<'_>,
) -> Result<(), AllocError> {
    put_head(out, "data", line.time, origin)?;
    put_pmu(alloc, out, line.idcode, &line.reading)?;
    let stat = line.reading.stat();
    let good = line.reading.is_good();
    let filled = line.reading.is_filler();
    let quality = line.time_quality();
    let leap = line.leap_second();
    write!(out, ",{stat:04X},{good},{filled},{quality},{leap},")?;
    if let Some(hertz) = line.reading.hertz() {
        write!(out, "{hertz:.3}")?;
    }
    out.push(',')?;
    if let Some(change) = line.reading.hertz_per_second() {
        write!(out, "{change:.2}")?;
    }
    let mut detail = String::from_str(alloc, "{")?;
    put_values(alloc, &mut detail, &line.reading)?;
    detail.push('}')?;
    out.push_str(",,,,,")?;
    put_cell(out, detail.as_str())
}

/// Adds a configuration line: one PMU of a configuration.
pub fn put_config(
    alloc: Global,
    out: &mut String,
    origin: &Origin<'_>,
    line: &ConfigLine<'_>,
) -> Result<(), AllocError> {
    put_head(out, "config", line.time, origin)?;
    put_pmu(alloc, out, line.idcode, &line.reading)?;
    let mut detail = String::from_str(alloc, "{")?;
    put_layout(alloc, &mut detail, line)?;
    detail.push('}')?;
    out.push_str(",,,,,,,,,,,,")?;
    put_cell(out, detail.as_str())
}

/// Adds a gap line.
pub fn put_gap(out: &mut String, origin: &Origin<'_>, line: &GapLine) -> Result<(), AllocError> {
    put_head(out, "gap", line.to, origin)?;
    out.push_str(",,,,,,,,,,")?;
    if let Some(from) = line.from {
        write!(out, "{from}")?;
    }
    let to = line.to;
    let slots = line.gap.slots;
    let why = line.gap.why.word();
    write!(out, ",{to},{slots},{why},")
}

/// Adds a state line.
pub fn put_state(
    alloc: Global,
    out: &mut String,
    origin: &Origin<'_>,
    line: &StateLine,
) -> Result<(), AllocError> {
    put_head(out, "state", line.time, origin)?;
    let mut detail = String::from_str(alloc, "{")?;
    put_counts(&mut detail, line)?;
    detail.push('}')?;
    out.push_str(",,,,,,,,,,,,,,")?;
    put_cell(out, detail.as_str())
}
