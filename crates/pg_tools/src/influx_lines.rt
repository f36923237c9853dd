//! Lines in InfluxDB's line protocol: a measurement with tags, a space, fields, a space, and the time in nanoseconds since 1970.

use crate::json_lines::put_layout;
use crate::line_parts::{BlockLine, ConfigLine, GapLine, Origin, StateLine};
use crate::lines::FrameTime;
use crate::name_text::{is_plain, put_field, put_tag, text_of};
use crate::reading::{Name, Reading};
use std::alloc::{AllocError, Global};

/// Adds the measurement, and the tags of where a line is from.
fn put_head(out: &mut String, measurement: &str, origin: &Origin<'_>) -> Result<(), AllocError> {
    out.push_str(measurement)?;
    if let Some(gateway) = origin.gateway {
        out.push_str(",gateway=")?;
        put_tag(out, gateway)?;
    }
    let stream = origin.stream;
    write!(out, ",stream={stream}")
}

/// Adds the tags of the PMU. A tag has no empty value, so that a station without a name has none.
fn put_pmu(
    alloc: Global,
    out: &mut String,
    idcode: u16,
    reading: &Reading<'_>,
) -> Result<(), AllocError> {
    write!(out, ",idcode={idcode}")?;
    let station = text_of(alloc, &reading.station())?;
    if !station.is_empty() {
        out.push_str(",station=")?;
        put_tag(out, station.as_str())?;
    }
    out.push(' ')
}

/// Adds a time behind the fields.
fn put_time(out: &mut String, time: FrameTime) -> Result<(), AllocError> {
    let micros = time.unix_time().micros;
    write!(out, " {micros}000")
}

/// Adds a data line: one PMU of a frame.
pub fn put_data(
    alloc: Global,
    out: &mut String,
    origin: &Origin<'_>,
    line: &BlockLine<'_>,
) -> Result<(), AllocError> {
    put_head(out, "pmu", origin)?;
    put_pmu(alloc, out, line.idcode, &line.reading)?;
    let stat = line.reading.stat();
    let good = line.reading.is_good();
    let filled = line.reading.is_filler();
    let quality = line.time_quality();
    let leap = line.leap_second();
    write!(
        out,
        "stat=\"{stat:04X}\",good={good},filled={filled},time_quality={quality}i,leap_second={leap}i"
    )?;
    if let Some(hertz) = line.reading.hertz() {
        write!(out, ",frequency={hertz:.3}")?;
    }
    if let Some(change) = line.reading.hertz_per_second() {
        write!(out, ",rocof={change:.2}")?;
    }
    put_values(alloc, out, &line.reading)?;
    put_time(out, line.time)
}

/// Adds the fields of all channels that have a value.
fn put_values(alloc: Global, out: &mut String, reading: &Reading<'_>) -> Result<(), AllocError> {
    let phasors = reading.phasors();
    for k in 0..phasors {
        if let Some(phasor) = reading.phasor(k) {
            let key = key_of(alloc, reading, 0, phasors, k)?;
            let unit = reading.phasor_unit(k);
            let magnitude = phasor.magnitude;
            let degrees = phasor.degrees;
            write!(out, ",{key}.{unit}={magnitude:.5},{key}.deg={degrees:.4}")?;
        }
    }
    for k in 0..reading.analogs() {
        if let Some(value) = reading.analog(k) {
            let key = key_of(alloc, reading, phasors, reading.analogs(), k)?;
            let unit = reading.analog_unit(k);
            write!(out, ",{key}.{unit}={value}i")?;
        }
    }
    for k in 0..reading.digitals() {
        let word = reading.digital(k);
        write!(out, ",digital{k}.word={word}i")?;
    }
    Ok(())
}

/// The key of channel k of those from `first` on, `count` of them: its name. Where that is not plain or another one of them has it too, its
/// number, from 1, follows behind `#`, so that each has a key of its own.
fn key_of(
    alloc: Global,
    reading: &Reading<'_>,
    first: usize,
    count: usize,
    k: usize,
) -> Result<String, AllocError> {
    let name = reading.channel(first.saturating_add(k));
    let mut key = String::new(alloc);
    let text = text_of(alloc, &name)?;
    put_tag(&mut key, text.as_str())?;
    if !is_plain(&name) || is_shared(reading, first, count, k, &name) {
        let number = k.saturating_add(1);
        write!(key, "#{number}")?;
    }
    Ok(key)
}

/// Whether another channel of those has this name.
fn is_shared(reading: &Reading<'_>, first: usize, count: usize, k: usize, name: &Name) -> bool {
    for other in 0..count {
        if other != k && reading.channel(first.saturating_add(other)).bytes() == name.bytes() {
            return true;
        }
    }
    false
}

/// Adds a configuration line: one PMU of a configuration. Its channels are a JSON object in the field `channels`.
pub fn put_config(
    alloc: Global,
    out: &mut String,
    origin: &Origin<'_>,
    line: &ConfigLine<'_>,
) -> Result<(), AllocError> {
    put_head(out, "pmu_config", origin)?;
    put_pmu(alloc, out, line.idcode, &line.reading)?;
    let rate = line.rate;
    let nominal = line.reading.nominal();
    let count = line.reading.config_count();
    write!(
        out,
        "rate={rate}i,nominal={nominal}i,cfgcnt={count}i,channels="
    )?;
    let mut channels = String::from_str(alloc, "{")?;
    put_layout(alloc, &mut channels, line)?;
    channels.push('}')?;
    put_field(out, channels.as_str())?;
    put_time(out, line.time)
}

/// Adds a gap line.
pub fn put_gap(out: &mut String, origin: &Origin<'_>, line: &GapLine) -> Result<(), AllocError> {
    put_head(out, "pmu_gap", origin)?;
    let slots = line.gap.slots;
    let why = line.gap.why.word();
    let to = line.to;
    write!(out, ",why={why} slots={slots}i")?;
    if let Some(from) = line.from {
        write!(out, ",from=\"{from}\"")?;
    }
    write!(out, ",to=\"{to}\"")?;
    put_time(out, to)
}

/// Adds a state line.
pub fn put_state(
    out: &mut String,
    origin: &Origin<'_>,
    line: &StateLine,
) -> Result<(), AllocError> {
    put_head(out, "pmu_state", origin)?;
    let connected = line.is_connected;
    write!(out, " connected={connected}")?;
    for (name, count) in line.counts() {
        write!(out, ",{name}={count}i")?;
    }
    if let Some(millis) = line.behind {
        write!(out, ",behind_ms={millis}i")?;
    }
    put_time(out, line.time)
}
