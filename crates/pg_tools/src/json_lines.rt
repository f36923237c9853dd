//! Lines as JSON objects.

use crate::line_parts::{BlockLine, ConfigLine, GapLine, Origin, StateLine};
use crate::lines::FrameTime;
use crate::name_text::{put_json, text_of};
use crate::reading::{Name, Reading};
use std::alloc::{AllocError, Global};

/// What stands before an element of a list: a comma, but before the first.
fn comma(place: usize) -> &'static str {
    if place == 0 { "" } else { "," }
}

/// Adds a name as JSON.
fn put_name(alloc: Global, out: &mut String, name: &Name) -> Result<(), AllocError> {
    let text = text_of(alloc, name)?;
    put_json(alloc, out, text.as_str())
}

/// Adds the beginning of an object: its type, its time and where it is from.
fn put_head(
    alloc: Global,
    out: &mut String,
    kind: &str,
    time: FrameTime,
    origin: &Origin<'_>,
) -> Result<(), AllocError> {
    write!(out, "{{\"type\":\"{kind}\",\"time\":\"{time}\"")?;
    if let Some(gateway) = origin.gateway {
        out.push_str(",\"gateway\":")?;
        put_json(alloc, out, gateway)?;
    }
    let stream = origin.stream;
    write!(out, ",\"stream\":{stream}")
}

/// Adds the PMU that a line is of.
fn put_pmu(
    alloc: Global,
    out: &mut String,
    idcode: u16,
    reading: &Reading<'_>,
) -> Result<(), AllocError> {
    write!(out, ",\"idcode\":{idcode},\"station\":")?;
    put_name(alloc, out, &reading.station())
}

/// Adds a data line: one PMU of a frame.
pub fn put_data(
    alloc: Global,
    out: &mut String,
    origin: &Origin<'_>,
    line: &BlockLine<'_>,
) -> Result<(), AllocError> {
    put_head(alloc, out, "data", line.time, origin)?;
    put_pmu(alloc, out, line.idcode, &line.reading)?;
    let stat = line.reading.stat();
    let good = line.reading.is_good();
    let filled = line.reading.is_filler();
    let quality = line.time_quality();
    let leap = line.leap_second();
    write!(
        out,
        ",\"stat\":\"{stat:04X}\",\"good\":{good},\"filled\":{filled},\"time_quality\":{quality},\"leap_second\":{leap}"
    )?;
    match line.reading.hertz() {
        Some(hertz) => write!(out, ",\"frequency\":{hertz:.3}")?,
        None => out.push_str(",\"frequency\":null")?,
    }
    match line.reading.hertz_per_second() {
        Some(change) => write!(out, ",\"rocof\":{change:.2}")?,
        None => out.push_str(",\"rocof\":null")?,
    }
    out.push(',')?;
    put_values(alloc, out, &line.reading)?;
    out.push('}')
}

/// Adds the values of all channels, as the members `phasors`, `analogs` and `digitals` of an object.
pub fn put_values(
    alloc: Global,
    out: &mut String,
    reading: &Reading<'_>,
) -> Result<(), AllocError> {
    out.push_str("\"phasors\":[")?;
    for k in 0..reading.phasors() {
        let unit = reading.phasor_unit(k);
        put_channel(alloc, out, k, &reading.channel(k), unit)?;
        match reading.phasor(k) {
            Some(phasor) => {
                let magnitude = phasor.magnitude;
                let degrees = phasor.degrees;
                write!(
                    out,
                    ",\"magnitude\":{magnitude:.5},\"angle\":{degrees:.4}}}"
                )?;
            }
            None => out.push_str(",\"magnitude\":null,\"angle\":null}")?,
        }
    }
    out.push_str("],\"analogs\":[")?;
    for k in 0..reading.analogs() {
        let name = reading.channel(reading.phasors().saturating_add(k));
        put_channel(alloc, out, k, &name, reading.analog_unit(k))?;
        match reading.analog(k) {
            Some(value) => write!(out, ",\"value\":{value}}}")?,
            None => out.push_str(",\"value\":null}")?,
        }
    }
    out.push_str("],\"digitals\":[")?;
    for k in 0..reading.digitals() {
        put_digital(alloc, out, reading, k)?;
    }
    out.push(']')
}

/// Adds the beginning of channel k of its list: its name and unit.
fn put_channel(
    alloc: Global,
    out: &mut String,
    k: usize,
    name: &Name,
    unit: &str,
) -> Result<(), AllocError> {
    out.push_str(comma(k))?;
    out.push_str("{\"name\":")?;
    put_name(alloc, out, name)?;
    write!(out, ",\"unit\":\"{unit}\"")
}

/// Adds digital word k: its value in hexadecimal, and the names of the inputs that are 1.
fn put_digital(
    alloc: Global,
    out: &mut String,
    reading: &Reading<'_>,
    k: usize,
) -> Result<(), AllocError> {
    let word = reading.digital(k);
    let before = comma(k);
    write!(out, "{before}{{\"word\":\"{word:04X}\",\"set\":[")?;
    let mut listed = 0;
    for (i, is_set) in bits_of(word).iter().enumerate() {
        if *is_set {
            out.push_str(comma(listed))?;
            put_name(alloc, out, &reading.input(k, i))?;
            listed = 1;
        }
    }
    out.push_str("]}")
}

/// The bits of a word, the least significant first.
fn bits_of(word: u16) -> [bool; 16] {
    let mut bits = [false; 16];
    let mut rest = word;
    for bit in bits.iter_mut() {
        *bit = rest % 2 == 1;
        rest = rest / 2;
    }
    bits
}

/// Adds a configuration line: one PMU of a configuration.
pub fn put_config(
    alloc: Global,
    out: &mut String,
    origin: &Origin<'_>,
    line: &ConfigLine<'_>,
) -> Result<(), AllocError> {
    put_head(alloc, out, "config", line.time, origin)?;
    put_pmu(alloc, out, line.idcode, &line.reading)?;
    out.push(',')?;
    put_layout(alloc, out, line)?;
    out.push('}')
}

/// Adds what a configuration says of a PMU, as members of an object.
pub fn put_layout(
    alloc: Global,
    out: &mut String,
    line: &ConfigLine<'_>,
) -> Result<(), AllocError> {
    let rate = line.rate;
    let nominal = line.reading.nominal();
    let count = line.reading.config_count();
    write!(
        out,
        "\"rate\":{rate},\"nominal\":{nominal},\"cfgcnt\":{count},\"pmus\":["
    )?;
    for (place, idcode) in line.pmus.iter().enumerate() {
        let before = comma(place);
        let idcode = *idcode;
        write!(out, "{before}{idcode}")?;
    }
    out.push_str("],")?;
    put_channels(alloc, out, &line.reading)
}

/// Adds the names and units of all channels.
fn put_channels(alloc: Global, out: &mut String, reading: &Reading<'_>) -> Result<(), AllocError> {
    out.push_str("\"phasors\":[")?;
    for k in 0..reading.phasors() {
        put_channel(alloc, out, k, &reading.channel(k), reading.phasor_unit(k))?;
        out.push('}')?;
    }
    out.push_str("],\"analogs\":[")?;
    for k in 0..reading.analogs() {
        let name = reading.channel(reading.phasors().saturating_add(k));
        put_channel(alloc, out, k, &name, reading.analog_unit(k))?;
        out.push('}')?;
    }
    out.push_str("],\"digitals\":[")?;
    for k in 0..reading.digitals() {
        out.push_str(comma(k))?;
        out.push_str("{\"inputs\":[")?;
        for i in 0..16usize {
            out.push_str(comma(i))?;
            put_name(alloc, out, &reading.input(k, i))?;
        }
        out.push_str("]}")?;
    }
    out.push(']')
}

/// Adds a gap line.
pub fn put_gap(
    alloc: Global,
    out: &mut String,
    origin: &Origin<'_>,
    line: &GapLine,
) -> Result<(), AllocError> {
    put_head(alloc, out, "gap", line.to, origin)?;
    let to = line.to;
    match line.from {
        Some(from) => write!(out, ",\"from\":\"{from}\"")?,
        None => out.push_str(",\"from\":null")?,
    }
    let slots = line.gap.slots;
    let why = line.gap.why.word();
    write!(
        out,
        ",\"to\":\"{to}\",\"slots\":{slots},\"why\":\"{why}\"}}"
    )
}

/// Adds a state line.
pub fn put_state(
    alloc: Global,
    out: &mut String,
    origin: &Origin<'_>,
    line: &StateLine,
) -> Result<(), AllocError> {
    put_head(alloc, out, "state", line.time, origin)?;
    out.push(',')?;
    put_counts(out, line)?;
    out.push('}')
}

/// Adds what was counted, as members of an object.
pub fn put_counts(out: &mut String, line: &StateLine) -> Result<(), AllocError> {
    let connected = line.is_connected;
    write!(out, "\"connected\":{connected}")?;
    for (name, count) in line.counts() {
        write!(out, ",\"{name}\":{count}")?;
    }
    match line.behind {
        Some(millis) => write!(out, ",\"behind_ms\":{millis}"),
        None => out.push_str(",\"behind_ms\":null"),
    }
}
