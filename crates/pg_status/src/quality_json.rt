//! How good data are, as JSON.

use crate::json::{comma, put_numbers, put_text};
use crate::pmu_text::{is_in_sync, millihertz, time_word, value_of};
use crate::snapshot::PmuState;
use crate::station::shown_name;
use pg_quality::{DelaySummary, FrameSummary, PmuSummary, Tally};
use std::alloc::{AllocError, Global};

/// Puts how good the data frames of a source are: `rate` (DATA_RATE), `minute` and `hour` (completeness in tenths of a per cent), what was `expected` and
/// `received` since it connected, `repeated`, `out_of_order`, `spans`, `delay` in milliseconds, and the `time` quality of the last one.
pub(crate) fn put_quality(
    alloc: Global,
    json: &mut String,
    quality: Option<&FrameSummary>,
) -> Result<(), AllocError> {
    let Some(quality) = quality else {
        return json.push_str(",\"quality\":null");
    };
    json.push_str(",\"quality\":{")?;
    put_signed(alloc, json, "\"rate\":", i64::from(quality.rate))?;
    let numbers = [
        (",\"minute\":", completeness_of(quality.minute)),
        (",\"hour\":", completeness_of(quality.hour)),
        (",\"expected\":", Some(quality.connected.expected)),
        (",\"received\":", Some(quality.connected.received)),
        (",\"repeated\":", Some(quality.repeated)),
        (",\"out_of_order\":", Some(quality.out_of_order)),
        (",\"spans\":", Some(quality.spans)),
    ];
    put_numbers(alloc, json, &numbers)?;
    put_delay(alloc, json, quality.delay)?;
    if quality.frames == 0 {
        return json.push_str(",\"time\":null}");
    }
    let time = time_word(quality.time_quality.code());
    put_text(alloc, json, ",\"time\":", time)?;
    json.push_str("}")
}

/// Completeness in tenths of a per cent.
fn completeness_of(tally: Tally) -> Option<u64> {
    tally.completeness().map(u64::from)
}

/// Puts a number that may be negative, behind what names it.
fn put_signed(alloc: Global, json: &mut String, name: &str, number: i64) -> Result<(), AllocError> {
    json.push_str(name)?;
    json.push_str(&format!(in alloc; "{number}")?)
}

/// Puts the delays of the last minute.
fn put_delay(
    alloc: Global,
    json: &mut String,
    delay: Option<DelaySummary>,
) -> Result<(), AllocError> {
    let Some(delay) = delay else {
        return json.push_str(",\"delay\":null");
    };
    put_signed(alloc, json, ",\"delay\":{\"least\":", delay.least)?;
    put_signed(alloc, json, ",\"median\":", delay.median)?;
    put_signed(alloc, json, ",\"most\":", delay.most)?;
    put_signed(alloc, json, ",\"greatest\":", delay.greatest)?;
    json.push_str("}")
}

/// Puts the registered PMUs of a source: `blocks` is null where its configuration does not have the PMU.
pub(crate) fn put_pmus(
    alloc: Global,
    json: &mut String,
    pmus: &[PmuState],
) -> Result<(), AllocError> {
    json.push_str(",\"pmus\":[")?;
    for (place, pmu) in pmus.iter().enumerate() {
        json.push_str(comma(place))?;
        let number = [("{\"pmu\":", Some(u64::from(pmu.pmu.get())))];
        put_numbers(alloc, json, &number)?;
        match &pmu.blocks {
            Some(blocks) => put_blocks(alloc, json, blocks)?,
            None => json.push_str(",\"blocks\":null}")?,
        }
    }
    json.push_str("]")
}

/// Puts how good the blocks of a PMU are, and ends its object: its station, STAT of the last one, how many had which flag, FREQ in millihertz and DFREQ in
/// hundredths of a hertz per second.
fn put_blocks(alloc: Global, json: &mut String, blocks: &PmuSummary) -> Result<(), AllocError> {
    json.push_str(",\"blocks\":{\"station\":")?;
    put_station(alloc, json, blocks)?;
    let stat = &blocks.stat;
    let numbers = [
        (",\"stat\":", Some(u64::from(stat.last))),
        (",\"sync\":", Some(u64::from(is_in_sync(blocks)))),
        (",\"pmu_error\":", Some(stat.pmu_error)),
        (",\"test_or_absent\":", Some(stat.test_or_absent)),
        (",\"do_not_use\":", Some(stat.do_not_use)),
        (",\"out_of_sync\":", Some(stat.out_of_sync)),
        (",\"by_arrival\":", Some(stat.by_arrival)),
        (",\"triggered\":", Some(stat.triggered)),
        (",\"config_change\":", Some(stat.changing)),
        (",\"modified\":", Some(stat.modified)),
    ];
    put_numbers(alloc, json, &numbers)?;
    match millihertz(blocks) {
        Some(value) => put_signed(alloc, json, ",\"freq\":", i64::from(value))?,
        None => json.push_str(",\"freq\":null")?,
    }
    match value_of(blocks.dfreq) {
        Some(value) => put_signed(alloc, json, ",\"dfreq\":", i64::from(value))?,
        None => json.push_str(",\"dfreq\":null")?,
    }
    json.push_str("}}")
}

/// Puts a station's name, as it is shown.
fn put_station(alloc: Global, json: &mut String, blocks: &PmuSummary) -> Result<(), AllocError> {
    let name = shown_name(&blocks.station);
    match str::from_utf8(name.trim_ascii_end()) {
        Ok(name) => put_text(alloc, json, "", name),
        // What is shown is ASCII.
        Err(_) => json.push_str("null"),
    }
}
