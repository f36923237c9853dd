//! The ages of data frames as they go out.

use crate::tests::asserts::same;
use pg_status::Histogram;
use pg_subscribers::LatencyMeter;
use std::test::*;

/// 2026-11-24 00:00:00 UTC in seconds since 1970.
const SOC: u32 = 1_795_478_400;

const CLOCK: u64 = 1_795_478_400_000_000;

/// CFG-2 of a stream with TIME_BASE 1,000,000 (with flags, which do not count), and 20 bytes in all.
fn config(stream: u8) -> [u8; 20] {
    [
        0xaa, 0x31, 0, 20, 0, stream, 0, 0, 0, 0, 0, 0, 0, 0, 0x80, 0x0f, 0x42, 0x40, 0xab, 0xcd,
    ]
}

/// A data frame of 18 bytes with this stamp: SOC and 250,000 parts of a second.
fn data(stream: u8) -> [u8; 18] {
    let [a, b, c, d] = SOC.to_be_bytes();
    [
        0xaa, 0x01, 0, 18, 0, stream, a, b, c, d, 0x0f, 0x03, 0xd0, 0x90, 1, 2, 0xab, 0xcd,
    ]
}

/// A frame whose stream's CFG-2 went out shows its age: 250,000 microseconds after the second, seen half a second after it.
#[test]
fn an_age_is_counted_once_the_time_base_is_known(rt: HostRuntime) {
    let mut stamps = LatencyMeter::new();
    let mut ages = Histogram::new();
    stamps.pass(&data(7), CLOCK + 500_000, &mut ages);
    same(&rt, ages, Histogram::new());
    stamps.pass(&config(7), CLOCK, &mut ages);
    stamps.pass(&data(7), CLOCK + 500_000, &mut ages);
    let mut wanted = Histogram::new();
    wanted.observe(250_000);
    same(&rt, ages, wanted);
    same(&rt, ages.micros, 250_000);
    same(&rt, stamps.frames(), 2);
}

/// FRACSEC is read by the stream's TIME_BASE, here of milliseconds: 250,000 is no fraction of it and has no age, and 250 is a quarter of a second.
#[test]
fn an_age_is_read_by_the_time_base(rt: HostRuntime) {
    let mut stamps = LatencyMeter::new();
    let mut ages = Histogram::new();
    let mut milliseconds = config(7);
    milliseconds[15] = 0;
    milliseconds[16] = 0x03;
    milliseconds[17] = 0xe8;
    stamps.pass(&milliseconds, CLOCK, &mut ages);
    stamps.pass(&data(7), CLOCK + 500_000, &mut ages);
    same(&rt, ages, Histogram::new());
    let mut quarter = data(7);
    quarter[11] = 0;
    quarter[12] = 0;
    quarter[13] = 250;
    stamps.pass(&quarter, CLOCK + 500_000, &mut ages);
    let mut wanted = Histogram::new();
    wanted.observe(250_000);
    same(&rt, ages, wanted);
}

/// However the bytes are cut, each frame counts once, and no byte behind a head is taken for a head.
#[test]
fn frames_count_however_they_are_cut(rt: HostRuntime) {
    let mut stamps = LatencyMeter::new();
    let mut ages = Histogram::new();
    for byte in config(9).iter().chain(data(9).iter()).chain(data(9).iter()) {
        stamps.pass(&[*byte], CLOCK + 251_000, &mut ages);
    }
    let mut wanted = Histogram::new();
    wanted.observe(1_000);
    wanted.observe(1_000);
    same(&rt, ages, wanted);
}

/// Frames that lie whole in one write, one behind another, count as those do that are cut.
#[test]
fn whole_frames_count_as_cut_ones(rt: HostRuntime) {
    let mut bytes = [0u8; 74];
    let parts = config(9)
        .into_iter()
        .chain(data(9))
        .chain(data(9))
        .chain(data(9));
    for (place, byte) in bytes.iter_mut().zip(parts) {
        *place = byte;
    }
    let mut wanted = Histogram::new();
    for _ in 0..3 {
        wanted.observe(1_000);
    }
    for cut in 0..bytes.len() {
        let mut stamps = LatencyMeter::new();
        let mut ages = Histogram::new();
        stamps.pass(&bytes[..cut], CLOCK + 251_000, &mut ages);
        stamps.pass(&bytes[cut..], CLOCK + 251_000, &mut ages);
        same(&rt, ages, wanted);
        same(&rt, stamps.frames(), 3);
    }
}

/// A stamp that lies ahead has the age 0; a connection that begins anew begins with a frame; streams have time bases of their own.
#[test]
fn ahead_anew_and_another_stream(rt: HostRuntime) {
    let mut stamps = LatencyMeter::new();
    let mut ages = Histogram::new();
    stamps.pass(&config(9), CLOCK, &mut ages);
    stamps.pass(&data(9), CLOCK, &mut ages);
    assert!(rt; ages.counts[0] == 1 && ages.micros == 0);
    let cut = data(9);
    stamps.pass(&cut[..15], CLOCK, &mut ages);
    stamps.restart();
    stamps.pass(&data(9), CLOCK, &mut ages);
    same(&rt, ages.counts[0], 3);
    stamps.pass(&data(8), CLOCK, &mut ages);
    same(&rt, ages.counts[0], 3);
}

/// Eight streams are known; the ninth takes the place of the first.
#[test]
fn the_oldest_of_nine_streams_is_forgotten(rt: HostRuntime) {
    let mut stamps = LatencyMeter::new();
    let mut ages = Histogram::new();
    for stream in 1..=9 {
        stamps.pass(&config(stream), CLOCK, &mut ages);
    }
    for stream in 1..=9 {
        stamps.pass(&data(stream), CLOCK, &mut ages);
    }
    same(&rt, ages.counts[0], 8);
}
