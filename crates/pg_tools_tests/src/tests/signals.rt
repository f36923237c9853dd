//! The signals of a simulated source, as its data blocks carry them.

use pg_tools::{Channels, Faults, Nominal, Numbers, Rate, Settings, UnixTime, add_measured};
use std::alloc::Global;
use std::process::Abort;
use std::test::*;

/// Source 7 with two PMUs.
pub fn settings(rt: &impl Abort, faults: Faults) -> Settings {
    Settings {
        numbers: Numbers::new(7, 2).expect(rt, "numbers"),
        rate: Rate::new(30).expect(rt, "a rate"),
        channels: Channels::new(3, 1, 1).expect(rt, "channels"),
        nominal: Nominal::Sixty,
        place: 0,
        faults,
    }
}

// The data block of PMU 0, which sends rectangular phasors, or of PMU 1, which sends polar ones: STAT, three phasors, FREQ, DFREQ, an analog value and a
// digital word.
fn block(rt: &impl Abort, alloc: Global, at: UnixTime, pmu: u8) -> Vec<u8> {
    let mut out = Vec::new(alloc);
    let settings = settings(rt, Faults::NONE);
    add_measured(&mut out, &settings, at, pmu, 0, 0).expect(rt, "memory");
    out
}

// The count at this place.
fn count(block: &Vec<u8>, place: usize) -> i64 {
    let high = block.get(place).copied().unwrap_or(0);
    let low = block.get(place.saturating_add(1)).copied().unwrap_or(0);
    i64::from(i16::from_be_bytes([high, low]))
}

// FREQ: the deviation of the frequency in millihertz.
fn millihertz(block: &Vec<u8>) -> i64 {
    count(block, 14)
}

// A turn in 10^-4 radians, in which angles are.
const TURN: i64 = 62_832;

// How far two angles are apart.
fn apart(one: i64, other: i64) -> u64 {
    let turned = one.saturating_sub(other).rem_euclid(TURN);
    turned.min(TURN.saturating_sub(turned)).unsigned_abs()
}

// Rows that were computed apart from the program, in floating point: microhertz of both ends of the grid, and the angle of the
// one that sends polar phasors, of which 2^32 are a turn. It stands 4 degrees behind the grid's.
#[test]
fn signals_of_an_instant(rt: HostRuntime) {
    for (soc, micros, here, there, turn) in [
        (
            1_700_000_045u32,
            500_000u32,
            -11_260i64,
            -7_007i64,
            899_686_877u32,
        ),
        (1_700_000_040, 0, 1_372, -14_461, 1_084_749_085),
        (1_800_000_000, 250_000, 12_854, -358, 31_154_837),
        (1_751_234_567, 33_333, -5_728, -5_760, 1_889_166_703),
    ] {
        let at = UnixTime::new(soc, micros);
        let (one, other) = (block(&rt, rt.alloc(), at, 0), block(&rt, rt.alloc(), at, 1));
        let off = millihertz(&one).saturating_mul(1_000).abs_diff(here);
        let other_off = millihertz(&other).saturating_mul(1_000).abs_diff(there);
        let want = i64::from(turn.wrapping_sub(0x02D8_2D83)).saturating_mul(TURN) / 0x1_0000_0000;
        let turned = apart(count(&other, 4), want);
        assert!(rt;
            off <= 1_020 && other_off <= 1_020 && turned <= 8,
            "{soc}: {off}, {other_off}, {turned}"
        );
    }
}
