//! Histograms.

use crate::tests::asserts::same;
use pg_status::Histogram;
use std::test::*;

/// Ages that are bounds count below them; two are above all bounds, and the sum stops at the largest number.
#[test]
fn ages_at_their_bounds(rt: HostRuntime) {
    let mut ages = Histogram::new();
    for micros in [
        0, 5_000, 10_000, 20_000, 50_000, 100_000, 200_000, 500_000, 1_000_000, 2_000_000,
        5_000_000, 10_000_000, 30_000_000,
    ] {
        ages.observe(micros);
    }
    let mut wanted = Histogram {
        counts: [2, 1, 1, 1, 1, 1, 1, 1, 1, 1, 1, 1],
        beyond: 0,
        micros: 48_885_000,
    };
    same(&rt, ages, wanted);
    ages.observe(30_000_001);
    ages.observe(u64::MAX);
    wanted.beyond = 2;
    wanted.micros = u64::MAX;
    same(&rt, ages, wanted);
}
