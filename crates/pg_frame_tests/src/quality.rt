//! Rows that are written by hand from the rules, with a clock that the test moves.

ghost use Rattle.std.specs.Prelude.{◌<◌};

use pg_quality::*;
use std::process::Abort;
use std::test::*;

/// Notes a frame of this time, read when the clock stood at so many milliseconds.
fn note_at(quality: &mut FrameQuality, time: FrameTime, clock: u64) {
    quality.come_to(clock / 1_000);
    quality.note(&time, clock);
}

/// Notes a frame whose stamp is in microseconds, read so many milliseconds later.
fn note(quality: &mut FrameQuality, rate: i16, soc: u32, frac: u32, delay: u32) {
    if quality.rate() != rate {
        quality.announce(rate, 1_000_000);
    }
    let time = FrameTime {
        soc,
        frac,
        quality: 0,
    };
    let clock = u64::from(soc) * 1_000 + u64::from(frac) / 1_000;
    note_at(quality, time, clock + u64::from(delay));
}

/// Notes a frame of an instant of 30 frames a second, counted from second 1,000.
fn note_one(quality: &mut FrameQuality, instant: u32) {
    let place = instant % 30;
    note(quality, 30, 1_000 + instant / 30, place * 100_000 / 3, 20);
}

/// Notes the instants up to the second one, each once.
fn note_each(quality: &mut FrameQuality, from: u32, to: u32) {
    for instant in from..to {
        note_one(quality, instant);
    }
}

fn tally(expected: u64, received: u64) -> Tally {
    Tally { expected, received }
}

/// What is counted: data frames expected and received since the connection, spans begun, and frames repeated and out of order.
fn counts_of(quality: &FrameQuality) -> [u64; 5] {
    let came = quality.completeness().since_connected();
    let spans = quality.span_counts();
    [
        came.expected,
        came.received,
        spans.begun,
        spans.repeated,
        spans.out_of_order,
    ]
}

/// Notes the instants of each row, from the first one up to the second, and compares what is counted then.
fn note_rows(rt: &impl Abort, rows: &[(u32, u32, [u64; 5])]) {
    let mut quality = FrameQuality::new();
    for (from, to, wanted) in rows {
        note_each(&mut quality, *from, *to);
        assert_eq!(*rt; counts_of(&quality), *wanted);
    }
}

/// Compares the last minute and the last hour at the end of each second with as many frames, of which none is missing.
fn windows_have(
    rt: &impl Abort,
    kept: &Completeness,
    minutes: &[(u64, u64)],
    hours: &[(u64, u64)],
) {
    for (second, frames) in minutes {
        assert_eq!(*rt; kept.last_minute(*second), tally(*frames, *frames));
    }
    for (second, frames) in hours {
        assert_eq!(*rt; kept.last_hour(*second), tally(*frames, *frames));
    }
}

#[test]
fn a_minute_with_none_missing(rt: HostRuntime) {
    let mut quality = FrameQuality::new();
    note_each(&mut quality, 0, 1_800);
    assert_eq!(rt; counts_of(&quality), [1_800, 1_800, 1, 0, 0]);
    assert_eq!(rt; tally(1_800, 1_800).completeness(), Some(1_000));
    let kept = quality.completeness();
    windows_have(&rt, &kept, &[(1_059, 1_800)], &[(1_059, 1_800)]);
    for (second, frames) in [(1_000, 30), (1_059, 30), (1_060, 0)] {
        assert_eq!(rt; kept.in_second(second), tally(frames, frames));
    }
    // Minute 16 ends with second 1,019.
    for (minute, frames) in [(16, 600), (17, 1_200)] {
        assert_eq!(rt; kept.in_minute(minute), tally(frames, frames));
    }
}

#[test]
fn completeness_is_rounded_down(rt: HostRuntime) {
    let most = u64::MAX;
    let rows = [
        (3_000, 2_999, Some(999)),
        (10_000, 9_996, Some(999)),
        (10_000, 9_999, Some(999)),
        (10_000, 10_000, Some(1_000)),
        (10_000, 9_990, Some(999)),
        (10_000, 9_989, Some(998)),
        (3, 2, Some(666)),
        (3, 0, Some(0)),
        (1_001, 1, Some(0)),
        (1_000, 1, Some(1)),
        (5, 7, Some(1_000)),
        (0, 0, None),
        (0, 5, None),
        (most, most - 1, Some(999)),
    ];
    for (expected, received, wanted) in rows {
        assert_eq!(rt; tally(expected, received).completeness(), wanted);
    }
}

#[test]
fn one_of_3000_is_missing(rt: HostRuntime) {
    let mut quality = FrameQuality::new();
    note_each(&mut quality, 0, 1_500);
    note_each(&mut quality, 1_501, 3_000);
    let came = quality.completeness().since_connected();
    assert_eq!(rt; came, tally(3_000, 2_999));
    assert_eq!(rt; came.completeness(), Some(999));
    assert_eq!(rt; quality.completeness().in_second(1_050), tally(30, 29));
}

#[test]
fn windows_end(rt: HostRuntime) {
    let mut quality = FrameQuality::new();
    note_each(&mut quality, 0, 1_830);
    // Seconds 1,001 to 1,060. 59 seconds later only the last of them is left, and one after that none.
    let minutes = [(1_060, 1_800), (1_119, 30), (1_120, 0)];
    // Second 1,060 is of minute 17: minute 76 is the last one that has it.
    let hours = [(1_060, 1_830), (76 * 60 + 59, 1_230), (77 * 60, 0)];
    windows_have(&rt, &quality.completeness(), &minutes, &hours);
}

#[test]
fn jumps_are_not_missing(rt: HostRuntime) {
    let rows = [
        (0, 10, [10, 10, 1, 0, 0]),
        // Three hours on, and back.
        (324_010, 324_011, [11, 11, 2, 0, 0]),
        (10, 11, [12, 12, 3, 0, 0]),
        // 60 seconds further are no jump, one instant more is one.
        (1_810, 1_811, [1_812, 13, 3, 0, 0]),
        (3_611, 3_612, [1_813, 14, 4, 0, 0]),
        // And so back.
        (1_811, 1_812, [1_813, 14, 4, 0, 1]),
        (1_810, 1_811, [1_814, 15, 5, 0, 1]),
    ];
    note_rows(&rt, &rows);
}

#[test]
fn another_rate_begins_a_span(rt: HostRuntime) {
    let mut quality = FrameQuality::new();
    note_each(&mut quality, 0, 10);
    note(&mut quality, 60, 1_001, 0, 20);
    assert_eq!(rt; counts_of(&quality), [11, 11, 2, 0, 0]);
}

#[test]
fn repeated_and_earlier(rt: HostRuntime) {
    let rows = [
        (0, 10, [10, 10, 1, 0, 0]),
        (9, 10, [10, 10, 1, 1, 0]),
        (5, 6, [10, 10, 1, 2, 0]),
        // 10 and 11 come after 12, and then once more.
        (12, 13, [13, 11, 1, 2, 0]),
        (10, 12, [13, 13, 1, 2, 2]),
        (10, 12, [13, 13, 1, 4, 2]),
    ];
    note_rows(&rt, &rows);
}

#[test]
fn known_are_the_last_64(rt: HostRuntime) {
    let rows = [
        (0, 1, [1, 1, 1, 0, 0]),
        (100, 101, [101, 2, 1, 0, 0]),
        // 63 before the last one is known not to have come, of 64 before nothing is known.
        (37, 38, [101, 3, 1, 0, 1]),
        (37, 38, [101, 3, 1, 1, 1]),
        (36, 37, [101, 3, 1, 1, 2]),
        (36, 37, [101, 3, 1, 1, 3]),
    ];
    note_rows(&rt, &rows);
}

#[test]
fn before_the_first_none_is_expected(rt: HostRuntime) {
    let rows = [
        (50, 51, [1, 1, 1, 0, 0]),
        (49, 50, [1, 1, 1, 0, 1]),
        (49, 50, [1, 1, 1, 0, 2]),
        (52, 53, [3, 2, 1, 0, 2]),
        (51, 52, [3, 3, 1, 0, 3]),
        (49, 50, [3, 3, 1, 0, 4]),
    ];
    note_rows(&rt, &rows);
}

#[test]
fn seconds_a_frame(rt: HostRuntime) {
    let rows = [
        (1_000, 0, [1, 1, 1, 0, 0]),
        (1_010, 0, [2, 2, 1, 0, 0]),
        (1_020, 0, [3, 3, 1, 0, 0]),
        (1_040, 0, [5, 4, 1, 0, 0]),
        // A little early and a little late are of the same instant.
        (1_049, 999_900, [6, 5, 1, 0, 0]),
        (1_060, 100, [7, 6, 1, 0, 0]),
        // 60 frames further are no jump, 61 are one.
        (1_660, 0, [67, 7, 1, 0, 0]),
        (2_270, 0, [68, 8, 2, 0, 0]),
    ];
    let mut quality = FrameQuality::new();
    for (soc, frac, wanted) in rows {
        note(&mut quality, -10, soc, frac, 20);
        assert_eq!(rt; counts_of(&quality), wanted);
    }
    assert_eq!(rt; tally(5, 4).completeness(), Some(800));
}

#[test]
fn no_rate_expects_nothing(rt: HostRuntime) {
    let mut quality = FrameQuality::new();
    for soc in [1_000, 1_001, 1_001, 5_000, 1_000] {
        note(&mut quality, 0, soc, 0, 20);
    }
    assert_eq!(rt; counts_of(&quality), [0, 5, 1, 0, 0]);
    assert_eq!(rt; tally(0, 5).completeness(), None);
}

#[test]
fn a_connection_begins_anew(rt: HostRuntime) {
    let mut quality = FrameQuality::new();
    note_each(&mut quality, 0, 30);
    quality.connect();
    assert_eq!(rt; quality.completeness().since_connected(), tally(0, 0));
    note_each(&mut quality, 60, 70);
    assert_eq!(rt; quality.completeness().since_connected(), tally(10, 10));
    assert_eq!(rt; quality.completeness().last_minute(1_002), tally(40, 40));
    assert_eq!(rt; quality.span_counts().begun, 2);
}

#[test]
fn a_connection_within_a_second(rt: HostRuntime) {
    let mut quality = FrameQuality::new();
    note_each(&mut quality, 0, 10);
    quality.connect();
    note_each(&mut quality, 15, 30);
    assert_eq!(rt; quality.completeness().since_connected(), tally(15, 15));
    assert_eq!(rt; quality.completeness().in_second(1_000), tally(25, 25));
    note_each(&mut quality, 30, 31);
    assert_eq!(rt; quality.completeness().in_second(1_000), tally(25, 25));
}

// ---- delay

/// Second 1,000 and a half.
const HALF: FrameTime = FrameTime {
    soc: 1_000,
    frac: 500,
    quality: 0,
};

/// Notes a frame of that time with numerators in milliseconds, read when the clock stood at so many of them.
fn note_half(quality: &mut FrameQuality, clock: u64) {
    if quality.rate() != 30 {
        quality.announce(30, 1_000);
    }
    note_at(quality, HALF, clock);
}

/// The delay of a frame of that time, read when the clock stood so.
fn delay_at(clock: u64) -> i64 {
    let mut quality = FrameQuality::new();
    note_half(&mut quality, clock);
    quality.delays().last_minute(clock / 1_000).least
}

#[test]
fn delays_have_a_sign(rt: HostRuntime) {
    assert_eq!(rt; delay_at(1_000_500), 0);
    assert_eq!(rt; delay_at(1_000_650), 150);
    assert_eq!(rt; delay_at(999_500), -1_000);
    assert_eq!(rt; delay_at(0), -1_000_500);
    assert_eq!(rt; delay_at(u64::MAX), 9_223_372_036_853_775_307);
}

#[test]
fn quantiles(rt: HostRuntime) {
    let mut histogram = Histogram::new(0);
    assert_eq!(rt; histogram.quantile(500), None);
    for _ in 0..99u8 {
        histogram.note(35);
    }
    // Alone in its bucket, 32 to 39, the greatest is the upper end.
    assert_eq!(rt; histogram.quantile(500), Some(35));
    histogram.note(300);
    assert_eq!(rt;
        (histogram.count(), histogram.least, histogram.greatest),
        (100, 35, 300)
    );
    for (share, delay) in [(500, 39), (990, 39), (991, 300), (999, 300), (1_000, 300)] {
        assert_eq!(rt; histogram.quantile(share), Some(delay));
    }
}

/// The upper end of a delay's bucket.
fn end_of(delay: i64) -> Option<i64> {
    let mut histogram = Histogram::new(0);
    histogram.note(delay);
    histogram.note(delay);
    histogram.note(i64::MAX);
    histogram.quantile(500)
}

#[test]
fn buckets_are_a_quarter_of_a_power_of_two_wide(rt: HostRuntime) {
    let rows = [
        (0, 0),
        (1, 1),
        (7, 7),
        (8, 9),
        (9, 9),
        (10, 11),
        (15, 15),
        (16, 19),
        (35, 39),
        (100, 111),
        (127, 127),
        (128, 159),
        (1_000, 1_023),
        (1_024, 1_279),
        (917_503, 917_503),
        (-1, -1),
        (-2, -2),
        (-8, -8),
        (-9, -9),
        (-10, -9),
        (-11, -11),
        (-1_000, -897),
        (-1_024, -897),
        (-1_025, -1_025),
        (-917_505, -917_505),
        (i64::MIN, -917_505),
    ];
    for (delay, end) in rows {
        assert_eq!(rt; end_of(delay), Some(end));
    }
    // The last bucket ends with the greatest delay.
    assert_eq!(rt; end_of(917_504), Some(i64::MAX));
    assert_eq!(rt; end_of(5_000_000), Some(i64::MAX));
}

#[test]
fn delays_of_the_last_minute(rt: HostRuntime) {
    let mut quality = FrameQuality::new();
    note(&mut quality, 30, 1_000, 0, 500);
    for second in 1_001..1_090u32 {
        note(&mut quality, 30, second, 0, 20);
        let last = quality.delays().last_minute(u64::from(second));
        // Seconds 1,000 to 1,009 go when second 1,070 begins.
        let greatest = if second < 1_070 { 500 } else { 20 };
        assert_eq!(rt; last.greatest, greatest);
        assert_eq!(rt; last.least, 20);
    }
    let last = quality.delays().last_minute(1_089);
    assert_eq!(rt; last.count(), 70);
    assert_eq!(rt; quality.delays().last_minute(1_200).quantile(500), None);
}

#[test]
fn an_early_stamp_is_negative(rt: HostRuntime) {
    let mut quality = FrameQuality::new();
    note_half(&mut quality, 999_500);
    note_half(&mut quality, 999_500);
    let last = quality.delays().last_minute(999);
    assert_eq!(rt; last.least, -1_000);
    assert_eq!(rt; last.greatest, -1_000);
    assert_eq!(rt; last.quantile(500), Some(-1_000));
}

#[test]
fn all_delays_are_kept(rt: HostRuntime) {
    let mut quality = FrameQuality::new();
    note_half(&mut quality, 999_500);
    for second in 0..300u64 {
        note_half(&mut quality, 1_000_515 + second * 1_000);
    }
    let delays = quality.delays();
    assert_eq!(rt; delays.count(), 301);
    let rows = [
        // -1,000 lies in the bucket of -1,024 to -897.
        (-1_024, 0),
        (-896, 1),
        (0, 1),
        (14, 1),
        (16, 2),
        (1_024, 3),
        // 1,015 to 8,015 are below, and 9,015 lies in the bucket from 8,192 on.
        (8_192, 10),
        (i64::MAX, 301),
    ];
    for (bound, count) in rows {
        assert_eq!(rt; delays.below(bound), count);
    }
}

// ---- STAT

/// All counts of STAT: data error 01, 10, 11, bits 13 to 9, PMU time quality 1 to 7, unlocked time 1 to 3.
fn counts(stat: &StatCounts) -> [u64; 18] {
    let [_, a, b, c, d, e, f, g] = stat.time_quality;
    let [_, x, y, z] = stat.unlocked;
    [
        stat.pmu_error,
        stat.test_or_absent,
        stat.do_not_use,
        stat.out_of_sync,
        stat.by_arrival,
        stat.triggered,
        stat.changing,
        stat.modified,
        a,
        b,
        c,
        d,
        e,
        f,
        g,
        x,
        y,
        z,
    ]
}

#[test]
fn each_bit_of_stat_alone(rt: HostRuntime) {
    let rows = [
        0x4000, 0x8000, 0xC000, 0x2000, 0x1000, 0x0800, 0x0400, 0x0200, 0x0040, 0x0080, 0x00C0,
        0x0100, 0x0140, 0x0180, 0x01C0, 0x0010, 0x0020, 0x0030,
    ];
    for place in 0..18usize {
        let mut stat = StatTally::new();
        stat.note(0);
        stat.note(rows[place]);
        stat.note(0);
        is_counted(&rt, &stat.counts(), place, 1, 0);
        stat.note(rows[place]);
        is_counted(&rt, &stat.counts(), place, 2, rows[place]);
    }
}

/// The count at this place is this one and all others are 0, and this was the last STAT.
fn is_counted(rt: &impl Abort, stat: &StatCounts, place: usize, count: u64, last: u16)
    requires { place < 18 }
{
    let mut wanted = [0; 18];
    wanted[place] = count;
    assert_eq!(*rt; counts(stat), wanted);
    assert_eq!(*rt; stat.last, last);
}

#[test]
fn reason_of_the_last_trigger(rt: HostRuntime) {
    let mut stat = StatTally::new();
    stat.note(0x000F);
    assert_eq!(rt; counts(&stat.counts()), [0; 18]);
    assert_eq!(rt; stat.counts().trigger_reason, None);
    stat.note(0x0807);
    assert_eq!(rt; stat.counts().trigger_reason, Some(7));
    stat.note(0x0000);
    assert_eq!(rt; stat.counts().trigger_reason, Some(7));
    stat.note(0x0800);
    assert_eq!(rt; stat.counts().trigger_reason, Some(0));
}

// ---- time quality

/// Whether a leap second is pending, deleted and added.
fn leap_flags(quality: &TimeQuality) -> [bool; 3] {
    [
        quality.is_leap_pending(),
        quality.is_leap_deleted(),
        quality.is_leap_added(),
    ]
}

#[test]
fn time_quality_of_frames(rt: HostRuntime) {
    // The byte; not locked, unreliable; a leap second pending, deleted, added.
    let rows = [
        (0x00, 0, 0, false, false, false),
        (0x0F, 1, 1, false, false, false),
        (0x04, 1, 0, false, false, false),
        (0x10, 0, 0, true, false, false),
        (0x20, 0, 0, false, false, true),
        (0x40, 0, 0, false, false, false),
        (0x50, 0, 0, true, false, false),
        (0x60, 0, 0, false, true, false),
        (0x80, 0, 0, false, false, false),
        (0x7B, 1, 0, true, true, false),
    ];
    for (byte, not_locked, unreliable, pending, deleted, added) in rows {
        let mut quality = TimeQuality::new();
        quality.note(byte);
        assert_eq!(rt; (quality.last, quality.code()), (byte, byte % 16));
        assert_eq!(rt;
            (quality.not_locked, quality.unreliable),
            (not_locked, unreliable)
        );
        assert_eq!(rt; leap_flags(&quality), [pending, deleted, added]);
    }
}

// ---- frequency

#[test]
fn bands_of_seconds(rt: HostRuntime) {
    let mut quality = BlockQuality::new();
    for (second, freq) in [
        (1_000, 3),
        (1_000, -5),
        (1_000, i16::MIN),
        (1_000, 10),
        (1_001, i16::MIN),
        (1_002, 7),
    ] {
        quality.come_to(second);
        quality.note(Block {
            stat: 0,
            freq,
            dfreq: freq / 2,
        });
    }
    let frequency = &mut quality.frequency;
    let wanted = Band {
        least: -5,
        greatest: 10,
    };
    for (second, band) in [(1_000, Some(wanted)), (1_001, None), (1_002, None)] {
        assert_eq!(rt; frequency.filed(second), band);
    }
    assert_eq!(rt; (frequency.freq, frequency.dfreq), (7, 3));
    for (second, is_kept) in [(1_299, true), (1_300, true), (1_301, false)] {
        frequency.come_to(second);
        frequency.note(0, 0);
        let kept = if is_kept { Some(wanted) } else { None };
        assert_eq!(rt; frequency.filed(1_000), kept);
    }
}

#[test]
fn nominal_frequencies(rt: HostRuntime) {
    assert_eq!(rt; nominal_of(0), 60_000);
    assert_eq!(rt; nominal_of(1), 50_000);
    assert_eq!(rt; nominal_of(0xFFFE), 60_000);
}

// ---- whatever comes

fn note_odd(rt: &impl Abort, quality: &mut FrameQuality, rate: i16, soc: u32, base: u32) {
    quality.announce(rate, base);
    for frac in [0, 1, u32::MAX] {
        for clock in [0, 1_000_000, u64::MAX] {
            let time = FrameTime {
                soc,
                frac,
                quality: 0xFF,
            };
            note_at(quality, time, clock);
        }
    }
    assert!(*rt; quality.span_counts().begun > 0);
}

#[test]
fn nothing_overflows(rt: HostRuntime) {
    let mut quality = FrameQuality::new();
    for rate in [i16::MIN, -1, 0, 1, i16::MAX] {
        for soc in [0, u32::MAX] {
            for base in [0, 1, u32::MAX] {
                note_odd(&rt, &mut quality, rate, soc, base);
            }
        }
    }
    assert_eq!(rt; quality.time_quality().unreliable, 270);
}
