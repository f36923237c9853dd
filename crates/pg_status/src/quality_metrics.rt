//! How good data are, as metrics.

use crate::metrics::print_head;
use crate::pmu_text::{is_in_sync, millihertz, print_thousandths, value_of};
use crate::snapshot::SourceState;
use crate::station::print_station;
use pg_quality::{BOUNDS, FrameSummary, PmuSummary, StatCounts};
use std::io;
use std::io::Write;

/// The flags of STAT that are counted (C37.118.2, 6.3).
const FLAGS: [&str; 8] = [
    "pmu_error",
    "test_or_absent",
    "do_not_use",
    "out_of_sync",
    "by_arrival",
    "triggered",
    "config_change",
    "modified",
];

/// A metric: its name, its kind, and what it is.
struct Metric {
    name: &'static str,
    kind: &'static str,
    help: &'static str,
}

/// The numbers that are reported of each source whose data are measured, in the order of [`numbers_of`].
const NUMBERS: [Metric; 9] = [
    Metric {
        name: "pdcgw_source_data_frames_total",
        kind: "counter",
        help: "Data frames read from the source.",
    },
    Metric {
        name: "pdcgw_source_expected_data_frames_total",
        kind: "counter",
        help: "Data frames that DATA_RATE asks for, between the first and the last since the source connected.",
    },
    Metric {
        name: "pdcgw_source_received_data_frames_total",
        kind: "counter",
        help: "Expected data frames that came since the source connected.",
    },
    Metric {
        name: "pdcgw_source_repeated_data_frames_total",
        kind: "counter",
        help: "Data frames with a timestamp that had come.",
    },
    Metric {
        name: "pdcgw_source_disordered_data_frames_total",
        kind: "counter",
        help: "Data frames with a timestamp before the last one.",
    },
    Metric {
        name: "pdcgw_source_spans_total",
        kind: "counter",
        help: "Runs of data frames without a jump of their timestamps.",
    },
    Metric {
        name: "pdcgw_source_unlocked_data_frames_total",
        kind: "counter",
        help: "Data frames whose time quality says that the clock is not locked.",
    },
    Metric {
        name: "pdcgw_source_time_quality",
        kind: "gauge",
        help: "Time quality of the last data frame: 0 locked, up to 15 not reliable.",
    },
    Metric {
        name: "pdcgw_source_leap_second_pending",
        kind: "gauge",
        help: "1 if the last data frame says that a leap second comes, else 0.",
    },
];

/// The numbers of a source, in the order of [`NUMBERS`].
fn numbers_of(quality: &FrameSummary) -> [u64; 9] {
    [
        quality.frames,
        quality.connected.expected,
        quality.connected.received,
        quality.repeated,
        quality.out_of_order,
        quality.spans,
        quality.time_quality.not_locked,
        u64::from(quality.time_quality.code()),
        u64::from(quality.time_quality.is_leap_pending()),
    ]
}

/// Writes the metrics of the data of sources and of their PMUs.
pub(crate) fn print_quality<W: Write>(out: &mut W, sources: &[SourceState]) -> io::Result<()> {
    print_numbers(out, sources)?;
    print_completeness(out, sources)?;
    print_delays(out, sources)?;
    print_announced(out, sources)?;
    print_flags(out, sources)?;
    print_pmus(out, sources)
}

/// Writes the numbers of each source whose data are measured.
fn print_numbers<W: Write>(out: &mut W, sources: &[SourceState]) -> io::Result<()> {
    for (place, metric) in NUMBERS.iter().enumerate() {
        let name = metric.name;
        print_head(out, name, metric.kind, metric.help)?;
        for source in sources {
            let Some(quality) = &source.quality else {
                continue;
            };
            if let Some(value) = numbers_of(quality).get(place) {
                let number = source.source.get();
                writeln!(out, "{name}{{source=\"{number}\"}} {value}")?;
            }
        }
    }
    Ok(())
}

/// Writes how many of the instants of the last minute came, rounded down. A source of which none was expected has no sample.
fn print_completeness<W: Write>(out: &mut W, sources: &[SourceState]) -> io::Result<()> {
    let name = "pdcgw_source_completeness_ratio";
    let help = "Data frames that came in the last minute, of those expected, rounded down.";
    print_head(out, name, "gauge", help)?;
    for source in sources {
        let Some(quality) = &source.quality else {
            continue;
        };
        if let Some(tenths) = quality.minute.completeness() {
            write!(out, "{name}{{source=\"{}\"}} ", source.source.get())?;
            print_thousandths(out, i64::from(tenths))?;
            writeln!(out)?;
        }
    }
    Ok(())
}

/// Writes the histograms of delays. They have no sum: a delay may be negative.
fn print_delays<W: Write>(out: &mut W, sources: &[SourceState]) -> io::Result<()> {
    let help = "This machine's clock minus the timestamp of a data frame, when it is read.";
    print_head(out, DELAYS, "histogram", help)?;
    for source in sources {
        if let Some(quality) = &source.quality {
            print_source_delays(out, source.source.get(), quality)?;
        }
    }
    Ok(())
}

/// The name of the histograms of delays.
const DELAYS: &str = "pdcgw_source_delay_seconds";

/// Writes the histogram of a source.
fn print_source_delays<W: Write>(
    out: &mut W,
    source: u16,
    quality: &FrameSummary,
) -> io::Result<()> {
    let name = DELAYS;
    for (bound, count) in BOUNDS.iter().zip(quality.below.iter()) {
        write!(out, "{name}_bucket{{source=\"{source}\",le=\"")?;
        print_thousandths(out, *bound)?;
        writeln!(out, "\"}} {count}")?;
    }
    let frames = quality.frames;
    writeln!(
        out,
        "{name}_bucket{{source=\"{source}\",le=\"+Inf\"}} {frames}\n{name}_count{{source=\"{source}\"}} {frames}"
    )
}

/// Writes which registered PMUs are announced.
fn print_announced<W: Write>(out: &mut W, sources: &[SourceState]) -> io::Result<()> {
    let name = "pdcgw_pmu_announced";
    let help = "1 if the source's configuration has the registered PMU, else 0.";
    print_head(out, name, "gauge", help)?;
    for source in sources {
        let number = source.source.get();
        for pmu in &source.pmus {
            let is_announced = u64::from(pmu.blocks.is_some());
            let pmu = pmu.pmu.get();
            writeln!(
                out,
                "{name}{{source=\"{number}\",pmu=\"{pmu}\"}} {is_announced}"
            )?;
        }
    }
    Ok(())
}

/// Writes the labels of an announced PMU, without the closing bracket.
fn print_labels<W: Write>(
    out: &mut W,
    name: &str,
    source: &SourceState,
    blocks: &PmuSummary,
) -> io::Result<()> {
    let number = source.source.get();
    write!(
        out,
        "{name}{{source=\"{number}\",pmu=\"{}\",station=",
        blocks.id
    )?;
    print_station(out, &blocks.station)
}

/// How many blocks had each flag, in the order of [`FLAGS`].
fn counts_of(stat: &StatCounts) -> [u64; 8] {
    [
        stat.pmu_error,
        stat.test_or_absent,
        stat.do_not_use,
        stat.out_of_sync,
        stat.by_arrival,
        stat.triggered,
        stat.changing,
        stat.modified,
    ]
}

/// Writes how many blocks of each PMU had which flags of STAT.
fn print_flags<W: Write>(out: &mut W, sources: &[SourceState]) -> io::Result<()> {
    let name = "pdcgw_pmu_stat_blocks_total";
    let help = "Blocks of the PMU whose STAT has the flag.";
    print_head(out, name, "counter", help)?;
    for source in sources {
        for pmu in &source.pmus {
            let Some(blocks) = &pmu.blocks else {
                continue;
            };
            for (flag, count) in FLAGS.iter().zip(counts_of(&blocks.stat)) {
                print_labels(out, name, source, blocks)?;
                writeln!(out, ",flag=\"{flag}\"}} {count}")?;
            }
        }
    }
    Ok(())
}

/// A value of the last block of a PMU.
#[derive(Clone, Copy)]
enum PmuFigure {
    InSync,
    Frequency,
    Rocof,
}

impl PmuFigure {
    fn name(self) -> &'static str {
        match self {
            PmuFigure::InSync => "pdcgw_pmu_in_sync",
            PmuFigure::Frequency => "pdcgw_pmu_frequency_hertz",
            PmuFigure::Rocof => "pdcgw_pmu_rocof_hertz_per_second",
        }
    }

    fn help(self) -> &'static str {
        match self {
            PmuFigure::InSync => "1 if the PMU's last block is in sync with UTC, else 0.",
            PmuFigure::Frequency => "FREQ of the PMU's last block.",
            PmuFigure::Rocof => "DFREQ of the PMU's last block.",
        }
    }

    fn print<W: Write>(self, out: &mut W, blocks: &PmuSummary) -> io::Result<()> {
        match self {
            PmuFigure::InSync => write!(out, "{}", u64::from(is_in_sync(blocks))),
            PmuFigure::Frequency => match millihertz(blocks) {
                Some(value) => print_thousandths(out, i64::from(value)),
                None => write!(out, "NaN"),
            },
            PmuFigure::Rocof => match value_of(blocks.dfreq) {
                Some(value) => print_thousandths(out, 10 * i64::from(value)),
                None => write!(out, "NaN"),
            },
        }
    }
}

/// Writes the values of the last block of each announced PMU.
fn print_pmus<W: Write>(out: &mut W, sources: &[SourceState]) -> io::Result<()> {
    for figure in [PmuFigure::InSync, PmuFigure::Frequency, PmuFigure::Rocof] {
        let name = figure.name();
        print_head(out, name, "gauge", figure.help())?;
        for source in sources {
            for pmu in &source.pmus {
                if let Some(blocks) = &pmu.blocks {
                    print_labels(out, name, source, blocks)?;
                    write!(out, "}} ")?;
                    figure.print(out, blocks)?;
                    writeln!(out)?;
                }
            }
        }
    }
    Ok(())
}
