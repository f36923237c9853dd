//! Metrics in Prometheus' text format, version 0.0.4.

use crate::histogram::{BOUNDS, Histogram};
use crate::quality_metrics::print_quality;
use crate::snapshot::{Call, Presence, RecordingState, Snapshot, SourceState, SubscriberState};
use crate::station::print_escaped;
use crate::stream_metrics::print_streams;
use std::io;
use std::io::Write;

/// A number that is reported of each source.
#[derive(Clone, Copy)]
enum SourceFigure {
    Up,
    Connected,
    Pause,
    Frames,
    Events,
}

impl SourceFigure {
    fn name(self) -> &'static str {
        match self {
            SourceFigure::Up => "pdcgw_source_up",
            SourceFigure::Connected => "pdcgw_source_connected",
            SourceFigure::Pause => "pdcgw_source_pause_seconds",
            SourceFigure::Frames => "pdcgw_source_frames_total",
            SourceFigure::Events => "pdcgw_source_events_total",
        }
    }

    fn kind(self) -> &'static str {
        match self {
            SourceFigure::Up | SourceFigure::Connected | SourceFigure::Pause => "gauge",
            SourceFigure::Frames | SourceFigure::Events => "counter",
        }
    }

    fn help(self) -> &'static str {
        match self {
            SourceFigure::Up => "1 if the source is connected and sent data that count, else 0.",
            SourceFigure::Connected => "1 if the source is connected, else 0.",
            SourceFigure::Pause =>
                "Seconds until the next attempt to connect to the source, 0 if none is due.",
            SourceFigure::Frames => "Frames received from the source.",
            SourceFigure::Events => "Configurations and data frames taken from the source.",
        }
    }

    fn of(self, source: &SourceState) -> u64 {
        match self {
            SourceFigure::Up => u64::from(source.call == Call::Up),
            SourceFigure::Connected => u64::from(matches!(source.call, Call::Up | Call::Connected)),
            SourceFigure::Pause => match source.call {
                Call::Pause(seconds) => u64::from(seconds),
                _ => 0,
            },
            SourceFigure::Frames => source.frames,
            SourceFigure::Events => source.events,
        }
    }
}

/// A number that is reported of each subscriber.
#[derive(Clone, Copy)]
enum SubscriberFigure {
    Connected,
    Waiting,
    Made,
    Dropped,
    Lost,
    Late,
    Twice,
    Handed,
    Frames,
    Gaps,
    QueueFrames,
    QueueBytes,
}

impl SubscriberFigure {
    fn name(self) -> &'static str {
        match self {
            SubscriberFigure::Connected => "pdcgw_subscriber_connected",
            SubscriberFigure::Waiting => "pdcgw_subscriber_waiting_seconds",
            SubscriberFigure::Made => "pdcgw_subscriber_made_frames_total",
            SubscriberFigure::Dropped => "pdcgw_subscriber_dropped_frames_total",
            SubscriberFigure::Lost => "pdcgw_subscriber_lost_frames_total",
            SubscriberFigure::Late => "pdcgw_subscriber_late_blocks_total",
            SubscriberFigure::Twice => "pdcgw_subscriber_twice_blocks_total",
            SubscriberFigure::Handed => "pdcgw_subscriber_handed_bytes_total",
            SubscriberFigure::Frames => "pdcgw_subscriber_handed_frames_total",
            SubscriberFigure::Gaps => "pdcgw_subscriber_gap_frames_total",
            SubscriberFigure::QueueFrames => "pdcgw_subscriber_queue_frames",
            SubscriberFigure::QueueBytes => "pdcgw_subscriber_queue_bytes",
        }
    }

    fn kind(self) -> &'static str {
        match self {
            SubscriberFigure::Connected
            | SubscriberFigure::Waiting
            | SubscriberFigure::QueueFrames
            | SubscriberFigure::QueueBytes => "gauge",
            _ => "counter",
        }
    }

    fn help(self) -> &'static str {
        match self {
            SubscriberFigure::Connected => "1 if the subscriber is connected, else 0.",
            SubscriberFigure::Waiting => {
                "Seconds since the subscriber was last connected, 0 while it is."
            }
            SubscriberFigure::Made => "Data frames made for the subscriber.",
            SubscriberFigure::Dropped => "Data frames dropped from the subscriber's full queue.",
            SubscriberFigure::Lost => "Data frames lost because memory ran out.",
            SubscriberFigure::Late => "Data blocks that came after their frame was sent.",
            SubscriberFigure::Twice => "Data blocks that came a second time for one frame.",
            SubscriberFigure::Handed => "Bytes sent to the subscriber.",
            SubscriberFigure::Frames => "Data frames sent to the subscriber.",
            SubscriberFigure::Gaps => {
                "Data frames dropped or lost before one that was sent to the subscriber."
            }
            SubscriberFigure::QueueFrames => "Data frames in the subscriber's queue.",
            SubscriberFigure::QueueBytes => "Bytes in the subscriber's queue.",
        }
    }

    fn of(self, subscriber: &SubscriberState) -> u64 {
        match self {
            SubscriberFigure::Connected => match &subscriber.presence {
                Presence::Connected(_) => 1,
                Presence::Waiting(_) => 0,
            },
            SubscriberFigure::Waiting => match &subscriber.presence {
                Presence::Connected(_) => 0,
                Presence::Waiting(seconds) => *seconds,
            },
            SubscriberFigure::Made => subscriber.made,
            SubscriberFigure::Dropped => subscriber.dropped,
            SubscriberFigure::Lost => subscriber.lost,
            SubscriberFigure::Late => subscriber.late,
            SubscriberFigure::Twice => subscriber.twice,
            SubscriberFigure::Handed => subscriber.handed,
            SubscriberFigure::Frames => subscriber.frames,
            SubscriberFigure::Gaps => subscriber.gaps,
            SubscriberFigure::QueueFrames => subscriber.queue.frames,
            SubscriberFigure::QueueBytes => subscriber.queue.bytes,
        }
    }
}

/// Writes all metrics: what stands in a snapshot, and the ages of data frames as they were written.
///
/// # Errors
///
/// The writer's.
pub fn print_metrics<W: Write>(
    out: &mut W,
    snapshot: &Snapshot,
    ages: &Histogram,
) -> io::Result<()> {
    print_name(out, snapshot.name.as_str())?;
    print_sources(out, snapshot.sources.as_slice())?;
    print_quality(out, snapshot.sources.as_slice())?;
    print_subscribers(out, snapshot.subscribers.as_slice())?;
    print_streams(out, snapshot.streams.as_slice())?;
    if let Some(recording) = &snapshot.recording {
        print_recording(out, recording)?;
    }
    print_ages(out, ages)
}

/// Writes the gateway's name, as the label of a metric that is always 1. A mark and a backslash stand behind a backslash there.
fn print_name<W: Write>(out: &mut W, name: &str) -> io::Result<()> {
    print_head(out, "pdcgw_info", "gauge", "The gateway's name.")?;
    out.write_all(b"pdcgw_info{name=\"")?;
    print_escaped(out, name.as_bytes())?;
    out.write_all(b"\"} 1\n")
}

/// Writes what stands above the samples of a metric.
pub(crate) fn print_head<W: Write>(
    out: &mut W,
    name: &str,
    kind: &str,
    help: &str,
) -> io::Result<()> {
    writeln!(out, "# HELP {name} {help}")?;
    writeln!(out, "# TYPE {name} {kind}")
}

/// Writes the metrics of sources.
fn print_sources<W: Write>(out: &mut W, sources: &[SourceState]) -> io::Result<()> {
    for figure in [
        SourceFigure::Up,
        SourceFigure::Connected,
        SourceFigure::Pause,
        SourceFigure::Frames,
        SourceFigure::Events,
    ] {
        let name = figure.name();
        print_head(out, name, figure.kind(), figure.help())?;
        for source in sources {
            let number = source.source.get();
            writeln!(out, "{name}{{source=\"{number}\"}} {}", figure.of(source))?;
        }
    }
    print_silences(out, sources)?;
    print_ignored(out, sources)
}

/// Writes how long ago the last events were. A source that gave none has no sample.
fn print_silences<W: Write>(out: &mut W, sources: &[SourceState]) -> io::Result<()> {
    let name = "pdcgw_source_since_event_seconds";
    print_head(
        out,
        name,
        "gauge",
        "Seconds since the last configuration or data frame taken from the source.",
    )?;
    for source in sources {
        if let Some(seconds) = source.last {
            let number = source.source.get();
            writeln!(out, "{name}{{source=\"{number}\"}} {seconds}")?;
        }
    }
    Ok(())
}

/// Writes what was ignored of sources, and why.
fn print_ignored<W: Write>(out: &mut W, sources: &[SourceState]) -> io::Result<()> {
    let name = "pdcgw_source_ignored_total";
    print_head(
        out,
        name,
        "counter",
        "Frames of the source that were ignored, and bytes that begin no frame, by reason.",
    )?;
    for source in sources {
        let number = source.source.get();
        for ignored in &source.ignored {
            let reason = ignored.reason.name();
            write!(out, "{name}{{source=\"{number}\",reason=\"{reason}\"}}")?;
            writeln!(out, " {}", ignored.count)?;
        }
    }
    Ok(())
}

/// Writes the metrics of subscribers.
fn print_subscribers<W: Write>(out: &mut W, subscribers: &[SubscriberState]) -> io::Result<()> {
    for figure in [
        SubscriberFigure::Connected,
        SubscriberFigure::Waiting,
        SubscriberFigure::Made,
        SubscriberFigure::Dropped,
        SubscriberFigure::Lost,
        SubscriberFigure::Late,
        SubscriberFigure::Twice,
        SubscriberFigure::Handed,
        SubscriberFigure::Frames,
        SubscriberFigure::Gaps,
        SubscriberFigure::QueueFrames,
        SubscriberFigure::QueueBytes,
    ] {
        let name = figure.name();
        print_head(out, name, figure.kind(), figure.help())?;
        for subscriber in subscribers {
            let number = subscriber.sub.get();
            let value = figure.of(subscriber);
            writeln!(out, "{name}{{subscriber=\"{number}\"}} {value}")?;
        }
    }
    Ok(())
}

/// Writes the metrics of the recording.
fn print_recording<W: Write>(out: &mut W, recording: &RecordingState) -> io::Result<()> {
    for (name, help, value) in [
        (
            "pdcgw_recording_written_bytes_total",
            "Bytes written to the recording.",
            recording.written,
        ),
        (
            "pdcgw_recording_unwritten_bytes_total",
            "Bytes that could not be written to the recording.",
            recording.unwritten,
        ),
        (
            "pdcgw_recording_missed_calls_total",
            "Calls that are missing in the recording because the disk was too slow.",
            recording.missed,
        ),
        (
            "pdcgw_recording_unspelled_calls_total",
            "Calls in the recording that no line of a script says.",
            recording.unspelled,
        ),
    ] {
        print_head(out, name, "counter", help)?;
        writeln!(out, "{name} {value}")?;
    }
    Ok(())
}

/// Writes microseconds as seconds.
fn print_seconds<W: Write>(out: &mut W, micros: u64) -> io::Result<()> {
    write!(out, "{}.{:06}", micros / 1_000_000, micros % 1_000_000)
}

/// Writes the histogram of ages. A bucket counts all ages up to its bound.
fn print_ages<W: Write>(out: &mut W, ages: &Histogram) -> io::Result<()> {
    let name = "pdcgw_frame_age_seconds";
    print_head(
        out,
        name,
        "histogram",
        "This machine's clock minus the timestamp of a data frame, when it is sent.",
    )?;
    let mut total = 0u64;
    for (bound, count) in BOUNDS.iter().zip(ages.counts.iter()) {
        total = total.saturating_add(*count);
        write!(out, "{name}_bucket{{le=\"")?;
        print_seconds(out, *bound)?;
        writeln!(out, "\"}} {total}")?;
    }
    let count = total.saturating_add(ages.beyond);
    writeln!(out, "{name}_bucket{{le=\"+Inf\"}} {count}")?;
    write!(out, "{name}_sum ")?;
    print_seconds(out, ages.micros)?;
    writeln!(out, "\n{name}_count {count}")
}
