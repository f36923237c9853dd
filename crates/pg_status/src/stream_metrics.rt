//! Streams and their members, as metrics.

use crate::metrics::print_head;
use crate::snapshot::{MemberState, StreamState};
use crate::stream_text::{print_key, reason_of};
use std::io;
use std::io::Write;

/// A number that is reported of each stream.
#[derive(Clone, Copy)]
enum StreamFigure {
    On,
    Effective,
    Members,
}

impl StreamFigure {
    fn name(self) -> &'static str {
        match self {
            StreamFigure::On => "pdcgw_stream_on",
            StreamFigure::Effective => "pdcgw_stream_effective_members",
            StreamFigure::Members => "pdcgw_stream_members",
        }
    }

    fn help(self) -> &'static str {
        match self {
            StreamFigure::On => "1 if the subscriber has started the stream, else 0.",
            StreamFigure::Effective => "Members of the stream that are granted and announced.",
            StreamFigure::Members => "Members of the stream.",
        }
    }

    fn of(self, stream: &StreamState) -> usize {
        match self {
            StreamFigure::On => usize::from(stream.on),
            StreamFigure::Effective => stream.effective as usize,
            StreamFigure::Members => stream.members.len(),
        }
    }
}

/// Writes the metrics of streams.
pub(crate) fn print_streams<W: Write>(out: &mut W, streams: &[StreamState]) -> io::Result<()> {
    for figure in [
        StreamFigure::On,
        StreamFigure::Effective,
        StreamFigure::Members,
    ] {
        let name = figure.name();
        print_head(out, name, "gauge", figure.help())?;
        for stream in streams {
            print_labels(out, name, stream)?;
            writeln!(out, "}} {}", figure.of(stream))?;
        }
    }
    print_causes(out, streams)?;
    print_absent(out, streams)?;
    print_missing(out, streams)?;
    print_late(out, streams)
}

/// Writes a name and the labels of a stream.
fn print_labels<W: Write>(out: &mut W, name: &str, stream: &StreamState) -> io::Result<()> {
    let (sub, number) = (stream.sub.get(), stream.stream.get());
    write!(out, "{name}{{subscriber=\"{sub}\",stream=\"{number}\"")
}

/// The same with a member of the stream.
fn print_member_labels<W: Write>(
    out: &mut W,
    name: &str,
    stream: &StreamState,
    member: &MemberState,
) -> io::Result<()> {
    print_labels(out, name, stream)?;
    write!(out, ",member=\"")?;
    print_key(out, member.key)?;
    write!(out, "\"")
}

/// Writes how many frames left, by their cause.
fn print_causes<W: Write>(out: &mut W, streams: &[StreamState]) -> io::Result<()> {
    let name = "pdcgw_stream_frames_total";
    print_head(
        out,
        name,
        "counter",
        "Data frames of the stream since it was defined, by why they left: complete, wait, window, or a change of its configuration.",
    )?;
    for stream in streams {
        let causes = [
            ("complete", stream.complete),
            ("wait", stream.waited),
            ("window", stream.pushed),
            ("change", stream.changed),
        ];
        for (cause, count) in causes {
            print_labels(out, name, stream)?;
            writeln!(out, ",cause=\"{cause}\"}} {count}")?;
        }
    }
    Ok(())
}

/// Writes the members that are not carried, and why.
fn print_absent<W: Write>(out: &mut W, streams: &[StreamState]) -> io::Result<()> {
    let name = "pdcgw_stream_absent_member";
    print_head(
        out,
        name,
        "gauge",
        "1 for each member that the frames of the stream do not carry: not registered, not granted or not announced.",
    )?;
    for stream in streams {
        for member in &stream.members {
            if let Some(reason) = reason_of(member.membership) {
                print_member_labels(out, name, stream, member)?;
                writeln!(out, ",reason=\"{reason}\"}} 1")?;
            }
        }
    }
    Ok(())
}

/// Writes the frames with a filler in a member's place.
fn print_missing<W: Write>(out: &mut W, streams: &[StreamState]) -> io::Result<()> {
    let name = "pdcgw_stream_member_missing_frames_total";
    print_head(
        out,
        name,
        "counter",
        "Data frames of the stream with a filler in place of the member's block.",
    )?;
    for stream in streams {
        for member in &stream.members {
            print_member_labels(out, name, stream, member)?;
            writeln!(out, "}} {}", member.missing)?;
        }
    }
    Ok(())
}

/// Writes the blocks of members that came too late.
fn print_late<W: Write>(out: &mut W, streams: &[StreamState]) -> io::Result<()> {
    let name = "pdcgw_stream_member_late_blocks_total";
    print_head(
        out,
        name,
        "counter",
        "Blocks of the member that came for a slot which had left.",
    )?;
    for stream in streams {
        for member in &stream.members {
            print_member_labels(out, name, stream, member)?;
            writeln!(out, "}} {}", member.late)?;
        }
    }
    Ok(())
}
