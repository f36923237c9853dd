//! The lines of `status`.

use crate::pmu_text::print_pmu;
use crate::snapshot::{Call, Ignored, Presence, Snapshot, SourceState, SubscriberState};
use crate::stream_text::print_stream;
use std::io;
use std::io::Write;

/// Writes a line for each source, with one for each of its registered PMUs behind it, and for each subscriber and stream, with one behind it for each
/// member that its frames do not carry, and for each that was missing in a frame or late. `-` stands for what is not there: an address, a port, an event
/// to count from, a reason, the seconds of a pause that does not end by itself.
///
/// ```text
/// source 7 10.0.0.1:4712 up frames 120 events 118 ignored BadCheck=2 last 0
/// pmu 7/1 "STATION A" 30/s got 99.8% delay 12 35 80 ms sync locked stat 0000 60.003 Hz
/// subscriber 1 4800 connected 10.0.0.9:50312 made 90 dropped 0 lost 0 late 1 twice 0 handed 9360 queue 2 208
/// stream 1 101 on members 2/3 complete 80 waited 9 pushed 0 changed 1
/// absent 7/3 not granted
/// missing 7/2 10 late 4
/// ```
///
/// # Errors
///
/// The writer's.
pub fn print_status<W: Write>(out: &mut W, snapshot: &Snapshot) -> io::Result<()> {
    for source in &snapshot.sources {
        print_source(out, source)?;
        for pmu in &source.pmus {
            print_pmu(out, source, pmu)?;
        }
    }
    for subscriber in &snapshot.subscribers {
        print_subscriber(out, subscriber)?;
    }
    for stream in &snapshot.streams {
        print_stream(out, stream)?;
    }
    Ok(())
}

/// Writes the line of a source.
fn print_source<W: Write>(out: &mut W, source: &SourceState) -> io::Result<()> {
    write!(out, "source {}", source.source.get())?;
    match &source.address {
        Some(address) => write!(out, " {}", address.as_str())?,
        None => write!(out, " -")?,
    }
    print_call(out, source.call)?;
    write!(out, " frames {} events {}", source.frames, source.events)?;
    print_ignored(out, source.ignored.as_slice())?;
    match source.last {
        Some(seconds) => writeln!(out, " last {seconds}"),
        None => writeln!(out, " last -"),
    }
}

/// Writes how the connection to a source stands.
fn print_call<W: Write>(out: &mut W, call: Call) -> io::Result<()> {
    let word = match call {
        Call::Up => " up",
        Call::Connected => " connected",
        Call::Calling => " calling",
        Call::Pause(seconds) => return write!(out, " pause {seconds}"),
        Call::Rests => " pause -",
    };
    write!(out, "{word}")
}

/// Writes what was ignored.
fn print_ignored<W: Write>(out: &mut W, ignored: &[Ignored]) -> io::Result<()> {
    write!(out, " ignored")?;
    let mut is_none = true;
    for Ignored { reason, count } in ignored {
        if *count > 0 {
            write!(out, " {}={}", reason.name(), count)?;
            is_none = false;
        }
    }
    if is_none {
        write!(out, " -")?;
    }
    Ok(())
}

/// Writes the line of a subscriber.
fn print_subscriber<W: Write>(out: &mut W, subscriber: &SubscriberState) -> io::Result<()> {
    write!(out, "subscriber {}", subscriber.sub.get())?;
    match subscriber.port {
        Some(port) => write!(out, " {port}")?,
        None => write!(out, " -")?,
    }
    match &subscriber.presence {
        Presence::Connected(address) => write!(out, " connected {}", address.as_str())?,
        Presence::Waiting(seconds) => write!(out, " waiting {seconds}")?,
    }
    for (word, count) in [
        ("made", subscriber.made),
        ("dropped", subscriber.dropped),
        ("lost", subscriber.lost),
        ("late", subscriber.late),
        ("twice", subscriber.twice),
        ("handed", subscriber.handed),
    ] {
        write!(out, " {word} {count}")?;
    }
    let queue = subscriber.queue;
    writeln!(out, " queue {} {}", queue.frames, queue.bytes)
}
