//! The line `advise`: which `wait` and `window` the delays of the last minute ask for.

ghost use Rattle.std.specs.Prelude.{◌<◌};

use crate::service_handle::ServiceHandle;
use pg_gateway::Edit;
use pg_lines::{NotPrinted, print_refusal};
use pg_service::{Advice, MemberDelays, Reports, SourceReport, StreamPace};
use pg_stream::Definition;
use pg_wire::{PmuKey, Refusal, SubId};
use std::alloc::{AllocError, Global};
use std::io;
use std::io::Write;
use std::rt::Clock;
use std::sync::Wait;

/// Prints a line for each stream of each subscriber, in the order of their numbers: `advise U/STREAM wait TICKS in force TICKS late BLOCKS of BLOCKS
/// window FRAMES in force FRAMES tick MS ms`, with `-` for what can't be said, since no member's data came in the last minute.
pub(crate) fn print_advice<W: Write, R: Wait + Clock>(
    out: &mut W,
    rt: &R,
    alloc: Global,
    service: &ServiceHandle<'_>,
) -> Result<(), NotPrinted> {
    let Reports { sources, .. } = service.ask(rt, alloc);
    let Ok(subscribers) = service.edits_by_subscriber(rt, alloc) else {
        print_refusal(out, "refused", Refusal::NoMemory)?;
        return Ok(());
    };
    for edits in subscribers {
        print_streams(out, alloc, &edits, &sources, service.tick_ms)?;
    }
    Ok(())
}

/// Prints a line for each stream of a subscriber with these edits.
fn print_streams<W: Write>(
    out: &mut W,
    alloc: Global,
    edits: &[Edit],
    sources: &[SourceReport],
    tick_ms: u16,
) -> Result<(), NotPrinted> {
    for edit in edits {
        let Edit::Define(sub, definition) = edit else {
            continue;
        };
        let Ok(delays) = delays_of(alloc, definition, edits, sources) else {
            print_refusal(out, "refused", Refusal::NoMemory)?;
            continue;
        };
        let pace = pace_of(definition, tick_ms);
        print_line(out, *sub, definition, pace, Advice::new(&delays, pace))?;
    }
    Ok(())
}

/// The numbers of a stream that advice depends on, where ticks are so many milliseconds apart.
pub(crate) fn pace_of(definition: &Definition, tick_ms: u16) -> StreamPace
    ensures tick { 0 < result.tick_ms }
{
    StreamPace {
        rate: definition.rate,
        wait: definition.wait,
        tick_ms: tick_ms.max(1),
    }
}

/// Prints the line of a stream.
fn print_line<W: Write>(
    out: &mut W,
    sub: SubId,
    definition: &Definition,
    pace: StreamPace,
    advice: Advice,
) -> io::Result<()> {
    let Advice {
        wait,
        window,
        late,
        blocks,
    } = advice;
    write!(out, "advise {}/{}", sub.get(), definition.stream.get())?;
    print_advised(out, " wait", wait, blocks)?;
    write!(out, " in force {} late {late} of {blocks}", definition.wait)?;
    print_advised(out, " window", window, blocks)?;
    writeln!(
        out,
        " in force {} tick {} ms",
        definition.window, pace.tick_ms
    )
}

/// Prints a number that is advised; `-` where there are no blocks to tell it by.
fn print_advised<W: Write>(out: &mut W, word: &str, number: u64, blocks: u64) -> io::Result<()> {
    if blocks == 0 {
        write!(out, "{word} -")
    } else {
        write!(out, "{word} {number}")
    }
}

/// The delays of each source of which a frame came with blocks for the stream, of a subscriber with these edits.
pub(crate) fn delays_of(
    alloc: Global,
    definition: &Definition,
    edits: &[Edit],
    sources: &[SourceReport],
) -> Result<Vec<MemberDelays>, AllocError> {
    let mut found = Vec::new(alloc);
    for source in sources {
        let mut members = 0u8;
        for key in definition.members.as_slice() {
            if is_announced(source, *key) && is_granted(edits, *key) {
                members = members.saturating_add(1);
            }
        }
        if members > 0 && source.delays.count() > 0 {
            found.push(MemberDelays {
                source: source.source,
                members,
                delays: source.delays,
            })?;
        }
    }
    Ok(found)
}

/// Whether the last configuration of a source has this PMU.
fn is_announced(source: &SourceReport, key: PmuKey) -> bool {
    source.source == key.source && source.pmus.iter().any(|pmu| pmu.id == key.pmu.get())
}

/// Whether one of these edits grants a PMU.
fn is_granted(edits: &[Edit], key: PmuKey) -> bool {
    edits.iter().any(|edit| match edit {
        Edit::Grant(_, granted) => *granted == key,
        _ => false,
    })
}
