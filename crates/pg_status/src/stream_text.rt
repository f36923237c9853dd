//! A stream and its members, as text.

use crate::snapshot::{MemberState, Membership, StreamState};
use pg_wire::PmuKey;
use std::io;
use std::io::Write;

/// Writes the line of a stream, one for each member that its frames do not carry, and one for each member that was missing in a frame or late.
pub(crate) fn print_stream<W: Write>(out: &mut W, stream: &StreamState) -> io::Result<()> {
    let state = if stream.on { "on" } else { "off" };
    write!(
        out,
        "stream {} {} {state}",
        stream.sub.get(),
        stream.stream.get()
    )?;
    write!(
        out,
        " members {}/{}",
        stream.effective,
        stream.members.len()
    )?;
    for (word, count) in [
        ("complete", stream.complete),
        ("waited", stream.waited),
        ("pushed", stream.pushed),
        ("changed", stream.changed),
    ] {
        write!(out, " {word} {count}")?;
    }
    writeln!(out)?;
    for member in &stream.members {
        print_member(out, member)?;
    }
    Ok(())
}

/// Writes why a member is not carried, and how often it was missing or late.
fn print_member<W: Write>(out: &mut W, member: &MemberState) -> io::Result<()> {
    if let Some(reason) = reason_of(member.membership) {
        write!(out, "absent ")?;
        print_key(out, member.key)?;
        writeln!(out, " {reason}")?;
    }
    if member.missing > 0 || member.late > 0 {
        write!(out, "missing ")?;
        print_key(out, member.key)?;
        writeln!(out, " {} late {}", member.missing, member.late)?;
    }
    Ok(())
}

/// Writes a key: source and PMU.
pub(crate) fn print_key<W: Write>(out: &mut W, key: PmuKey) -> io::Result<()> {
    write!(out, "{}/{}", key.source.get(), key.pmu.get())
}

/// Why a member is not carried, in words; `None` where it is.
pub(crate) fn reason_of(membership: Membership) -> Option<&'static str> {
    match membership {
        Membership::Carried => None,
        Membership::NotRegistered => Some("not registered"),
        Membership::NotGranted => Some("not granted"),
        Membership::NotAnnounced => Some("not announced"),
    }
}
