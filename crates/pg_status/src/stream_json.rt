//! Streams and their members, as JSON.

use crate::json::{comma, put_numbers, put_text};
use crate::snapshot::{MemberState, StreamState};
use crate::stream_text::reason_of;
use std::alloc::{AllocError, Global};

/// Puts the streams, and the end of the state. Each has its `pmus`: its members in the definition's order, with `absent`, why its frames do not carry it.
pub(crate) fn put_streams(
    alloc: Global,
    json: &mut String,
    streams: &[StreamState],
) -> Result<(), AllocError> {
    json.push_str(",\"streams\":[")?;
    for (place, stream) in streams.iter().enumerate() {
        json.push_str(comma(place))?;
        put_stream(alloc, json, stream)?;
    }
    json.push_str("]}")
}

fn put_stream(alloc: Global, json: &mut String, stream: &StreamState) -> Result<(), AllocError> {
    let numbers = [
        ("{\"subscriber\":", Some(u64::from(stream.sub.get()))),
        (",\"stream\":", Some(u64::from(stream.stream.get()))),
    ];
    put_numbers(alloc, json, &numbers)?;
    json.push_str(if stream.on {
        ",\"on\":true"
    } else {
        ",\"on\":false"
    })?;
    let numbers = [
        (",\"effective\":", Some(u64::from(stream.effective))),
        (",\"members\":", Some(stream.members.len() as u64)),
        (",\"complete\":", Some(stream.complete)),
        (",\"waited\":", Some(stream.waited)),
        (",\"pushed\":", Some(stream.pushed)),
        (",\"changed\":", Some(stream.changed)),
    ];
    put_numbers(alloc, json, &numbers)?;
    json.push_str(",\"pmus\":[")?;
    for (place, member) in stream.members.iter().enumerate() {
        json.push_str(comma(place))?;
        put_member(alloc, json, member)?;
    }
    json.push_str("]}")
}

fn put_member(alloc: Global, json: &mut String, member: &MemberState) -> Result<(), AllocError> {
    let numbers = [
        ("{\"source\":", Some(u64::from(member.key.source.get()))),
        (",\"pmu\":", Some(u64::from(member.key.pmu.get()))),
        (",\"missing\":", Some(member.missing)),
        (",\"late\":", Some(member.late)),
    ];
    put_numbers(alloc, json, &numbers)?;
    match reason_of(member.membership) {
        Some(reason) => put_text(alloc, json, ",\"absent\":", reason)?,
        None => json.push_str(",\"absent\":null")?,
    }
    json.push_str("}")
}
