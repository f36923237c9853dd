//! The line of a script that is a record.

use crate::input::{command, four, measurement};
use pg_record::{Record, RecordKind};
use std::alloc::{AllocError, Global};
use std::str;

/// The line of a script that is this record; `None` where it is no line: of a question, of a call that no line says, and of a body that is
/// not as the kind has it.
///
/// # Errors
///
/// There is no memory.
pub fn line_of(alloc: Global, record: &Record, body: &[u8]) -> Result<Option<String>, AllocError> {
    let number = record.number;
    match record.kind {
        RecordKind::Measurement => line_with(
            alloc,
            "pmu",
            number,
            measurement(alloc, number, body)?,
        ),
        RecordKind::Configuration => {
            let mut line = format!(in alloc; "pmu {number} ")?;
            line.push_str(hex::encode(alloc, body)?.as_str())?;
            Ok(Some(line))
        }
        RecordKind::Command => line_with(alloc, "sub", number, command(alloc, body)?),
        RecordKind::Edit => match str::from_utf8(body) {
            Ok(text) => Ok(Some(String::from_str(alloc, text)?)),
            Err(_) => Ok(None),
        },
        RecordKind::Tick => match four(body) {
            Some(soc) => Ok(Some(format!(in alloc; "tick {soc}")?)),
            None => Ok(None),
        },
        RecordKind::Connect => Ok(Some(format!(in alloc; "connect {number}")?)),
        RecordKind::Hangup => Ok(Some(format!(in alloc; "hangup {number}")?)),
        RecordKind::Drain => match four(body) {
            Some(room) => Ok(Some(format!(in alloc; "drain {number} {room}")?)),
            None => Ok(None),
        },
        RecordKind::Question | RecordKind::Unspelled => Ok(None),
    }
}

/// The line of these bytes, if there are any.
fn line_with(
    alloc: Global,
    verb: &str,
    number: u16,
    bytes: Option<Vec<u8>>,
) -> Result<Option<String>, AllocError> {
    let Some(bytes) = bytes else {
        return Ok(None);
    };
    let mut line = format!(in alloc; "{verb} {number} ")?;
    line.push_str(hex::encode(alloc, bytes.as_slice())?.as_str())?;
    Ok(Some(line))
}
