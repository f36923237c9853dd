//! The edit that an operator's line asks for.

ghost use Rattle.std.specs.Prelude.{◌≡◌, ◌⊎◌, IfOk, IfErr, IfSome, IfNone, Some, None};
ghost use Rattle.pg_lines.specs.Edits.{edit_line, text_edit, is_comment, without_end};

use crate::line::{parse_line, words_of};
use pg_gateway::Edit;
use pg_wire::Refusal;
use std::alloc::Global;

/// The line without its LF and one CR before that.
pub fn without_end(line: &[u8]) -> &[u8]
    ensures value { result.now ≡ without_end line.now }
{
    match line {
        [rest @ .., b'\r', b'\n'] => rest,
        [rest @ .., b'\n'] => rest,
        _ => line,
    }
}

/// Whether the line is a comment: its first word begins with `#`.
pub fn is_comment(line: &[u8]) -> bool
    ensures value { result ≡ is_comment line.now }
{
    for byte in line {
        if *byte != b' ' {
            return *byte == b'#';
        }
    }
    false
}

/// The edit that an operator's line asks for; `None` where it asks for nothing: an empty line, or a comment, whatever its bytes are.
///
/// # Errors
///
/// Those of `parse_line`: `BadLine` where it is no edit's line; `NoMemory`.
pub fn read_edit(alloc: Global, line: &[u8]) -> Result<Option<Edit>, Refusal>
    ensures edit { IfOk result (λ found. IfSome found (λ edit. edit_line line.now ≡ Some (Some edit))) }
    ensures nothing { IfOk result (λ found. IfNone found (edit_line line.now ≡ Some None)) }
    ensures refused { IfErr result (λ r. (r ≡ Refusal.NoMemory) ⊎ ((r ≡ Refusal.BadLine) × (edit_line line.now ≡ None))) }
{
    if is_comment(line) {
        return Ok(None);
    }
    let Ok(text) = str::from_utf8(line) else {
        return Err(Refusal::BadLine);
    };
    read_text(alloc, text)
}

/// The same of a text that is no comment.
fn read_text(alloc: Global, text: &str) -> Result<Option<Edit>, Refusal>
    ensures edit { IfOk result (λ found. IfSome found (λ edit. text_edit text.now ≡ Some (Some edit))) }
    ensures nothing { IfOk result (λ found. IfNone found (text_edit text.now ≡ Some None)) }
    ensures refused { IfErr result (λ r. (r ≡ Refusal.NoMemory) ⊎ ((r ≡ Refusal.BadLine) × (text_edit text.now ≡ None))) }
{
    let words = words_of(alloc, text)?;
    if words.is_empty() {
        return Ok(None);
    }
    let edit = parse_line(alloc, text)?;
    Ok(Some(edit))
}
