//! How a read ends, and the writing of what is left, as the loops of links and of sessions do them.

ghost use Rattle.std.specs.Prelude.{◌≡◌, ℕ, ◌≤◌, List, length, Option, None, IfSome, take, drop};
ghost use Rattle.std.specs.Io.KnownBytes.{Appends};
ghost use Rattle.pg_wire.specs.Reads.{Gave};
ghost use Rattle.pg_ingest.specs.Transfers.{EndsAs, EndsRead, IsStuck};

use crate::run::End;
use std::io;
use std::io::{ErrorKind, Write};

/// The bytes that a turn of a link or of a session reads at most.
pub const PIECE: usize = 4096;

/// How a call ends after this read: `Closed` where the reader has ended, `Quiet` where it would block, `Fault(39)`
/// where the read failed, and not where bytes came.
pub fn end_of_read(read: io::Result<usize>) -> Option<End>
    ensures is { EndsAs result read }
    ensures gave { (before after : Option (List ℕ)) (piece : List ℕ) → Gave before after read piece → EndsRead result piece after }
{
    match read {
        Ok(0) => Some(End::Closed),
        Ok(_) => None,
        Err(error) => match error.kind() {
            ErrorKind::WouldBlock => Some(End::Quiet),
            _ => Some(End::Fault(39)),
        },
    }
}

/// Writes these bytes as far as the writer takes them: how many it took, and how a call ends where it did not take
/// all: `Stalled`, or `Fault(40)` where a write failed or took no byte.
pub fn write_bytes<W: Write>(writer: &mut W, bytes: &[u8]) -> (usize, Option<End>)
    ensures within { result.0 ≤ length bytes.now }
    ensures wrote { Appends (W.contents writer.old) (W.contents writer.new) (take result.0 bytes.now) }
    ensures whole { result.1 ≡ None → result.0 ≡ length bytes.now }
    ensures stuck { IfSome result.1 (λ end. IsStuck end (drop result.0 bytes.now)) }
{
    let mut sent = 0;
    'rest: while sent < bytes.len() {
        match writer.write(&bytes[sent..]) {
            Ok(0) => return (sent, Some(End::Fault(40))),
            Ok(size) => sent += size,
            Err(error) => match error.kind() {
                ErrorKind::WouldBlock => return (sent, Some(End::Stalled)),
                _ => return (sent, Some(End::Fault(40))),
            },
        }
    }
    (sent, None)
}
