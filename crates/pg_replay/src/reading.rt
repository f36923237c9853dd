//! Lines of a reader, whose ends are looked for many bytes at a time.

ghost use Rattle.std.specs.Prelude.{◌≡◌, ◌≢◌, ◌+◌, ◌++◌, ◌-◌, ◌<◌, ◌≤◌, All, length, take, Ok, vec_len, IfOk, IfErr, OnOk, OnErr, OnSome, IfSome, true};
ghost use Rattle.std.specs.Io.{StartsWith, StopsAt, IsEmptyOrEndsWith, appended_bytes};
ghost use Rattle.std.specs.Io.BufRead.{take_through, DropsThrough};
ghost use Rattle.std.specs.Io.KnownBytes.{Consumes, IsAtEnd};

use memchr::memchr;
use std::io;
use std::io::{BufRead, ErrorKind};

/// The length up to and including the first LF, or the whole length.
fn len_through(bytes: &[u8]) -> usize
    ensures bound { result ≤ length bytes.now }
    ensures some { 0 < length bytes.now → 0 < result }
    ensures before { All (λ x. x ≢ 10) (take (result - 1) bytes.now) }
{
    match memchr(b'\n', bytes) {
        Some(place) => place + 1,
        None => bytes.len(),
    }
}

/// Appends what the reader has at hand, up to and including the first LF, and returns whether the line ends there.
fn append_piece<B: BufRead>(reader: &mut B, buf: &mut Vec<u8>) -> io::Result<bool>
    ensures grows { vec_len buf.old ≤ vec_len buf.new }
    ensures appends { StartsWith buf.new.items buf.old.items }
    ensures stops { StopsAt (appended_bytes buf.old.items buf.new.items) 10 }
    ensures bytes { Consumes (B.remaining reader.old) (B.remaining reader.new) (appended_bytes buf.old.items buf.new.items) }
    ensures end { result ≡ Ok true → length (appended_bytes buf.old.items buf.new.items) ≡ 0
        → OnSome (B.remaining reader.old) (IsAtEnd (B.remaining reader.new)) }
    ensures no_byte_unless_done { result ≢ Ok true → All (λ x. x ≢ 10) (appended_bytes buf.old.items buf.new.items) }
    ensures done_at_byte_or_end { result ≡ Ok true → IsEmptyOrEndsWith (appended_bytes buf.old.items buf.new.items) 10 }
{
    let available = match reader.fill_buf() {
        Ok(available) => available,
        Err(e) => {
            return if e.kind() == ErrorKind::Interrupted {
                Ok(false)
            } else {
                Err(e)
            };
        }
    };
    let end = len_through(available);
    buf.extend_from_slice(&available[..end])?;
    let is_done = end == 0 || available[end - 1] == b'\n';
    reader.consume(end);
    Ok(is_done)
}

/// Appends the next line with its LF, and returns how many bytes it has: 0 at the reader's end.
pub(crate) fn read_line_bytes<B: BufRead>(reader: &mut B, buf: &mut Vec<u8>) -> io::Result<usize>
    ensures ok { IfOk result (λ n. vec_len buf.new ≡ vec_len buf.old + n) }
    ensures bytes { OnOk result (IfSome (B.remaining reader.old) (λ xs. buf.new.items ≡ buf.old.items ++ take_through 10 xs)) }
    ensures rest { OnOk result (DropsThrough (B.remaining reader.old) (B.remaining reader.new) 10) }
{
    let start = buf.len();
    'turns: for _turn in 0..u64::MAX {
        if append_piece(reader, buf)? {
            return Ok(buf.len() - start);
        }
    }
    Err(io::Error::from(ErrorKind::Interrupted))
}
