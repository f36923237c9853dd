//! A client of the control socket.

use pg_status::{Answered, converse};
use std::alloc::Global;
use std::io;
use std::io::{BufReader, Write};
use std::os::unix::net::UnixStream;
use std::time::Duration;

/// How long an answer may take, in seconds.
const SECONDS: u64 = 60;

/// Sends lines to the control socket at this path, writes their answers, and returns how they were answered: as `converse`.
///
/// # Errors
///
/// `NotFound` where no file stands there, `ConnectionRefused` where nobody listens there, `PermissionDenied` where another user
/// does; else that of the system, or of the writer.
pub fn ask<W: Write>(
    files: &HostRuntime,
    alloc: Global,
    path: &str,
    lines: &[&str],
    out: &mut W,
) -> io::Result<Answered> {
    let stream = UnixStream::connect(files, path)?;
    stream.set_read_timeout(Some(Duration::from_secs(SECONDS)))?;
    let mut answers = BufReader::new(alloc, &stream)?;
    let mut sender = &stream;
    converse(alloc, &mut answers, &mut sender, lines, out)
}
