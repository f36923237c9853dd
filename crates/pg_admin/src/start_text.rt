//! Words for what the program can't begin with.

use std::alloc::{AllocError, Global};
use std::net::SocketAddr;

/// What a key of the setup names, and the system does not bind.
#[derive(Clone, Copy, PartialEq, Eq)]
pub enum Bound {
    /// The port of the subscriber with this number.
    Port(u16),
    /// The page and the metrics.
    Status,
    /// The control socket.
    Control,
    /// The folder for recordings.
    Record,
}

/// A setup file that can't be read, a line: `FILE: can't be read: WHY`.
///
/// # Errors
///
/// There is no memory.
pub fn not_read(alloc: Global, file: &str, why: &str) -> Result<String, AllocError> {
    format!(in alloc; "{file}: can't be read: {why}\n")
}

/// What can't be bound, a line: `FILE:LINE: WHAT: WHY`, without the line where it is not known. `WHAT` is `subscriber N: port N`,
/// `status: ADDRESS` or `control`, without what is not known.
///
/// # Errors
///
/// There is no memory.
pub fn not_bound(
    alloc: Global,
    file: &str,
    line: Option<usize>,
    bound: Bound,
    address: Option<SocketAddr>,
    why: &str,
) -> Result<String, AllocError> {
    let what = place(alloc, bound, address)?;
    match line {
        Some(line) => format!(in alloc; "{file}:{line}: {what}: {why}\n"),
        None => format!(in alloc; "{file}: {what}: {why}\n"),
    }
}

/// What can't be bound, in the words of the setup.
fn place(alloc: Global, bound: Bound, address: Option<SocketAddr>) -> Result<String, AllocError> {
    match (bound, address) {
        (Bound::Port(number), Some(address)) => {
            format!(in alloc; "subscriber {number}: port {}", address.port())
        }
        (Bound::Port(number), None) => format!(in alloc; "subscriber {number}"),
        (Bound::Status, Some(address)) => format!(in alloc; "status: {address}"),
        (Bound::Status, None) => String::from_str(alloc, "status"),
        (Bound::Control, _) => String::from_str(alloc, "control"),
        (Bound::Record, _) => String::from_str(alloc, "record"),
    }
}
