//! What ends a demo before its time.

use pg_wire::Refusal;
use std::alloc::{AllocError, AllocFailed};
use std::io;
use std::io::ErrorKind;
use thiserror::Error;

/// What ends a demo before its time.
#[derive(Debug, Drop, Error)]
pub enum Fault {
    /// The gateway refuses what it is to serve, or there is no memory.
    #[error("{} {}", .0.number(), .0.name())]
    Refused(#[from] Refusal),
    /// A simulated source, or a subscriber, has ended by this.
    #[error(transparent)]
    Tool(#[from] pg_tools::Fault),
}

impl From<io::Error> for Fault {
    fn from(error: io::Error) -> Fault {
        match error.kind() {
            ErrorKind::OutOfMemory => Fault::Refused(Refusal::NoMemory),
            _ => Fault::Tool(pg_tools::Fault::System(error)),
        }
    }
}

impl From<AllocError> for Fault {
    fn from(error: AllocError) -> Fault {
        Fault::Refused(Refusal::NoMemory)
    }
}

impl<T: Drop> From<AllocFailed<T>> for Fault {
    fn from(error: AllocFailed<T>) -> Fault {
        Fault::Refused(Refusal::NoMemory)
    }
}
