//! Why the service does not run.

ghost use Rattle.std.specs.Prelude.{◌≡◌, ◌≢◌};
ghost use Rattle.std.specs.IoError.{error_kind};

use pg_operator::BoundBy;
use pg_setup::Trouble;
use pg_wire::Refusal;
use std::io;
use std::io::ErrorKind;
use std::net::SocketAddr;
use thiserror::Error;

/// Why the service does not run, or has ended.
#[derive(Debug, Drop, Error)]
pub enum Failure {
    /// It is refused.
    #[error("{} {}", .0.number(), .0.name())]
    Refused(#[from] Refusal),
    /// Nothing runs by the setup, for these mistakes.
    #[error("{0}")]
    Unfit(Trouble),
    /// An address or a path of the setup can't be bound.
    #[error("an address or a path of the setup can't be bound")]
    NotBound {
        /// Which key.
        by: BoundBy,
        /// The address, where it is one.
        address: Option<SocketAddr>,
        /// What the system said.
        kind: ErrorKind,
    },
}

impl Failure {
    /// The reason by which the program ends: `NoMemory`, or `ReadFault` where an address or a path can't be bound.
    pub fn refusal(&self) -> Refusal {
        match self {
            Failure::Refused(refusal) => *refusal,
            Failure::Unfit(trouble) => trouble.refusal,
            Failure::NotBound { kind, .. } => match kind {
                ErrorKind::OutOfMemory => Refusal::NoMemory,
                _ => Refusal::ReadFault,
            },
        }
    }
}

/// An address or a path of the setup can't be bound.
pub(crate) fn not_bound(by: BoundBy, address: Option<SocketAddr>, error: io::Error) -> Failure {
    Failure::NotBound {
        by,
        address,
        kind: error.kind(),
    }
}

/// What the system's fault ends the program with, where it starts: want of memory, or what it waits for or listens to can't be
/// had.
pub(crate) fn refusal_of(error: io::Error) -> Refusal
    ensures memory { error_kind error ≡ ErrorKind.OutOfMemory → result ≡ Refusal.NoMemory }
    ensures other { error_kind error ≢ ErrorKind.OutOfMemory → result ≡ Refusal.ReadFault }
{
    match error.kind() {
        ErrorKind::OutOfMemory => Refusal::NoMemory,
        _ => Refusal::ReadFault,
    }
}
