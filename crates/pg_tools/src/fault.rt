//! What ends a tool.

use std::alloc::AllocError;
use std::io;
use std::net::SocketAddr;
use thiserror::Error;

/// What ends a tool.
#[derive(Debug, Drop, Error)]
pub enum Fault {
    /// This address can't be bound.
    #[error("{0} can't be bound: {1}")]
    Bind(SocketAddr, io::Error),
    /// No connection to this address can be had.
    #[error("{0} can't be reached: {1}")]
    Reach(SocketAddr, io::Error),
    /// No address of this name, with its port, is found.
    #[error("{0} can't be reached: no address of this name is found ({1}); it has to be in /etc/hosts or known to a name server, else give A.B.C.D:PORT")]
    Name(String, io::Error),
    /// This file can't be written.
    #[error("the file of --raw can't be written: {0}")]
    File(io::Error),
    /// Standard output can't be written.
    #[error("standard output can't be written")]
    Output,
    /// The system doesn't do what is needed, or memory ran out.
    #[error(transparent)]
    System(#[from] io::Error),
}

impl From<AllocError> for Fault {
    fn from(error: AllocError) -> Fault {
        Fault::System(io::Error::from(error))
    }
}
