//! What the service needs of the system.

use std::io::StdinLock;
use std::net::{Net, TcpListener, TcpStream};
use std::rt::Clock;
use std::sync::Wait;
use std::thread::Threads;

/// What the service needs of the system: standard input, output and error, clocks, sockets, threads and waiting. It is handed to threads by
/// value.
pub trait Runtime: Input<Reader = StdinLock<'static>>
    + Print
    + Eprint
    + Clock
    + Net<Listener = TcpListener, Stream = TcpStream>
    + Threads
    + Wait
    + Sync
    + Copy
    + Send
    + 'static {}

impl<
    R: Input<Reader = StdinLock<'static>>
        + Print
        + Eprint
        + Clock
        + Net<Listener = TcpListener, Stream = TcpStream>
        + Threads
        + Wait
        + Sync
        + Copy
        + Send
        + 'static,
> Runtime for R {}
