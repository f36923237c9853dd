//! What the subscribers of a stream do with their socket.

use crate::watcher::Watcher;
use mio::net::TcpStream;
use std::io;
use std::io::Write;

/// How many commands are due at once at most: 5, 3 and 2.
const COMMANDS: u32 = 3;

/// Whether a connection that was begun is made by now.
///
/// # Errors
///
/// That of the system, where it can't be made.
pub fn is_connected(stream: &TcpStream) -> io::Result<bool> {
    match stream.take_error() {
        Ok(None) => {}
        Ok(Some(error)) | Err(error) => return Err(error),
    }
    if stream.peer_addr().is_err() {
        return Ok(false);
    }
    // (commands are sent at once where the system permits that)
    let _ = stream.set_nodelay(true);
    Ok(true)
}

/// Sends the commands that are due, and answers whether all were taken. They are so few that the system takes them at once; a connection
/// that does not is over.
pub fn send_due(stream: &TcpStream, watcher: &mut Watcher, soc: u32) -> bool {
    for _ in 0..COMMANDS {
        let Some(command) = watcher.next_out(soc) else {
            return true;
        };
        let Ok(18) = (&*stream).write(&command) else {
            return false;
        };
    }
    true
}
