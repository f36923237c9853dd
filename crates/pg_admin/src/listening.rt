//! The control socket.

use mio::net::UnixListener;
use std::alloc::Global;
use std::fs::{DirBuilder, Permissions};
use std::io::ErrorKind;
use std::os::unix::fs::{DirBuilderExt, FileTypeExt, PermissionsExt};
use std::os::unix::net::UnixStream;
use std::{fs, io};

/// The mode of the socket: only the user that the gateway runs as may connect.
const OWNER_ALONE: u32 = 0o600;

/// The mode of the folder in which the socket is made: only the same user may enter it.
const ENTERED_BY_OWNER: u32 = 0o700;

/// The names that are tried for that folder. Another gateway that starts now may have one of them for a moment.
const FOLDERS: u32 = 100;

/// The bytes of a socket's path at most: the system has 108 for it, of which the last is zero.
const PATH_BYTES: usize = 107;

/// Listens at this path, for the user that the gateway runs as and no other, from the first moment on: the socket is made
/// in a folder beside the path that no other user may enter, gets mode 0600 there, and is then moved to the path. A socket of an
/// earlier run at which no process listens any more is replaced. A failure leaves nothing behind, and what was at the path.
///
/// # Errors
///
/// `AddrInUse` where a process listens there, or where another file stands there; `InvalidFilename` where the path is too long for a
/// socket in that folder (`FOLDER/.0/s` has at most 107 bytes, where the path is `FOLDER/NAME`); else that of the system.
pub fn listen_at(files: &HostRuntime, path: &str) -> io::Result<UnixListener> {
    if !is_free(files, path)? {
        return Err(io::Error::from(ErrorKind::AddrInUse));
    }
    let alloc = files.alloc();
    let parent = match path.rsplit_once('/') {
        Some((parent, _)) => parent,
        None => ".",
    };
    for number in 0..FOLDERS {
        let folder = format!(in alloc; "{parent}/.{number}")?;
        match listen_by(files, alloc, folder.as_str(), path) {
            Err(error) if error.kind() == ErrorKind::AlreadyExists => {}
            done => return done,
        }
    }
    Err(io::Error::from(ErrorKind::AlreadyExists))
}

/// Makes this folder, and by it the socket. `AlreadyExists` where the folder is there.
fn listen_by(
    files: &HostRuntime,
    alloc: Global,
    folder: &str,
    path: &str,
) -> io::Result<UnixListener> {
    let socket = format!(in alloc; "{folder}/s")?;
    let socket = socket.as_str();
    if socket.len() > PATH_BYTES {
        let reason = "the path is too long for a socket";
        return Err(io::Error::new(ErrorKind::InvalidFilename, reason));
    }
    let mut builder = DirBuilder::new();
    builder.mode(ENTERED_BY_OWNER);
    builder.create(files, folder)?;
    let made = listen_in(files, folder, socket, path);
    if made.is_err() {
        // It may not have been made.
        let _ = fs::remove_file(files, socket);
    }
    // An empty folder that can't be removed harms nothing.
    let _ = fs::remove_dir(files, folder);
    made
}

/// Makes the socket in the folder, and moves it to the path.
fn listen_in(
    files: &HostRuntime,
    folder: &str,
    socket: &str,
    path: &str,
) -> io::Result<UnixListener> {
    // The process's mask may have taken rights of its own user away.
    fs::set_permissions(files, folder, Permissions::from_mode(ENTERED_BY_OWNER))?;
    let listener = UnixListener::bind(files, socket)?;
    fs::set_permissions(files, socket, Permissions::from_mode(OWNER_ALONE))?;
    fs::rename(files, socket, path)?;
    Ok(listener)
}

/// Whether a socket may be put there: no file is there, or a socket at which no process listens.
fn is_free(files: &HostRuntime, path: &str) -> io::Result<bool> {
    match fs::symlink_metadata(files, path) {
        Ok(found) if !found.file_type().is_socket() => return Ok(false),
        Ok(_) => {}
        Err(error) if error.kind() == ErrorKind::NotFound => return Ok(true),
        Err(error) => return Err(error),
    }
    match UnixStream::connect(files, path) {
        Ok(_) => Ok(false),
        Err(error) if error.kind() == ErrorKind::ConnectionRefused => Ok(true),
        Err(error) => Err(error),
    }
}
