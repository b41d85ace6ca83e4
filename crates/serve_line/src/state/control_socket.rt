use crate::state::streams::bound_accept;
use std::fs::Permissions;
use std::io::ErrorKind;
use std::net::Net;
use std::os::fd::OwnedFd;
use std::os::unix::fs::{FileTypeExt, MetadataExt, PermissionsExt};
use std::os::unix::net::{UnixListener, UnixStream};
use std::rt::Files;
use std::{fs, io};
use thiserror::Error;

/// The mode of the file of a socket: its owner connects to it.
const MODE: u32 = 0o600;

/// The bits of a mode by which the group or others write to a file. Who may write to a socket may connect to it.
const OTHERS_WRITE: u32 = 0o022;

/// The reason why a path can't be listened on.
#[derive(Debug, Drop, Error)]
pub enum SocketFault {
    #[error("it is there and is not a socket: name another path")]
    NotSocket,
    #[error("another program listens there: end that program first, or name another path")]
    Busy,
    #[error("others could have connected to it: begin again after `umask 077`")]
    Others,
    #[error("{0}")]
    Io(io::Error),
}

impl From<io::Error> for SocketFault {
    fn from(error: io::Error) -> SocketFault {
        SocketFault::Io(error)
    }
}

/// Listens on a Unix socket at this path, whose file only its owner may connect to. The path is freed first.
pub fn listen_at_path<R: Files + Net>(rt: &R, path: &str) -> Result<UnixListener, SocketFault> {
    free_path(rt, path)?;
    let listener = UnixListener::bind(rt, path)?;
    // The system has made the file with the mode that the umask leaves. Whoever could connect then may be connected.
    if fs::symlink_metadata(rt, path)?.mode() & OTHERS_WRITE != 0 {
        fs::remove_file(rt, path)?;
        return Err(SocketFault::Others);
    }
    fs::set_permissions(rt, path, Permissions::from_mode(MODE))?;
    bound_accept(OwnedFd::from(listener.try_clone()?))?;
    Ok(listener)
}

/// Removes the socket at this path, if nobody listens on it. No other file is removed. The path is free on success.
pub fn free_path<R: Files + Net>(rt: &R, path: &str) -> Result<(), SocketFault> {
    let found = match fs::symlink_metadata(rt, path) {
        Ok(found) => found,
        Err(error) if error.kind() == ErrorKind::NotFound => return Ok(()),
        Err(error) => return Err(SocketFault::Io(error)),
    };
    if !found.file_type().is_socket() {
        return Err(SocketFault::NotSocket);
    }
    match UnixStream::connect(rt, path) {
        Ok(_) => Err(SocketFault::Busy),
        Err(error) if error.kind() == ErrorKind::ConnectionRefused => {
            Ok(fs::remove_file(rt, path)?)
        }
        Err(error) => Err(SocketFault::Io(error)),
    }
}
