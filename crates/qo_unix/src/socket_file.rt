//! The file of a Unix socket: bound, told from other things at its path, and removed.

use std::alloc::{AllocError, Global};
use std::fs::{self, Metadata};
use std::io::{self, ErrorKind};
use std::os::unix::fs::{FileTypeExt, MetadataExt};
use std::os::unix::net::{UnixListener, UnixStream};

/// The longest path that a Unix socket has, in bytes.
const PATH_MAX: usize = 107;

/// Which file it is, on which device.
#[derive(Clone, Copy, PartialEq, Eq)]
struct Identity {
    device: u64,
    inode: u64,
}

impl Identity {
    fn of(metadata: &Metadata) -> Identity {
        Identity {
            device: metadata.dev(),
            inode: metadata.ino(),
        }
    }
}

/// The path of the socket file that was made, if one was and it was not removed yet.
#[derive(Drop)]
pub(crate) struct SocketFile {
    path: String,
    made: Option<Identity>,
}

impl SocketFile {
    /// No file yet, with room for its path.
    pub(crate) fn new(alloc: Global) -> Result<SocketFile, AllocError> {
        Ok(SocketFile {
            path: String::with_capacity(alloc, PATH_MAX)?,
            made: None,
        })
    }

    /// Makes a socket file at the path, and listens there.
    ///
    /// A socket file there on which nobody listens is replaced. Anything else there is left as it is.
    pub(crate) fn listen(&mut self, rt: &HostRuntime, path: &str) -> io::Result<UnixListener> {
        if path.is_empty() || path.len() > PATH_MAX {
            return Err(io::Error::from(ErrorKind::InvalidInput));
        }
        self.path.clear();
        self.path.push_str(path)?;
        let listener = bind(rt, path)?;
        self.made = Some(Identity::of(&fs::symlink_metadata(rt, path)?));
        Ok(listener)
    }

    /// Removes the file that was made, where it still stands at its path.
    pub(crate) fn remove(&mut self, rt: &HostRuntime) {
        let Some(made) = self.made.take() else {
            return;
        };
        if let Ok(metadata) = fs::symlink_metadata(rt, self.path.as_str()) {
            if Identity::of(&metadata) == made {
                let _removed = fs::remove_file(rt, self.path.as_str());
            }
        }
    }
}

/// Listens at a path, also where a socket file was left behind there.
fn bind(rt: &HostRuntime, path: &str) -> io::Result<UnixListener> {
    match UnixListener::bind(rt, path) {
        Err(error) if error.kind() == ErrorKind::AddrInUse && is_left_after(rt, path)? => {
            fs::remove_file(rt, path)?;
            UnixListener::bind(rt, path)
        }
        bound => bound,
    }
}

/// Whether a socket file stands at the path on which nobody listens.
fn is_left_after(rt: &HostRuntime, path: &str) -> io::Result<bool> {
    if !fs::symlink_metadata(rt, path)?.file_type().is_socket() {
        return Ok(false);
    }
    match UnixStream::connect(rt, path) {
        Ok(_stream) => Ok(false),
        Err(error) => Ok(error.kind() == ErrorKind::ConnectionRefused),
    }
}
