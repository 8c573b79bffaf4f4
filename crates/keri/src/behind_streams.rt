//! Descriptors behind those of the standard streams.
ghost use Rattle.std.specs.Prelude.{IfOk};
ghost use Rattle.keri.specs.Descriptors.{IsBehindStreams};

use std::fs::File;
use std::io;
use std::io::ErrorKind;
use std::net::{TcpListener, TcpStream};
use std::os::fd::{AsRawFd, OwnedFd};
use std::process::{ChildStdin, ChildStdout};

// Descriptors up to this one are the standard streams.
const LAST_STREAM: i32 = 2;

/// A file that was opened, an end of a pipe, or a socket.
pub(crate) trait Moved {
    /// The same under another descriptor, behind those of the standard streams where the system does as it says.
    fn moved(self) -> io::Result<Self>;
}

impl Moved for File {
    fn moved(self) -> io::Result<File> {
        self.try_clone()
    }
}

impl Moved for ChildStdin {
    fn moved(self) -> io::Result<ChildStdin> {
        Ok(ChildStdin::from(OwnedFd::from(self).try_clone()?))
    }
}

impl Moved for ChildStdout {
    fn moved(self) -> io::Result<ChildStdout> {
        Ok(ChildStdout::from(OwnedFd::from(self).try_clone()?))
    }
}

impl Moved for TcpListener {
    fn moved(self) -> io::Result<TcpListener> {
        self.try_clone()
    }
}

impl Moved for TcpStream {
    fn moved(self) -> io::Result<TcpStream> {
        self.try_clone()
    }
}

/// The same file, pipe or socket. Where a standard stream was closed before this program began, what is opened may take its
/// descriptor: what is meant for that stream must not land in it, nor what it holds be taken for that stream's.
pub(crate) fn behind_streams<T: Moved + AsRawFd + Drop>(opened: T) -> io::Result<T>
    ensures { IfOk result (λ opened. IsBehindStreams (T.raw_fd opened)) }
{
    if opened.as_raw_fd() > LAST_STREAM {
        return Ok(opened);
    }
    let moved = opened.moved()?;
    if moved.as_raw_fd() <= LAST_STREAM {
        return Err(io::Error::from(ErrorKind::Other));
    }
    Ok(moved)
}
