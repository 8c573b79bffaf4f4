//! Why the program ends before it has done all.

use disk_file::OpenError;
use keri_outside::Failed;
use shelf_log::ShelfFault;
use std::alloc::{AllocError, AllocFailed};
use std::fmt;
use std::io::ErrorKind;

const USAGE: &str = "usage: shelf_tool append FILE | list FILE | count FILE | migrate OLD FILE";

/// Why the program ends before it has done all, which standard error and the status say.
#[derive(Clone, Copy, PartialEq, Eq, Debug)]
pub(crate) enum Stop {
    /// The words are in the form of no command.
    Usage,
    /// Some lines of the input were no payloads.
    Lines,
    /// The file isn't a shelf, which shows first at this offset.
    NotAShelf(u64),
    /// The file is a shelf of other payloads.
    OtherShelf,
    /// Standard input couldn't be read.
    Input,
    /// Standard output couldn't be written.
    Output,
    /// Another process has the file open.
    InUse,
    /// The file is no regular one.
    NotAFile,
    /// A call on the file failed.
    DiskFault,
    /// As many records or bytes are there as may be.
    LimitReached,
    NoMemory,
}

impl Stop {
    /// The status with which the program ends.
    pub(crate) fn status(self) -> u8 {
        self.answer().0
    }

    // The status, and what standard error is told.
    fn answer(self) -> (u8, &'static str) {
        match self {
            Stop::Usage => (2, USAGE),
            Stop::Lines => (3, "lines were left out"),
            Stop::NotAShelf(_) => (3, "not a shelf"),
            Stop::OtherShelf => (3, "another shelf"),
            Stop::Input => (5, "input fault"),
            Stop::Output => (6, "output fault"),
            Stop::InUse => (8, "in use"),
            Stop::NotAFile => (8, "not a file"),
            Stop::DiskFault => (8, "disk fault"),
            Stop::LimitReached => (9, "full"),
            Stop::NoMemory => (10, "out of memory"),
        }
    }
}

impl fmt::Display for Stop {
    fn fmt<W: fmt::Write>(&self, f: &mut fmt::Formatter<W>) -> fmt::Result {
        let (_, text) = self.answer();
        match *self {
            Stop::NotAShelf(offset) => write!(f, "{text} {offset}"),
            _ => f.write_str(text),
        }
    }
}

impl From<AllocError> for Stop {
    fn from(_: AllocError) -> Self {
        Stop::NoMemory
    }
}

impl<T: Drop> From<AllocFailed<T>> for Stop {
    fn from(_: AllocFailed<T>) -> Self {
        Stop::NoMemory
    }
}

impl From<Failed> for Stop {
    fn from(_: Failed) -> Self {
        Stop::DiskFault
    }
}

impl From<OpenError> for Stop {
    fn from(error: OpenError) -> Self {
        match error {
            OpenError::Busy => Stop::InUse,
            OpenError::NotAFile => Stop::NotAFile,
            OpenError::Io(error) if error.kind() == ErrorKind::OutOfMemory => Stop::NoMemory,
            OpenError::Io(_) => Stop::DiskFault,
        }
    }
}

impl From<ShelfFault> for Stop {
    fn from(fault: ShelfFault) -> Self {
        match fault {
            ShelfFault::DiskFault | ShelfFault::Broken => Stop::DiskFault,
            ShelfFault::NotAShelf(offset) => Stop::NotAShelf(offset),
            ShelfFault::LimitReached => Stop::LimitReached,
            ShelfFault::OutOfMemory => Stop::NoMemory,
        }
    }
}
