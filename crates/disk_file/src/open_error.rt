//! Why a file wasn't opened.

use std::io;

/// Why a file wasn't opened as a disk. Nothing that it holds has changed then.
#[derive(Clone, Copy, Debug)]
pub enum OpenError {
    /// This process or another has it open as a disk.
    Busy,
    /// It is no regular file.
    NotAFile,
    /// A call of the operating system failed.
    Io(io::Error),
}

impl From<io::Error> for OpenError {
    ghost use Rattle.std.specs.Prelude.{◌≡◌};
    ghost use Rattle.disk_file.specs.declared.open_error.OpenError.TheVariants.{Io};

    ghost from_gives = { λ error e. e ≡ Io error };

    fn from(error: io::Error) -> Self {
        OpenError::Io(error)
    }
}
