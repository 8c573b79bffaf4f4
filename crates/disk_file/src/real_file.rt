//! Files of std.

use crate::RawFile;
use std::fs::{File, TryLockError};
use std::io;
use std::os::unix::fs::FileExt;

/// A file of std, which doesn't show its calls.
#[derive(Drop)]
pub struct RealFile {
    pub(crate) file: File,
}

impl RawFile for RealFile {
    ghost use Rattle.std.specs.Prelude.{None};

    ghost calls = { λ _. None };

    fn is_regular(&self) -> io::Result<bool> {
        Ok(self.file.metadata()?.is_file())
    }

    fn size(&mut self) -> io::Result<u64> {
        Ok(self.file.metadata()?.len())
    }

    fn read_at(&mut self, place: u64, buf: &mut [u8]) -> io::Result<usize> {
        FileExt::read_at(&self.file, buf, place)
    }

    fn write_at(&mut self, place: u64, bytes: &[u8]) -> io::Result<usize> {
        FileExt::write_at(&self.file, bytes, place)
    }

    fn cut(&mut self, size: u64) -> io::Result<()> {
        self.file.set_len(size)
    }

    fn sync(&mut self) -> io::Result<()> {
        self.file.sync_data()
    }

    fn lock(&mut self) -> Result<(), TryLockError> {
        self.file.try_lock()
    }
}
