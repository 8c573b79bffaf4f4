//! A real file as a disk.
ghost use Rattle.std.specs.Prelude.{◌≡◌, IfOk};
ghost use Rattle.disk_file.specs.Untold.{disk_faults};

use crate::opening::open_alone;
use crate::{DiskOver, OpenError, RealFile};
use std::fs::OpenOptions;

/// A regular file that nobody else has open as a disk until this value is dropped. It shows no content.
pub type FileDisk = DiskOver<RealFile>;

impl DiskOver<RealFile> {
    /// Opens a file, and makes it where there is none. Its name is on the disk afterwards.
    pub fn open(rt: &HostRuntime, path: &str) -> Result<FileDisk, OpenError>
        ensures { IfOk result (λ disk. disk_faults disk ≡ 0) }
    {
        let mut options = OpenOptions::new();
        options.read(true).write(true).create(true);
        open_alone(rt, path, &options)
    }

    /// Opens a file that is there.
    pub fn open_existing(rt: &HostRuntime, path: &str) -> Result<FileDisk, OpenError>
        ensures { IfOk result (λ disk. disk_faults disk ≡ 0) }
    {
        let mut options = OpenOptions::new();
        options.read(true).write(true);
        open_alone(rt, path, &options)
    }

    /// Opens a file that is there, to be read. It takes no right to write to it: a write and a cut fail, and change nothing.
    pub fn open_to_read(rt: &HostRuntime, path: &str) -> Result<FileDisk, OpenError>
        ensures { IfOk result (λ disk. disk_faults disk ≡ 0) }
    {
        let mut options = OpenOptions::new();
        options.read(true);
        open_alone(rt, path, &options)
    }
}
