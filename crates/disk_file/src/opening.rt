//! Opening a file for this process alone.
ghost use Rattle.std.specs.Prelude.{◌≡◌, IfOk};
ghost use Rattle.disk_file.specs.Untold.{disk_faults};

use crate::{DiskOver, FileDisk, OpenError, RealFile};
use std::fs::{File, OpenOptions};
use std::io::ErrorKind;
use std::os::fd::AsRawFd;
use std::{fs, io};

// Descriptors up to this one are the standard streams.
const LAST_STREAM: i32 = 2;

/// Opens a regular file and locks it, until it is closed, against whoever else opens it so.
pub(crate) fn open_alone(
    rt: &HostRuntime,
    path: &str,
    options: &OpenOptions,
) -> Result<FileDisk, OpenError>
    ensures { IfOk result (λ disk. disk_faults disk ≡ 0) }
{
    // Opening alone may change what isn't a file, as a terminal or a tape.
    if is_of_another_kind(rt, path)? {
        return Err(OpenError::NotAFile);
    }
    let mut file = options.open(rt, path)?;
    // What is meant for a standard stream that was closed must not land in the file.
    if file.as_raw_fd() <= LAST_STREAM {
        file = file.try_clone()?;
    }
    let disk = DiskOver::alone(RealFile { file })?;
    make_durable(rt, path, &disk.file.file)?;
    Ok(disk)
}

fn is_of_another_kind(rt: &HostRuntime, path: &str) -> io::Result<bool> {
    match fs::metadata(rt, path) {
        Ok(found) => Ok(!found.is_file()),
        Err(error) if error.kind() == ErrorKind::NotFound => Ok(false),
        Err(error) => Err(error),
    }
}

// Makes sure of what an earlier process may have left open. Its folder has the file's name on the disk; and what is read is
// what the disk has, since the kernel drops its copies of the pages, which a sync that failed may have left otherwise.
fn make_durable(rt: &HostRuntime, path: &str, file: &File) -> io::Result<()> {
    file.sync_all()?;
    let advised = libc::posix_fadvise(file.as_raw_fd(), 0, 0, libc::POSIX_FADV_DONTNEED);
    if advised != 0 {
        return Err(io::Error::from_raw_os_error(advised));
    }
    let mut folder = fs::canonicalize(rt, path)?;
    folder.pop();
    File::open(rt, folder.as_str())?.sync_all()
}
