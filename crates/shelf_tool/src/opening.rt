//! Shelves in files.
ghost use Rattle.std.specs.Prelude.{◌≡◌, IfOk, Ok};

use crate::stop::Stop;
use disk_file::FileDisk;
use keri_outside::Limits;
use shelf_log::{Disk, Returned, Shelf};

/// The shelf in a file; a new one where the file is empty or isn't there yet.
pub(crate) fn open_or_create(rt: &HostRuntime, path: &str) -> Result<Shelf<FileDisk>, Stop> {
    let mut disk = FileDisk::open(rt, path)?;
    disk.sync()?;
    if disk.size()? == 0 {
        return opened(Shelf::create(rt.alloc(), disk, Limits::standard()));
    }
    opened(Shelf::read_back(rt.alloc(), disk, Limits::standard()))
}

/// The shelf in a file that is there.
pub(crate) fn open_existing(rt: &HostRuntime, path: &str) -> Result<Shelf<FileDisk>, Stop> {
    let disk = FileDisk::open_existing(rt, path)?;
    opened(Shelf::read_back(rt.alloc(), disk, Limits::standard()))
}

/// What was opened; a disk that is handed back is closed.
pub(crate) fn opened<T>(outcome: Result<T, Returned<FileDisk>>) -> Result<T, Stop>
    ensures { IfOk result (λ value. outcome ≡ Ok value) }
{
    match outcome {
        Ok(value) => Ok(value),
        Err(returned) => Err(Stop::from(returned.fault)),
    }
}
