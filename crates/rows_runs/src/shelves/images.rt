//! What crashes leave.
ghost use Rattle.std.specs.Prelude.{◌≤◌};
ghost use Rattle.shelf_log.specs.KeriDisk.Memory.{mem_shown};

use crate::disks::{list_text, refused};
use crate::shelves::opening::old_of;
use crate::shelves::session::{Held, Session};
use keri_outside::Limits;
use lists::Items;
use shelf_log::{MemDisk, Returned, Shape, Shelf, ShelfFault, is_leftover};
use std::alloc::{AllocError, Global};

// What stands on the disk, where that doesn't begin as a shelf of version 2 does.
fn other_words(alloc: Global, disk: MemDisk) -> Result<String, AllocError> {
    let mut disk = disk;
    if matches!(is_leftover(&mut disk), Ok(true)) {
        return String::from_str(alloc, "leftover");
    }
    match old_of(alloc, disk, Limits::standard()) {
        Ok(old) => list_text(alloc, "old", old.list.as_slice()),
        Err(returned) => refused(alloc, returned.fault),
    }
}

// What stands on the disk.
fn disk_words(alloc: Global, disk: MemDisk) -> Result<String, AllocError> {
    match Shelf::read_back(alloc, disk, Limits::standard()) {
        Ok(shelf) => list_text(alloc, "list", shelf.list()),
        Err(
            Returned {
                disk,
                fault: ShelfFault::NotAShelf(0),
            },
        ) => other_words(alloc, disk),
        Err(returned) => refused(alloc, returned.fault),
    }
}

// What stands in the bytes.
fn image_words(alloc: Global, bytes: Vec<u8>) -> Result<String, AllocError> {
    if bytes.is_empty() {
        return String::from_str(alloc, "empty");
    }
    let disk = MemDisk::new(alloc, bytes, Items::new(alloc))?;
    disk_words(alloc, disk)
}

// What the three shapes leave at a moment.
fn moment_words(
    alloc: Global,
    text: &mut String,
    disk: &MemDisk,
    moment: u64,
) -> Result<(), AllocError>
    requires { moment ≤ (mem_shown disk.now).moment }
{
    for shape in [Shape::Whole, Shape::Lost, Shape::Ones] {
        text.push_str(", ")?;
        text.push_str(image_words(alloc, disk.image(moment, shape)?)?.as_str())?;
    }
    text.push_str(";")
}

/// `images`: of each moment what stands on the disk after a crash that leaves all that isn't synced, or nothing of it, or bytes 1:
/// a list, or what a stopped migration may leave, or why it is neither.
pub(crate) fn images(session: &Session) -> Result<String, AllocError> {
    let mut text = String::from_str(session.alloc, "images")?;
    if let Held::Disk(disk) = &session.held {
        for moment in 0..=disk.moments() {
            moment_words(session.alloc, &mut text, disk, moment)?;
        }
    }
    Ok(text)
}
