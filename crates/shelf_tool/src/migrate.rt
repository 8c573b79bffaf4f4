//! Taking payloads over from a file of the first version.

use crate::append::say_stored;
use crate::opening::opened;
use crate::stop::Stop;
use disk_file::FileDisk;
use keri_outside::Limits;
use lists::Items;
use shelf_log::{OldShelf, Returned, Shelf, ShelfFault, is_leftover};

/// Makes a file a shelf of the payloads of an old one, to which nothing is written. Where a stop cut that short, the same
/// words do it again; where it was done, they change nothing.
pub(crate) fn migrate(rt: &HostRuntime, old: &str, path: &str) -> Result<(), Stop> {
    let disk = FileDisk::open_existing(rt, old)?;
    let OldShelf { disk: _old, list } = opened(Shelf::read_old(
        rt.alloc(),
        disk,
        Limits::standard(),
    ))?;
    let disk = FileDisk::open(rt, path)?;
    let shelf = match Shelf::read_back(rt.alloc(), disk, Limits::standard()) {
        Ok(shelf) => begun_with(shelf, list.as_slice())?,
        Err(Returned { disk, fault }) => {
            let target = target_of(disk, fault)?;
            opened(Shelf::migrate(rt.alloc(), list.as_slice(), target, Limits::standard()))?
        }
    };
    say_stored(rt, &shelf)
}

// The shelf, where its list begins with these payloads.
fn begun_with(shelf: Shelf<FileDisk>, payloads: &[Items<u8>]) -> Result<Shelf<FileDisk>, Stop> {
    if shelf.list().starts_with(payloads) {
        Ok(shelf)
    } else {
        Err(Stop::OtherShelf)
    }
}

// The disk, where it may be written over: its file is empty, or it is what a stopped migration may leave.
fn target_of(mut disk: FileDisk, fault: ShelfFault) -> Result<FileDisk, Stop> {
    if fault == ShelfFault::NotAShelf(0) && is_leftover(&mut disk)? {
        Ok(disk)
    } else {
        Err(Stop::from(fault))
    }
}
