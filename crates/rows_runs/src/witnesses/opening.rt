//! Calls that make a disk or start a witness.
ghost use Rattle.std.specs.Prelude.{◌≡◌, ℕ, List, IfOk, false};
ghost use Rattle.shelf_log.specs.KeriDisk.Memory.{mem_shown};

use crate::disks::{disk_of, failing_of, refused};
use crate::witnesses::session::{Held, Session};
use cesr_codes::{Key, KeyCode};
use journal::ResumeFault;
use keri_outside::Limits;
use lists::Items;
use rows::Row;
use shelf_log::{MemDisk, Returned, Shelf};
use std::alloc::{AllocError, Global};
use witness_core::{StartFault, Witness};

/// `disk FAILING BYTES`: a disk is at hand whose file holds the bytes.
pub(crate) fn put_in(session: &mut Session, row: &Row) -> Result<String, AllocError> {
    let failing = failing_of(session.alloc, row, 1)?;
    let bytes = row.bytes(session.alloc, 2)?;
    session.hold(Held::Disk(disk_of(session.alloc, bytes, failing)?));
    String::from_str(session.alloc, "Ok")
}

/// A witness that starts from a shelf, where the key is one that can't be rotated.
pub(crate) fn started(
    alloc: Global,
    key: Key,
    shelf: Shelf<MemDisk>,
    limits: Limits,
) -> Option<Result<Witness<MemDisk>, StartFault<MemDisk>>>
    requires limits { shelf.limits ≡ limits }
    requires whole { shelf.broken ≡ false }
{
    match key.code {
        KeyCode::Fixed => Some(Witness::start(alloc, key, shelf, limits)),
        KeyCode::Rotating => None,
    }
}

/// Why no witness starts, but for want of memory.
pub(crate) fn not_started(alloc: Global, fault: ResumeFault) -> Result<String, AllocError> {
    match fault {
        ResumeFault::OutOfMemory => Err(AllocError),
        ResumeFault::NotALog(_) => format!(in alloc; "{fault:?}"),
    }
}

// The witness is at hand, or the disk of the shelf that came back.
fn begin(session: &mut Session, shelf: Shelf<MemDisk>) -> Result<String, AllocError>
    requires limits { shelf.limits ≡ session.old.limits }
    requires whole { shelf.broken ≡ false }
{
    match started(session.alloc, session.key, shelf, session.limits) {
        Some(Ok(witness)) => {
            session.hold(Held::Witness(witness));
            String::from_str(session.alloc, "Ok")
        }
        Some(Err(StartFault { shelf, fault })) => {
            session.hold(Held::Disk(shelf.into_disk()));
            not_started(session.alloc, fault)
        }
        None => String::from_str(session.alloc, "no-witness"),
    }
}

// The disk that came back is at hand.
fn give_back(session: &mut Session, returned: Returned<MemDisk>) -> Result<String, AllocError> {
    let Returned { disk, fault } = returned;
    session.hold(Held::Disk(disk));
    refused(session.alloc, fault)
}

/// `create FAILING`: a witness with a new shelf on a new disk.
pub(crate) fn create(session: &mut Session, row: &Row) -> Result<String, AllocError> {
    let failing = failing_of(session.alloc, row, 1)?;
    let disk = disk_of(session.alloc, Vec::new(session.alloc), failing)?;
    match Shelf::create(session.alloc, disk, session.limits) {
        Ok(shelf) => begin(session, shelf),
        Err(returned) => give_back(session, returned),
    }
}

/// `start`: a witness with the shelf of the disk at hand.
pub(crate) fn start(session: &mut Session) -> Result<String, AllocError> {
    let Some(disk) = session.take_disk() else {
        return String::from_str(session.alloc, "no-disk");
    };
    match Shelf::read_back(session.alloc, disk, session.limits) {
        Ok(shelf) => begin(session, shelf),
        Err(returned) => give_back(session, returned),
    }
}
