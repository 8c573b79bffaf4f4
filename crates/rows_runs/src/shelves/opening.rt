//! Calls that make a disk or open a shelf.
ghost use Rattle.std.specs.Prelude.{◌≡◌, ℕ, List, IfOk, IfSome, IsTrue};
ghost use Rattle.std.specs.List.{All};
ghost use Rattle.shelf_log.specs.KeriDisk.Memory.{mem_shown};
ghost use Rattle.shelf_log.specs.ShelfLog.Format.{IsSized, IsNoShelf};
ghost use Rattle.shelf_log.specs.declared.shelf_log.version.Version.TheVariants.{One, Two};

use crate::disks::{disk_of, failing_of, list_text};
use crate::shelves::session::{Held, Session};
use keri_outside::Limits;
use lists::Items;
use rows::Row;
use shelf_log::{MemDisk, OldShelf, Returned, Shelf, ShelfFault};
use std::alloc::{AllocError, Global};

// Bytes of the longest payload of version 1.
const LONGEST: usize = 65_535;

// The first two words as limits of records and bytes, where these are below the standard ones.
fn limits_of(row: &Row) -> Limits {
    let mut limits = Limits::standard();
    limits.records = row.number(1).min(u64::from(limits.records)) as u32;
    limits.shelf_bytes = row.number(2).min(u64::from(limits.shelf_bytes)) as u32;
    limits
}

/// `disk FAILING BYTES`: a disk is at hand whose file holds the bytes.
pub(crate) fn put_in(session: &mut Session, row: &Row) -> Result<String, AllocError> {
    let failing = failing_of(session.alloc, row, 1)?;
    let bytes = row.bytes(session.alloc, 2)?;
    session.held = Held::Disk(disk_of(session.alloc, bytes, failing)?);
    String::from_str(session.alloc, "Ok")
}

/// `create RECORDS BYTES FAILING`: a new shelf on a new disk.
pub(crate) fn create(session: &mut Session, row: &Row) -> Result<String, AllocError> {
    let failing = failing_of(session.alloc, row, 3)?;
    let disk = disk_of(session.alloc, Vec::new(session.alloc), failing)?;
    session.open(Shelf::create(session.alloc, disk, limits_of(row)))
}

/// `read_back RECORDS BYTES`: the shelf of the disk at hand.
pub(crate) fn read_back(session: &mut Session, row: &Row) -> Result<String, AllocError> {
    match session.take_disk() {
        Some(disk) => session.open(Shelf::read_back(session.alloc, disk, limits_of(row))),
        None => String::from_str(session.alloc, "no-disk"),
    }
}

// The disk is at hand, and its list is given.
fn listed(session: &mut Session, old: OldShelf<MemDisk>) -> Result<String, AllocError> {
    session.held = Held::Disk(old.disk);
    list_text(session.alloc, "old", old.list.as_slice())
}

/// Reads a file of version 1. The contract of what it calls is left behind here, since it makes each proof above it longer.
pub(crate) fn old_of(
    alloc: Global,
    disk: MemDisk,
    limits: Limits,
) -> Result<OldShelf<MemDisk>, Returned<MemDisk>> {
    Shelf::read_old(alloc, disk, limits)
}

/// `read_old RECORDS BYTES`: the list of the file of version 1 on the disk at hand.
pub(crate) fn read_old(session: &mut Session, row: &Row) -> Result<String, AllocError> {
    let Some(disk) = session.take_disk() else {
        return String::from_str(session.alloc, "no-disk");
    };
    match old_of(session.alloc, disk, limits_of(row)) {
        Ok(old) => listed(session, old),
        Err(returned) => session.open(Err(returned)),
    }
}

// The payloads of the words from the fifth on.
fn payloads_of(alloc: Global, row: &Row) -> Result<Items<Items<u8>>, AllocError> {
    let mut payloads = Items::new(alloc);
    for place in 5..row.len() {
        payloads.push(Items::from_vec(row.bytes(alloc, place)?))?;
    }
    Ok(payloads)
}

// Whether the payload fits in a record of version 1.
fn is_sized(payload: &Items<u8>) -> bool
    ensures { IsTrue result → IsSized One payload.now }
{
    !payload.is_empty() && payload.len() <= LONGEST
}

// Whether each does.
fn are_sized(list: &[Items<u8>]) -> bool
    ensures { IsTrue result → All (IsSized One) list.now }
{
    list.iter().all(is_sized)
}

// Whether the file of the disk is no shelf.
fn has_no_shelf(alloc: Global, disk: MemDisk) -> bool
    ensures { IsTrue result → IfSome (mem_shown disk).file (IsNoShelf Two) }
{
    match Shelf::read_back(alloc, disk, Limits::standard()) {
        Err(returned) => matches!(returned.fault, ShelfFault::NotAShelf(_)),
        Ok(_) => false,
    }
}

// Whether the bytes are no shelf.
fn is_no_shelf(alloc: Global, bytes: &[u8]) -> Result<bool, AllocError>
    ensures { IfOk result (λ no. IsTrue no → IsNoShelf Two bytes.now) }
{
    let bytes = Vec::from_slice(alloc, bytes)?;
    let disk = MemDisk::new(alloc, bytes, Items::new(alloc))?;
    Ok(has_no_shelf(alloc, disk))
}

/// `migrate RECORDS BYTES FAILING BYTES PAYLOAD..`: the payloads are brought over to a disk whose file holds the bytes.
pub(crate) fn migrate(session: &mut Session, row: &Row) -> Result<String, AllocError> {
    let failing = failing_of(session.alloc, row, 3)?;
    let bytes = row.bytes(session.alloc, 4)?;
    let payloads = payloads_of(session.alloc, row)?;
    if !are_sized(payloads.as_slice()) || !is_no_shelf(session.alloc, &bytes)? {
        return String::from_str(session.alloc, "no-migration");
    }
    let disk = disk_of(session.alloc, bytes, failing)?;
    let made = Shelf::migrate(session.alloc, payloads.as_slice(), disk, limits_of(row));
    session.open(made)
}
