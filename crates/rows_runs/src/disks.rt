//! Disks in memory, and what rows write of their faults and their bytes.
ghost use Rattle.std.specs.Prelude.{◌≡◌, ℕ, List, IfOk};
ghost use Rattle.shelf_log.specs.KeriDisk.Memory.{mem_shown};

use lists::Items;
use rows::{Row, bytes_words};
use shelf_log::{MemDisk, ShelfFault};
use std::alloc::{AllocError, Global};

/// What rows say of a limit that is reached.
pub(crate) const LIMIT: &str = "Full";

/// The numbers of the calls that fail, by the word at a place.
pub(crate) fn failing_of(alloc: Global, row: &Row, place: usize) -> Result<Items<u64>, AllocError> {
    let mut failing = Items::new(alloc);
    for number in row.numbers(alloc, place)?.as_slice() {
        failing.push(u64::from(*number))?;
    }
    Ok(failing)
}

/// A disk of which a crash leaves the bytes alone.
pub(crate) fn disk_of(
    alloc: Global,
    bytes: Vec<u8>,
    failing: Items<u64>,
) -> Result<MemDisk, AllocError>
    ensures { IfOk result (λ disk. (c : List ℕ) → (mem_shown disk).images c → c ≡ bytes.items) }
{
    MemDisk::new(alloc, bytes, failing)
}

/// The fault of a shelf, but for want of memory.
pub(crate) fn refused(alloc: Global, fault: ShelfFault) -> Result<String, AllocError> {
    match fault {
        ShelfFault::OutOfMemory => Err(AllocError),
        ShelfFault::LimitReached => String::from_str(alloc, LIMIT),
        _ => format!(in alloc; "{fault:?}"),
    }
}

/// The size and the bytes of each member of a list, behind its kind.
pub(crate) fn list_text(
    alloc: Global,
    kind: &str,
    list: &[Items<u8>],
) -> Result<String, AllocError> {
    let mut text = String::from_str(alloc, kind)?;
    for payload in list {
        bytes_words(&mut text, payload.as_slice())?;
    }
    Ok(text)
}

/// The size and the bytes of a file.
pub(crate) fn file_text(alloc: Global, bytes: &[u8]) -> Result<String, AllocError> {
    let mut text = String::from_str(alloc, "file")?;
    bytes_words(&mut text, bytes)?;
    Ok(text)
}
