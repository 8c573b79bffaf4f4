//! Calls of a shelf.
ghost use Rattle.shelf_log.specs.ShelfLog.Format.{IsSized};
ghost use Rattle.shelf_log.specs.declared.shelf_log.version.Version.TheVariants.{Two};

use crate::disks::{file_text, list_text, refused};
use crate::shelves::session::{Held, Session};
use rows::Row;
use shelf_log::{MemDisk, Shelf, ShelfFault};
use std::alloc::{AllocError, Global};

// Bytes of the longest payload.
const LONGEST: usize = 524_288;

// Adds the payload.
fn put(shelf: &mut Shelf<MemDisk>, payload: &[u8]) -> Result<(), ShelfFault>
    requires { IsSized Two payload.now }
{
    shelf.append(payload)
}

fn appended(alloc: Global, put: Result<(), ShelfFault>) -> Result<String, AllocError> {
    match put {
        Ok(()) => String::from_str(alloc, "Ok"),
        Err(fault) => refused(alloc, fault),
    }
}

/// `append BYTES`: what becomes of the payload.
pub(crate) fn append(session: &mut Session, row: &Row) -> Result<String, AllocError> {
    let payload = row.bytes(session.alloc, 1)?;
    if payload.is_empty() || payload.len() > LONGEST {
        return String::from_str(session.alloc, "out-of-range");
    }
    match &mut session.held {
        Held::Shelf(shelf) => appended(session.alloc, put(shelf, &payload)),
        _ => String::from_str(session.alloc, "no-shelf"),
    }
}

/// `list`: the size and the bytes of each payload.
pub(crate) fn list(session: &Session) -> Result<String, AllocError> {
    match &session.held {
        Held::Shelf(shelf) => list_text(session.alloc, "list", shelf.list()),
        _ => String::from_str(session.alloc, "no-shelf"),
    }
}

/// `bytes`: the size of the shelf.
pub(crate) fn bytes(session: &Session) -> Result<String, AllocError> {
    match &session.held {
        Held::Shelf(shelf) => shelf.bytes().to_string(session.alloc),
        _ => String::from_str(session.alloc, "no-shelf"),
    }
}

// The disk is at hand, and its file is told.
fn told(session: &mut Session, disk: MemDisk) -> Result<String, AllocError> {
    let text = file_text(session.alloc, disk.bytes());
    session.held = Held::Disk(disk);
    text
}

/// `file`: the shelf is let go, and the size and the bytes of the file are given.
pub(crate) fn file(session: &mut Session) -> Result<String, AllocError> {
    match session.take_disk() {
        Some(disk) => told(session, disk),
        None => String::from_str(session.alloc, "no-disk"),
    }
}
