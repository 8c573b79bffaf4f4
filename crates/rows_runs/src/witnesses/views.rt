//! What a witness shows.

use crate::disks::{file_text, list_text};
use crate::witnesses::journals::journal_text;
use crate::witnesses::session::{Held, Session};
use shelf_log::MemDisk;
use std::alloc::AllocError;

/// `stored`: the size and the bytes of each payload.
pub(crate) fn stored(session: &Session) -> Result<String, AllocError> {
    match &session.held {
        Held::Witness(witness) => list_text(session.alloc, "stored", witness.stored()),
        _ => String::from_str(session.alloc, "no-witness"),
    }
}

/// `journal`: the bodies and the entries of its journal.
pub(crate) fn journal(session: &Session) -> Result<String, AllocError> {
    match &session.held {
        Held::Witness(witness) => journal_text(session.alloc, witness.journal()),
        _ => String::from_str(session.alloc, "no-witness"),
    }
}

// The disk is at hand, and its file is told.
fn told(session: &mut Session, disk: MemDisk) -> Result<String, AllocError> {
    let text = file_text(session.alloc, disk.bytes());
    session.hold(Held::Disk(disk));
    text
}

/// `file`: the witness is let go, and the size and the bytes of the file are given.
pub(crate) fn file(session: &mut Session) -> Result<String, AllocError> {
    match session.take_disk() {
        Some(disk) => told(session, disk),
        None => String::from_str(session.alloc, "no-disk"),
    }
}
