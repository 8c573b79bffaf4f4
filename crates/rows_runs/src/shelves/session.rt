//! The shelf that rows speak of.

use crate::disks::refused;
use shelf_log::{MemDisk, Returned, Shelf};
use std::alloc::{AllocError, Global};
use std::mem;

/// What is at hand.
#[derive(Drop)]
pub(crate) enum Held {
    Nothing,
    Disk(MemDisk),
    Shelf(Shelf<MemDisk>),
}

/// A shelf, or the disk that it left.
#[derive(Drop)]
pub(crate) struct Session {
    pub(crate) alloc: Global,
    pub(crate) held: Held,
}

impl Session {
    /// Nothing is at hand.
    pub(crate) fn new(alloc: Global) -> Session {
        Session {
            alloc,
            held: Held::Nothing,
        }
    }

    /// The disk, which is at hand no more.
    pub(crate) fn take_disk(&mut self) -> Option<MemDisk> {
        match mem::replace(&mut self.held, Held::Nothing) {
            Held::Nothing => None,
            Held::Disk(disk) => Some(disk),
            Held::Shelf(shelf) => Some(shelf.into_disk()),
        }
    }

    /// The shelf is at hand, or the disk that came back.
    pub(crate) fn open(
        &mut self,
        opened: Result<Shelf<MemDisk>, Returned<MemDisk>>,
    ) -> Result<String, AllocError> {
        match opened {
            Ok(shelf) => {
                self.held = Held::Shelf(shelf);
                String::from_str(self.alloc, "Ok")
            }
            Err(Returned { disk, fault }) => {
                self.held = Held::Disk(disk);
                refused(self.alloc, fault)
            }
        }
    }
}
