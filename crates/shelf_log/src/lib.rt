//! A disk and what a crash leaves of it, and a list of texts that outlasts one.
#![tactic(auto)]

mod keri_disk;
mod shelf_log;

pub use keri_disk::{Disk, MemDisk, Shape};
pub use shelf_log::{OldShelf, Returned, Shelf, ShelfFault, Version, is_leftover};
