//! Files of disks of an outside in memory.

use lists::Items;

/// A name, the bytes of its file, all of them synced, and which calls of a disk of it, counted from 0, fail. A new file is
/// empty.
#[derive(Drop)]
pub struct MemDiskFile {
    pub name: Items<u8>,
    pub bytes: Items<u8>,
    pub failing: Items<u64>,
}
