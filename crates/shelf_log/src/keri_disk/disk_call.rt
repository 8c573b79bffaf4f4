//! Calls of a disk in memory.

use lists::Items;

/// What a call did to the file.
#[derive(Drop)]
pub(crate) enum DiskCall {
    /// Nothing: it asked, or it failed.
    Kept,
    /// What a crash leaves is the file.
    Synced,
    /// These bytes stand at the offset, counted in bytes from the beginning.
    Wrote { offset: usize, bytes: Items<u8> },
    /// No more than the first `size` bytes are there.
    CutTo { size: usize },
}
