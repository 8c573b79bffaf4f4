//! Calls of a file.

use lists::Items;

/// A call of a file that came about. Places and sizes count bytes from its beginning.
#[derive(Drop)]
pub enum FileCall {
    /// It has this size.
    Sized { size: u64 },
    /// These bytes stood at the place.
    Read { place: u64, bytes: Items<u8> },
    /// These bytes were written at the place.
    Wrote { place: u64, bytes: Items<u8> },
    /// It was cut to the size.
    Cut { size: u64 },
    /// What was written is on the disk.
    Synced,
    /// Nobody else has it locked from here on.
    Locked,
}
