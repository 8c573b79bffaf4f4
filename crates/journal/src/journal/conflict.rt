//! Conflicts.

use cesr_codes::Prefix;
use lists::{CopyValue, Items, copy_items};
use std::alloc::{AllocError, Global};

/// Signed bodies of one place in a log that differ, by their numbers in the journal.
#[derive(Drop, PartialEq, Debug)]
pub struct Conflict {
    pub prefix: Prefix,
    pub sn: u64,
    pub bodies: Items<u32>,
}

impl CopyValue for Conflict {
    fn copy(&self, alloc: Global) -> Result<Conflict, AllocError> {
        Ok(Conflict {
            prefix: self.prefix,
            sn: self.sn,
            bodies: copy_items(&self.bodies, alloc)?,
        })
    }
}
