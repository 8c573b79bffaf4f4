//! The journal itself.

use crate::journal::Entry;
use json_tree::Text;
use lists::{CopyValue, Items};
use std::alloc::{AllocError, Global};

/// What a core was told, in order.
#[derive(Drop, PartialEq, Debug)]
pub struct Journal {
    /// Each distinct body once, in order of first coming. Its place is its number.
    pub bodies: Items<Text>,
    pub entries: Items<Entry>,
}

impl CopyValue for Journal {
    fn copy(&self, alloc: Global) -> Result<Journal, AllocError> {
        Ok(Journal {
            bodies: self.bodies.copy(alloc)?,
            entries: self.entries.copy(alloc)?,
        })
    }
}
