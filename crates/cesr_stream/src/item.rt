//! Items of a stream.

use crate::Group;
use lists::{CopyValue, Items};
use std::alloc::{AllocError, Global};

/// A body by its bytes, a group of attachments, or a wrap of groups.
#[derive(Drop, PartialEq, Eq, Debug)]
pub enum Item {
    Body(Items<u8>),
    Group(Group),
    /// `-V`: groups, whose characters the counter counts in fours.
    Wrapped(Items<Group>),
}

impl CopyValue for Item {
    fn copy(&self, alloc: Global) -> Result<Item, AllocError> {
        match self {
            Item::Body(bytes) => Ok(Item::Body(bytes.copy(alloc)?)),
            Item::Group(group) => Ok(Item::Group(group.copy(alloc)?)),
            Item::Wrapped(groups) => Ok(Item::Wrapped(groups.copy(alloc)?)),
        }
    }
}
