//! Interactions.

use cesr_codes::{Digest, Prefix};
use json_tree::Tree;
use lists::{CopyValue, Items};
use std::alloc::{AllocError, Global};

/// An event that leaves the keys as they are.
#[derive(Drop, PartialEq, Debug)]
pub struct Interaction {
    pub said: Digest,
    pub prefix: Prefix,
    pub sn: u64,
    /// The digest of the event before it.
    pub prior: Digest,
    pub anchors: Items<Tree>,
}

impl CopyValue for Interaction {
    fn copy(&self, alloc: Global) -> Result<Interaction, AllocError> {
        Ok(Interaction {
            said: self.said,
            prefix: self.prefix,
            sn: self.sn,
            prior: self.prior,
            anchors: self.anchors.copy(alloc)?,
        })
    }
}
