//! Rotations.

use cesr_codes::{Digest, Key, Prefix};
use json_tree::Tree;
use lists::{CopyValue, Items, copy_items};
use sith::Threshold;
use std::alloc::{AllocError, Global};

/// An event that changes the keys, and may change the witnesses.
#[derive(Drop, PartialEq, Debug)]
pub struct Rotation {
    pub said: Digest,
    pub prefix: Prefix,
    pub sn: u64,
    /// The digest of the event before it.
    pub prior: Digest,
    /// How many of the signing keys, or which of them, must sign.
    pub kt: Threshold,
    pub keys: Items<Key>,
    /// The threshold of the next rotation's keys.
    pub nt: Threshold,
    /// Digests of the next rotation's keys.
    pub next: Items<Digest>,
    /// How many witnesses must have signed a receipt.
    pub toad: u64,
    /// The witnesses that are left out from then on.
    pub cuts: Items<Key>,
    /// The witnesses that come to the others.
    pub adds: Items<Key>,
    pub anchors: Items<Tree>,
}

impl CopyValue for Rotation {
    fn copy(&self, alloc: Global) -> Result<Rotation, AllocError> {
        Ok(Rotation {
            said: self.said,
            prefix: self.prefix,
            sn: self.sn,
            prior: self.prior,
            kt: self.kt.copy(alloc)?,
            keys: copy_items(&self.keys, alloc)?,
            nt: self.nt.copy(alloc)?,
            next: copy_items(&self.next, alloc)?,
            toad: self.toad,
            cuts: copy_items(&self.cuts, alloc)?,
            adds: copy_items(&self.adds, alloc)?,
            anchors: self.anchors.copy(alloc)?,
        })
    }
}
