//! Inceptions.

use cesr_codes::{Digest, Key, Prefix};
use json_tree::{Text, Tree};
use lists::{CopyValue, Items, copy_items};
use sith::Threshold;
use std::alloc::{AllocError, Global};

/// The first event of an identifier. A delegated one names its delegator.
#[derive(Drop, PartialEq, Debug)]
pub struct Inception {
    pub said: Digest,
    pub prefix: Prefix,
    /// How many of the signing keys, or which of them, must sign.
    pub kt: Threshold,
    pub keys: Items<Key>,
    /// The threshold of the next rotation's keys.
    pub nt: Threshold,
    /// Digests of the next rotation's keys.
    pub next: Items<Digest>,
    /// How many witnesses must have signed a receipt.
    pub toad: u64,
    /// The witnesses.
    pub list: Items<Key>,
    pub traits: Items<Text>,
    pub anchors: Items<Tree>,
    pub delegator: Option<Prefix>,
}

impl CopyValue for Inception {
    fn copy(&self, alloc: Global) -> Result<Inception, AllocError> {
        Ok(Inception {
            said: self.said,
            prefix: self.prefix,
            kt: self.kt.copy(alloc)?,
            keys: copy_items(&self.keys, alloc)?,
            nt: self.nt.copy(alloc)?,
            next: copy_items(&self.next, alloc)?,
            toad: self.toad,
            list: copy_items(&self.list, alloc)?,
            traits: self.traits.copy(alloc)?,
            anchors: self.anchors.copy(alloc)?,
            delegator: self.delegator,
        })
    }
}
