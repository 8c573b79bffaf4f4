//! Plans of events.

use crate::controller_core::Slot;
use cesr_codes::{Digest, DigestCode, Key, Prefix};
use json_tree::{Text, Tree};
use lists::Items;
use sith::Threshold;

/// What an event is to say, and which of its keys sign it. A field that the event's kind doesn't have isn't used.
#[derive(Drop, PartialEq, Debug)]
pub struct Plan {
    /// Whether the identifier has a delegator.
    pub delegated: bool,
    /// The code of the event's digest.
    pub code: DigestCode,
    /// Whether the prefix of an inception is its first key, where it has one, and not its digest.
    pub basic: bool,
    /// How many of the signing keys, or which of them, must sign.
    pub kt: Threshold,
    pub keys: Items<Key>,
    /// The threshold of the next rotation's keys.
    pub nt: Threshold,
    /// Digests of the next rotation's keys.
    pub next: Items<Digest>,
    /// How many witnesses must have signed a receipt.
    pub toad: u64,
    /// The witnesses that a rotation leaves out.
    pub cuts: Items<Key>,
    /// The witnesses of an inception, or those that a rotation adds.
    pub adds: Items<Key>,
    pub traits: Items<Text>,
    pub anchors: Items<Tree>,
    /// The delegator of a delegated inception.
    pub delegator: Option<Prefix>,
    /// The signatures that the message has, in order.
    pub signers: Items<Slot>,
}
