//! Addresses of an outside in memory.

use crate::run_outside::MemPeer;
use lists::Items;

/// A name, the peers that come at a door of it, in order, and which calls of such a door, counted from 0,
/// fail.
#[derive(Drop)]
pub struct MemAddress {
    pub name: Items<u8>,
    pub peers: Items<MemPeer>,
    pub failing: Items<u64>,
}
