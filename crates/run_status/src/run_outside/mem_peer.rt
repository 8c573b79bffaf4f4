//! Peers in memory.
ghost use Rattle.std.specs.Prelude.{◌≡◌, ◌<◌, IfOk};

use keri_outside::MemLink;
use lists::{CopyValue, Items};
use std::alloc::{AllocError, Global};

/// A peer of a door in memory: what it sends over its link, in pieces of so many bytes at most, and which
/// reads and which puts of that link, counted from 0, fail.
#[derive(Drop)]
pub struct MemPeer {
    pub bytes: Items<u8>,
    pub piece: usize,
    pub failing_reads: Items<u64>,
    pub failing_puts: Items<u64>,
    ghost gives_some: { 0 < piece },
}

impl MemPeer {
    // A link of it.
    pub(crate) fn link(&self, alloc: Global) -> Result<MemLink, AllocError>
        ensures { IfOk result (λ link. link.bytes ≡ self.now.bytes) }
    {
        Ok(MemLink {
            bytes: self.bytes.copy(alloc)?,
            piece: self.piece,
            failing_reads: self.failing_reads.copy(alloc)?,
            failing_puts: self.failing_puts.copy(alloc)?,
        })
    }
}
