//! Links in memory.
ghost use Rattle.std.specs.Prelude.{◌<◌};

use lists::Items;

/// A link of these bytes, given in pieces of so many at most. The reads and puts of these numbers fail.
#[derive(Drop)]
pub struct MemLink {
    /// What the peer sends.
    pub bytes: Items<u8>,
    /// How many bytes a read gives at most.
    pub piece: usize,
    /// The numbers of the reads that fail, counted from 0.
    pub failing_reads: Items<u64>,
    /// The numbers of the puts that fail, counted from 0.
    pub failing_puts: Items<u64>,
    pub ghost gives_some: { 0 < piece },
}
