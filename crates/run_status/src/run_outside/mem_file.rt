//! Files of an outside in memory.
ghost use Rattle.std.specs.Prelude.{◌<◌};

use lists::Items;

/// A name, the bytes that it holds, and how a source of it behaves: it gives at most `piece` bytes a read, and its
/// reads of the numbers in `failing`, counted from 0, fail.
#[derive(Drop)]
pub struct MemFile {
    pub name: Items<u8>,
    pub bytes: Items<u8>,
    pub piece: usize,
    pub failing: Items<u64>,
    ghost gives_some: { 0 < piece },
}
