//! The flags of the compression, and where two of them go (BLAKE3 specification, sections 2.2 to 2.6).
ghost use Rattle.std.specs.Prelude.{◌≡◌};
ghost use Rattle.blake3_hash.specs.Chunk.{start_flag};
ghost use Rattle.blake3_hash.specs.Stack.{root_flag};

const CHUNK_START: u32 = 1;

pub(crate) const CHUNK_END: u32 = 2;

pub(crate) const PARENT: u32 = 4;

const ROOT: u32 = 8;

/// CHUNK_START, on a chunk's first block.
#[inline(always)]
pub(crate) fn start_flag(block: usize) -> u32
    ensures { result ≡ start_flag block }
{
    if block == 0 { CHUNK_START } else { 0 }
}

/// ROOT, where no chunk is before a subtree.
pub(crate) fn root_flag(before: u64) -> u32
    ensures { result ≡ root_flag before }
{
    if before == 0 { ROOT } else { 0 }
}
