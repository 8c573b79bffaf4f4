//! The chaining value of a chunk (BLAKE3 specification, section 2.4).
ghost use Rattle.std.specs.Prelude.{◌≡◌, ◌-◌, ◌/◌, ◌≤◌, length};
ghost use Rattle.blake3_hash.specs.Chunk.{chunk_value};

use crate::compression::{IV, compress};
use crate::flags::{CHUNK_END, start_flag};
use crate::words::{block_words, filled};

/// The bytes of a whole chunk.
pub(crate) const CHUNK_LEN: usize = 1024;

const BLOCK_LEN: usize = 64;

/// The chaining value of a chunk, whole or the last, with `flags` besides on its last block.
pub(crate) fn chunk_value(number: u64, chunk: &[u8], flags: u32) -> [u32; 8]
    requires { length chunk.now ≤ 1024 }
    ensures { result ≡ chunk_value number chunk.now flags }
{
    let before_last = chunk.len().saturating_sub(1) / BLOCK_LEN;
    let mut value = IV;
    'blocks: for n in 0..before_last {
        let block = &chunk[BLOCK_LEN * n..BLOCK_LEN * n + BLOCK_LEN];
        value = compress(
            &value,
            &block_words(block),
            number,
            BLOCK_LEN as u32,
            start_flag(n),
        );
    }
    let last = &chunk[BLOCK_LEN * before_last..];
    compress(
        &value,
        &block_words(&filled(last)),
        number,
        last.len() as u32,
        start_flag(before_last) | CHUNK_END | flags,
    )
}
