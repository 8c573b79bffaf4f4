//! The chaining values of whole chunks, four side by side.
ghost use Rattle.std.specs.Prelude.{◌≡◌, ℕ, ◌+◌, ◌*◌, ◌^◌, ◌<◌, ◌≤◌, ◌∷◌, [], drop, take, length, slice_index, slice_index_or};
ghost use Rattle.blake3_hash.specs.Chunk.{block, block_words, chunk_value, word_at};
ghost use Rattle.blake3_hash.specs.Compression.{iv};
ghost use Rattle.blake3_hash.specs.Lanes.{eight_words, lane_at, sixteen_words, whole_chunk};

use crate::compression::IV;
use crate::flags::{CHUNK_END, start_flag};
use crate::lanes::compress_lanes;
use crate::words::word_at;
use std::simd::u32x4;

/// The bytes of four chunks.
pub(crate) const HALF_LEN: usize = 4096;

/// The bytes of eight chunks.
pub(crate) const GROUP_LEN: usize = 8192;

// The four words at byte i.
#[inline(always)]
fn words_at(bytes: &[u8], i: usize) -> u32x4
    requires inside { i + 16 ≤ length bytes.now }
    ensures long { length result ≡ 4 }
    ensures words { (k : ℕ) → k < 4 → slice_index result k ≡ word_at bytes.now (i + 4 * k) }
{
    u32x4::from_array([
        word_at(bytes, i),
        word_at(bytes, i + 4),
        word_at(bytes, i + 8),
        word_at(bytes, i + 12),
    ])
}

// Four rows of four words, by columns.
#[inline(always)]
fn transposed(a: u32x4, b: u32x4, c: u32x4, d: u32x4) -> [u32x4; 4]
    requires a { length a ≡ 4 }
    requires b { length b ≡ 4 }
    requires c { length c ≡ 4 }
    requires d { length d ≡ 4 }
    ensures { (k : ℕ) → k < 4
        → slice_index_or result k [] ≡ slice_index a k ∷ slice_index b k ∷ slice_index c k ∷ slice_index d k ∷ [] }
{
    let (low_even, high_even) = a.interleave(c);
    let (low_odd, high_odd) = b.interleave(d);
    let (first, second) = low_even.interleave(low_odd);
    let (third, fourth) = high_even.interleave(high_odd);
    [first, second, third, fourth]
}

// The four words at byte i of each chunk.
#[inline(always)]
fn chunk_words_at(chunks: &[u8], i: usize) -> [u32x4; 4]
    requires four { length chunks.now ≡ 4096 }
    requires inside { i + 16 ≤ 1024 }
    ensures { (j k : ℕ) → j < 4 → k < 4 → lane_at result k j ≡ word_at chunks.now (1024 * j + (i + 4 * k)) }
{
    let a = words_at(chunks, i);
    let b = words_at(chunks, 1024 + i);
    let c = words_at(chunks, 2048 + i);
    let d = words_at(chunks, 3072 + i);
    transposed(a, b, c, d)
}

// The words of block number n of each chunk.
#[inline(always)]
fn block_words_at(chunks: &[u8], n: usize) -> [u32x4; 16]
    requires four { length chunks.now ≡ 4096 }
    requires inside { n < 16 }
    ensures { (j : ℕ) → j < 4 → sixteen_words j result ≡ block_words (block (whole_chunk chunks.now j) n) }
{
    let i = 64 * n;
    let a = chunk_words_at(chunks, i);
    let b = chunk_words_at(chunks, i + 16);
    let c = chunk_words_at(chunks, i + 32);
    let d = chunk_words_at(chunks, i + 48);
    [
        a[0], a[1], a[2], a[3], b[0], b[1], b[2], b[3], c[0], c[1], c[2], c[3], d[0], d[1], d[2],
        d[3],
    ]
}

#[inline(always)]
fn first_values() -> [u32x4; 8]
    ensures { (j : ℕ) → j < 4 → eight_words j result ≡ iv }
{
    [
        u32x4::splat(IV[0]),
        u32x4::splat(IV[1]),
        u32x4::splat(IV[2]),
        u32x4::splat(IV[3]),
        u32x4::splat(IV[4]),
        u32x4::splat(IV[5]),
        u32x4::splat(IV[6]),
        u32x4::splat(IV[7]),
    ]
}

/// The chaining values of four chunks, which are numbered from `first`.
pub(crate) fn lanes4(chunks: &[u8], first: u64) -> [u32x4; 8]
    requires four { length chunks.now ≡ 4096 }
    requires countable { first < 2 ^ 63 }
    ensures { (j : ℕ) → j < 4 → eight_words j result ≡ chunk_value (first + j) (whole_chunk chunks.now j) 0 }
{
    let mut value = first_values();
    'blocks: for n in 0..15 {
        value = compress_lanes(&value, &block_words_at(chunks, n), first, start_flag(n));
    }
    compress_lanes(&value, &block_words_at(chunks, 15), first, CHUNK_END)
}

/// The chaining values, each by itself.
pub(crate) fn unpacked(value: [u32x4; 8]) -> [[u32; 8]; 4]
    ensures { (j : ℕ) → j < 4 → slice_index_or result j [] ≡ eight_words j value }
{
    let [a0, a1, a2, a3] = value[0].to_array();
    let [b0, b1, b2, b3] = value[1].to_array();
    let [c0, c1, c2, c3] = value[2].to_array();
    let [d0, d1, d2, d3] = value[3].to_array();
    let [e0, e1, e2, e3] = value[4].to_array();
    let [f0, f1, f2, f3] = value[5].to_array();
    let [g0, g1, g2, g3] = value[6].to_array();
    let [h0, h1, h2, h3] = value[7].to_array();
    [
        [a0, b0, c0, d0, e0, f0, g0, h0],
        [a1, b1, c1, d1, e1, f1, g1, h1],
        [a2, b2, c2, d2, e2, f2, g2, h2],
        [a3, b3, c3, d3, e3, f3, g3, h3],
    ]
}

/// The chaining values of eight whole chunks, none of which is the last, numbered from `first`.
pub fn lanes8(chunks: &[u8; GROUP_LEN], first: u64) -> [[u32; 8]; 8]
    requires countable { first ≤ 2 ^ 54 }
    ensures { (j : ℕ) → j < 8 → slice_index_or result j [] ≡ chunk_value (first + j) (whole_chunk chunks.now j) 0 }
{
    let [a, b, c, d] = unpacked(lanes4(&chunks[..HALF_LEN], first));
    let [e, f, g, h] = unpacked(lanes4(&chunks[HALF_LEN..], first + 4));
    [a, b, c, d, e, f, g, h]
}
