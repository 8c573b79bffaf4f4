//! Parents of the tree, four side by side, and the tree over eight whole chunks.
ghost use Rattle.std.specs.Prelude.{◌≡◌, ℕ, ◌+◌, ◌*◌, ◌^◌, ◌<◌, ◌≤◌, ◌∷◌, [], slice_index, slice_index_or};
ghost use Rattle.blake3_hash.specs.Lanes.{eight_values, eight_words};
ghost use Rattle.blake3_hash.specs.Tree.{parent_value, tree};

use crate::chunk_lanes::{GROUP_LEN, HALF_LEN, lanes4, unpacked};
use crate::lanes::compress_parents;
use std::simd::u32x4;

// The even lanes of both, and the odd ones.
#[inline(always)]
fn alternate(a: u32x4, b: u32x4) -> [u32x4; 2]
    ensures { result ≡ (slice_index a 0 ∷ slice_index a 2 ∷ slice_index b 0 ∷ slice_index b 2 ∷ [])
        ∷ (slice_index a 1 ∷ slice_index a 3 ∷ slice_index b 1 ∷ slice_index b 3 ∷ []) ∷ [] }
{
    let [a0, a1, a2, a3] = a.to_array();
    let [b0, b1, b2, b3] = b.to_array();
    [
        u32x4::from_array([a0, a2, b0, b2]),
        u32x4::from_array([a1, a3, b1, b3]),
    ]
}

// The parents of the neighbours among eight, four of which are in the lanes of each of two. `small` is any number whose
// top bit is 0.
#[inline(never)]
fn parents4(front: &[u32x4; 8], back: &[u32x4; 8], small: u64) -> [u32x4; 8]
    requires { small < 2 ^ 63 }
    ensures { (j : ℕ) → j < 4 → let values = eight_values front.now back.now in
        eight_words j result ≡ parent_value (slice_index_or values (2 * j) []) (slice_index_or values (2 * j + 1) []) 0 }
{
    let a = alternate(front[0], back[0]);
    let b = alternate(front[1], back[1]);
    let c = alternate(front[2], back[2]);
    let d = alternate(front[3], back[3]);
    let e = alternate(front[4], back[4]);
    let f = alternate(front[5], back[5]);
    let g = alternate(front[6], back[6]);
    let h = alternate(front[7], back[7]);
    let words = [
        a[0], b[0], c[0], d[0], e[0], f[0], g[0], h[0], a[1], b[1], c[1], d[1], e[1], f[1], g[1],
        h[1],
    ];
    compress_parents(&words, small)
}

/// The chaining value of the tree over eight whole chunks, which are numbered from `first` and are not all.
pub(crate) fn tree8(chunks: &[u8; GROUP_LEN], first: u64) -> [u32; 8]
    requires countable { first ≤ 2 ^ 54 }
    ensures { result ≡ tree first chunks.now 0 }
{
    let front = lanes4(&chunks[..HALF_LEN], first);
    let back = lanes4(&chunks[HALF_LEN..], first + 4);
    let pairs = parents4(&front, &back, first);
    let fours = parents4(&pairs, &pairs, first);
    let eight = parents4(&fours, &fours, first);
    let [value, _, _, _] = unpacked(eight);
    value
}
