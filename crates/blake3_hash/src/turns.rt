//! Rotations of words by whole bytes, which are shuffles of the bytes.
ghost use Rattle.std.specs.Prelude.{◌≡◌, ℕ, ◌<◌, ◌^◌, slice_index};
ghost use Rattle.std.specs.Int.{w32, rotate_right};
ghost use Rattle.blake3_hash.specs.Lanes.{lane_at, right_16, right_8};

use std::simd::{u8x16, u32x4};

/// From which place each byte of four words comes, as each word is rotated right by 16 bits, and by 8.
#[derive(Drop)]
pub(crate) struct Turns {
    by_16: u8x16,
    by_8: u8x16,
    ghost by_16_is: { by_16 ≡ right_16 },
    ghost by_8_is: { by_8 ≡ right_8 },
}

// The four words, with their bytes from these places.
#[inline(always)]
fn turned_16(words: u32x4, places: u8x16) -> u32x4
    requires { places ≡ right_16 }
    ensures { (j : ℕ) → j < 4 → slice_index result j ≡ rotate_right w32 (slice_index words j) 16 }
{
    let bytes = words.to_le_bytes();
    u32x4::from_le_bytes(bytes.swizzle_dyn(places))
}

#[inline(always)]
fn turned_8(words: u32x4, places: u8x16) -> u32x4
    requires { places ≡ right_8 }
    ensures { (j : ℕ) → j < 4 → slice_index result j ≡ rotate_right w32 (slice_index words j) 8 }
{
    let bytes = words.to_le_bytes();
    u32x4::from_le_bytes(bytes.swizzle_dyn(places))
}

impl Turns {
    /// The places. The top bit of `small` is 0, which LLVM does not know: so the places are no constants for it. If they
    /// were, it would shuffle both sides of each xor, and not what the xor gives.
    #[inline(always)]
    pub(crate) fn new(small: u64) -> Turns
        requires { small < 2 ^ 63 }
    {
        let zero = u8x16::splat((small >> 63) as u8);
        Turns {
            by_16: u8x16::from_array([2, 3, 0, 1, 6, 7, 4, 5, 10, 11, 8, 9, 14, 15, 12, 13]) ^ zero,
            by_8: u8x16::from_array([1, 2, 3, 0, 5, 6, 7, 4, 9, 10, 11, 8, 13, 14, 15, 12]) ^ zero,
        }
    }

    /// Four words of each lane, rotated right by 16 bits.
    #[inline(always)]
    pub(crate) fn right_16(&self, words: [u32x4; 4]) -> [u32x4; 4]
        ensures { (i j : ℕ) → i < 4 → j < 4 → lane_at result i j ≡ rotate_right w32 (lane_at words i j) 16 }
    {
        [
            turned_16(words[0], self.by_16),
            turned_16(words[1], self.by_16),
            turned_16(words[2], self.by_16),
            turned_16(words[3], self.by_16),
        ]
    }

    /// Four words of each lane, rotated right by 8 bits.
    #[inline(always)]
    pub(crate) fn right_8(&self, words: [u32x4; 4]) -> [u32x4; 4]
        ensures { (i j : ℕ) → i < 4 → j < 4 → lane_at result i j ≡ rotate_right w32 (lane_at words i j) 8 }
    {
        [
            turned_8(words[0], self.by_8),
            turned_8(words[1], self.by_8),
            turned_8(words[2], self.by_8),
            turned_8(words[3], self.by_8),
        ]
    }
}
