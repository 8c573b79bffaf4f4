//! The compression of four blocks of 64 bytes side by side: each word is a vector, with one lane for each block.
ghost use Rattle.std.specs.Prelude.{◌≡◌, ℕ, ◌+◌, ◌/◌, ◌%◌, ◌^◌, ◌<◌, bit_xor, slice_index};
ghost use Rattle.std.specs.Int.{w32, rotate_right};
ghost use Rattle.blake3_hash.specs.Compression.{add32, columns, compress, diagonals, first_state, halves_joined, iv, parent, permuted, round, rounds};
ghost use Rattle.blake3_hash.specs.Lanes.{eight_words, lane_at, sixteen_words};

use crate::compression::IV;
use crate::flags::PARENT;
use crate::turns::Turns;
use std::simd::u32x4;

const BLOCK_LEN: u32 = 64;

#[inline(always)]
fn add(a: u32x4, b: u32x4) -> u32x4
    ensures { (j : ℕ) → j < 4 → slice_index result j ≡ add32 (slice_index a j) (slice_index b j) }
{
    a + b
}

#[inline(always)]
fn xor(a: u32x4, b: u32x4) -> u32x4
    ensures { (j : ℕ) → j < 4 → slice_index result j ≡ bit_xor (slice_index a j) (slice_index b j) }
{
    a ^ b
}

#[inline(always)]
fn xor_rotate(a: u32x4, b: u32x4, k: u32) -> u32x4
    requires { (0 < k) × (k < 32) }
    ensures { (j : ℕ) → j < 4 → slice_index result j ≡ rotate_right w32 (bit_xor (slice_index a j) (slice_index b j)) k }
{
    let x = a ^ b;
    (x >> u32x4::splat(k)) | (x << u32x4::splat(32 - k))
}

// The same on four words of each lane.
#[inline(always)]
fn add4(a: [u32x4; 4], b: [u32x4; 4]) -> [u32x4; 4]
    ensures { (i j : ℕ) → i < 4 → j < 4 → lane_at result i j ≡ add32 (lane_at a i j) (lane_at b i j) }
{
    [
        add(a[0], b[0]),
        add(a[1], b[1]),
        add(a[2], b[2]),
        add(a[3], b[3]),
    ]
}

#[inline(always)]
fn xor4(a: [u32x4; 4], b: [u32x4; 4]) -> [u32x4; 4]
    ensures { (i j : ℕ) → i < 4 → j < 4 → lane_at result i j ≡ bit_xor (lane_at a i j) (lane_at b i j) }
{
    [
        xor(a[0], b[0]),
        xor(a[1], b[1]),
        xor(a[2], b[2]),
        xor(a[3], b[3]),
    ]
}

#[inline(always)]
fn xor_rotate4(a: [u32x4; 4], b: [u32x4; 4], k: u32) -> [u32x4; 4]
    requires { (0 < k) × (k < 32) }
    ensures { (i j : ℕ) → i < 4 → j < 4
        → lane_at result i j ≡ rotate_right w32 (bit_xor (lane_at a i j) (lane_at b i j)) k }
{
    [
        xor_rotate(a[0], b[0], k),
        xor_rotate(a[1], b[1], k),
        xor_rotate(a[2], b[2], k),
        xor_rotate(a[3], b[3], k),
    ]
}

// G on the four columns, which go step by step together, since none waits for another: with the eight words m.
#[inline(always)]
fn mix_columns(v: [u32x4; 16], m: [u32x4; 8], turns: &Turns) -> [u32x4; 16]
    ensures { (j : ℕ) → j < 4 → sixteen_words j result ≡ columns (sixteen_words j v) (eight_words j m) }
{
    let a = [v[0], v[1], v[2], v[3]];
    let b = [v[4], v[5], v[6], v[7]];
    let c = [v[8], v[9], v[10], v[11]];
    let d = [v[12], v[13], v[14], v[15]];
    let x = [m[0], m[2], m[4], m[6]];
    let y = [m[1], m[3], m[5], m[7]];
    let ab1 = add4(a, b);
    let a1 = add4(ab1, x);
    let d1 = turns.right_16(xor4(d, a1));
    let c1 = add4(c, d1);
    let b1 = xor_rotate4(b, c1, 12);
    let ab2 = add4(a1, b1);
    let a2 = add4(ab2, y);
    let d2 = turns.right_8(xor4(d1, a2));
    let c2 = add4(c1, d2);
    let b2 = xor_rotate4(b1, c2, 7);
    [
        a2[0], a2[1], a2[2], a2[3], b2[0], b2[1], b2[2], b2[3], c2[0], c2[1], c2[2], c2[3], d2[0],
        d2[1], d2[2], d2[3],
    ]
}

// The same on the four diagonals: they are the columns, once each row of the state is turned left by its number.
#[inline(always)]
fn mix_diagonals(v: [u32x4; 16], m: &[u32x4; 16], turns: &Turns) -> [u32x4; 16]
    ensures { (j : ℕ) → j < 4 → sixteen_words j result ≡ diagonals (sixteen_words j v) (sixteen_words j m.now) }
{
    let v = mix_columns(
        [
            v[0], v[1], v[2], v[3], v[5], v[6], v[7], v[4], v[10], v[11], v[8], v[9], v[15], v[12],
            v[13], v[14],
        ],
        [m[8], m[9], m[10], m[11], m[12], m[13], m[14], m[15]],
        turns,
    );
    [
        v[0], v[1], v[2], v[3], v[7], v[4], v[5], v[6], v[10], v[11], v[8], v[9], v[13], v[14],
        v[15], v[12],
    ]
}

#[inline(always)]
fn mix_round(v: [u32x4; 16], m: &[u32x4; 16], turns: &Turns) -> [u32x4; 16]
    ensures { (j : ℕ) → j < 4 → sixteen_words j result ≡ round (sixteen_words j v) (sixteen_words j m.now) }
{
    let front = [m[0], m[1], m[2], m[3], m[4], m[5], m[6], m[7]];
    mix_diagonals(mix_columns(v, front, turns), m, turns)
}

// The message words of the next round.
#[inline(always)]
#[tactic(auto, unfolding(crate::specs::Compression::permuted))]
fn permute(m: &[u32x4; 16]) -> [u32x4; 16]
    ensures { (j : ℕ) → j < 4 → sixteen_words j result ≡ permuted (sixteen_words j m.now) }
{
    [
        m[2], m[6], m[3], m[10], m[7], m[0], m[4], m[13], m[1], m[11], m[12], m[5], m[9], m[14],
        m[15], m[8],
    ]
}

// The seven rounds.
#[inline(always)]
fn seven_rounds(v: [u32x4; 16], m0: &[u32x4; 16], turns: &Turns) -> [u32x4; 16]
    ensures { (j : ℕ) → j < 4 → sixteen_words j result ≡ rounds 7 (sixteen_words j v) (sixteen_words j m0.now) }
{
    let v1 = mix_round(v, m0, turns);
    let m1 = permute(m0);
    let v2 = mix_round(v1, &m1, turns);
    let m2 = permute(&m1);
    let v3 = mix_round(v2, &m2, turns);
    let m3 = permute(&m2);
    let v4 = mix_round(v3, &m3, turns);
    let m4 = permute(&m3);
    let v5 = mix_round(v4, &m4, turns);
    let m5 = permute(&m4);
    let v6 = mix_round(v5, &m5, turns);
    let m6 = permute(&m5);
    mix_round(v6, &m6, turns)
}

// The lower word of a counter, and its upper one.
#[inline(always)]
fn low(counter: u64) -> u32
    ensures { result ≡ counter % 2 ^ 32 }
{
    (counter % (1 << 32)) as u32
}

#[inline(always)]
fn high(counter: u64) -> u32
    ensures { result ≡ counter / 2 ^ 32 }
{
    (counter >> 32) as u32
}

// The states before the rounds, where lane j has the counter `first` + j.
#[inline(always)]
fn first_states(value: &[u32x4; 8], first: u64, flags: u32) -> [u32x4; 16]
    requires { first + 3 < 2 ^ 64 }
    ensures { (j : ℕ) → j < 4 → sixteen_words j result ≡ first_state (eight_words j value.now) (first + j) 64 flags }
{
    [
        value[0],
        value[1],
        value[2],
        value[3],
        value[4],
        value[5],
        value[6],
        value[7],
        u32x4::splat(IV[0]),
        u32x4::splat(IV[1]),
        u32x4::splat(IV[2]),
        u32x4::splat(IV[3]),
        u32x4::from_array([low(first), low(first + 1), low(first + 2), low(first + 3)]),
        u32x4::from_array([
            high(first),
            high(first + 1),
            high(first + 2),
            high(first + 3),
        ]),
        u32x4::splat(BLOCK_LEN),
        u32x4::splat(flags),
    ]
}

#[inline(always)]
fn joined(v: [u32x4; 16]) -> [u32x4; 8]
    ensures { (j : ℕ) → j < 4 → eight_words j result ≡ halves_joined (sixteen_words j v) }
{
    [
        xor(v[0], v[8]),
        xor(v[1], v[9]),
        xor(v[2], v[10]),
        xor(v[3], v[11]),
        xor(v[4], v[12]),
        xor(v[5], v[13]),
        xor(v[6], v[14]),
        xor(v[7], v[15]),
    ]
}

/// The compression of whole blocks, where lane j has the counter `first` + j.
#[inline(always)]
pub(crate) fn compress_lanes(
    value: &[u32x4; 8],
    words: &[u32x4; 16],
    first: u64,
    flags: u32,
) -> [u32x4; 8]
    requires { first < 2 ^ 63 }
    ensures { (j : ℕ) → j < 4
        → eight_words j result ≡ compress (eight_words j value.now) (sixteen_words j words.now) (first + j) 64 flags }
{
    let turns = Turns::new(first);
    let states = first_states(value, first, flags);
    joined(seven_rounds(states, words, &turns))
}

// The states of parents before the rounds.
#[inline(always)]
fn parent_states() -> [u32x4; 16]
    ensures { (j : ℕ) → j < 4 → sixteen_words j result ≡ first_state iv 0 64 parent }
{
    [
        u32x4::splat(IV[0]),
        u32x4::splat(IV[1]),
        u32x4::splat(IV[2]),
        u32x4::splat(IV[3]),
        u32x4::splat(IV[4]),
        u32x4::splat(IV[5]),
        u32x4::splat(IV[6]),
        u32x4::splat(IV[7]),
        u32x4::splat(IV[0]),
        u32x4::splat(IV[1]),
        u32x4::splat(IV[2]),
        u32x4::splat(IV[3]),
        u32x4::splat(0),
        u32x4::splat(0),
        u32x4::splat(BLOCK_LEN),
        u32x4::splat(PARENT),
    ]
}

/// The compression of the messages of parents. `small` is any number whose top bit is 0.
#[inline(always)]
pub(crate) fn compress_parents(words: &[u32x4; 16], small: u64) -> [u32x4; 8]
    requires { small < 2 ^ 63 }
    ensures { (j : ℕ) → j < 4 → eight_words j result ≡ compress iv (sixteen_words j words.now) 0 64 parent }
{
    let turns = Turns::new(small);
    joined(seven_rounds(parent_states(), words, &turns))
}
