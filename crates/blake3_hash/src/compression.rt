//! The compression function (BLAKE3 specification, section 2.2).
ghost use Rattle.std.specs.Prelude.{◌≡◌, ◌<◌};
ghost use Rattle.blake3_hash.specs.Compression.{columns, compress, diagonals, first_state, g, mixed, permuted, round, rounds};

/// The first chaining value of each chunk and of each parent.
pub(crate) const IV: [u32; 8] = [
    0x6a09_e667,
    0xbb67_ae85,
    0x3c6e_f372,
    0xa54f_f53a,
    0x510e_527f,
    0x9b05_688c,
    0x1f83_d9ab,
    0x5be0_cd19,
];

// G on four words of the state, with two words of the message.
#[inline(always)]
#[tactic(auto, unfolding(crate::specs::Compression::mixed))]
fn mix(a: u32, b: u32, c: u32, d: u32, x: u32, y: u32) -> [u32; 4]
    ensures { result ≡ mixed a b c d x y }
{
    let a = a.wrapping_add(b).wrapping_add(x);
    let d = (d ^ a).rotate_right(16);
    let c = c.wrapping_add(d);
    let b = (b ^ c).rotate_right(12);
    let a = a.wrapping_add(b).wrapping_add(y);
    let d = (d ^ a).rotate_right(8);
    let c = c.wrapping_add(d);
    let b = (b ^ c).rotate_right(7);
    [a, b, c, d]
}

// G at four places of the state, which are a column or a diagonal.
#[inline(always)]
#[tactic(auto, unfolding(crate::specs::Compression::g))]
fn g(state: &mut [u32; 16], a: usize, b: usize, c: usize, d: usize, x: u32, y: u32)
    requires a { a < 16 }
    requires b { b < 16 }
    requires c { c < 16 }
    requires d { d < 16 }
    ensures { state.new ≡ g state.old a b c d x y }
{
    let mixed = mix(state[a], state[b], state[c], state[d], x, y);
    state[a] = mixed[0];
    state[b] = mixed[1];
    state[c] = mixed[2];
    state[d] = mixed[3];
}

#[inline(always)]
#[tactic(auto, unfolding(crate::specs::Compression::columns))]
fn mix_columns(state: &mut [u32; 16], m: &[u32; 16])
    ensures { state.new ≡ columns state.old m.now }
{
    g(state, 0, 4, 8, 12, m[0], m[1]);
    g(state, 1, 5, 9, 13, m[2], m[3]);
    g(state, 2, 6, 10, 14, m[4], m[5]);
    g(state, 3, 7, 11, 15, m[6], m[7]);
}

#[inline(always)]
#[tactic(auto, unfolding(crate::specs::Compression::diagonals))]
fn mix_diagonals(state: &mut [u32; 16], m: &[u32; 16])
    ensures { state.new ≡ diagonals state.old m.now }
{
    g(state, 0, 5, 10, 15, m[8], m[9]);
    g(state, 1, 6, 11, 12, m[10], m[11]);
    g(state, 2, 7, 8, 13, m[12], m[13]);
    g(state, 3, 4, 9, 14, m[14], m[15]);
}

#[inline(always)]
fn round(state: &mut [u32; 16], m: &[u32; 16])
    ensures { state.new ≡ round state.old m.now }
{
    mix_columns(state, m);
    mix_diagonals(state, m);
}

// The message words of the next round.
#[inline(always)]
#[tactic(auto, unfolding(crate::specs::Compression::permuted))]
fn permute(m: &[u32; 16]) -> [u32; 16]
    ensures { result ≡ permuted m.now }
{
    [
        m[2], m[6], m[3], m[10], m[7], m[0], m[4], m[13], m[1], m[11], m[12], m[5], m[9], m[14],
        m[15], m[8],
    ]
}

// The seven rounds.
#[inline(always)]
#[tactic(auto, unfolding(crate::specs::Compression::rounds))]
fn seven_rounds(state: &mut [u32; 16], m: &[u32; 16])
    ensures { state.new ≡ rounds 7 state.old m.now }
{
    round(state, m);
    let m = permute(m);
    round(state, &m);
    let m = permute(&m);
    round(state, &m);
    let m = permute(&m);
    round(state, &m);
    let m = permute(&m);
    round(state, &m);
    let m = permute(&m);
    round(state, &m);
    let m = permute(&m);
    round(state, &m);
}

#[inline(always)]
fn first_state(chaining_value: &[u32; 8], counter: u64, block_len: u32, flags: u32) -> [u32; 16]
    ensures { result ≡ first_state chaining_value.now counter block_len flags }
{
    [
        chaining_value[0],
        chaining_value[1],
        chaining_value[2],
        chaining_value[3],
        chaining_value[4],
        chaining_value[5],
        chaining_value[6],
        chaining_value[7],
        IV[0],
        IV[1],
        IV[2],
        IV[3],
        (counter % (1 << 32)) as u32,
        (counter >> 32) as u32,
        block_len,
        flags,
    ]
}

/// The compression of a chaining value and the words of a block, cut to 8 words.
#[tactic(auto, unfolding(crate::specs::Compression::compress))]
pub(crate) fn compress(
    chaining_value: &[u32; 8],
    block_words: &[u32; 16],
    counter: u64,
    block_len: u32,
    flags: u32,
) -> [u32; 8]
    ensures { result ≡ compress chaining_value.now block_words.now counter block_len flags }
{
    let mut state = first_state(chaining_value, counter, block_len, flags);
    seven_rounds(&mut state, block_words);
    [
        state[0] ^ state[8],
        state[1] ^ state[9],
        state[2] ^ state[10],
        state[3] ^ state[11],
        state[4] ^ state[12],
        state[5] ^ state[13],
        state[6] ^ state[14],
        state[7] ^ state[15],
    ]
}
