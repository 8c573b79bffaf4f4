//! The BLAKE3 digest of standard input, in hexadecimal and with a line feed.
#![tactic(auto)]

mod sum;

use std::io;

// The bytes that are read at a time.
const PIECE_LEN: usize = 262_144;

fn main(rt: HostRuntime) -> io::Result<()> {
    let mut piece = vec![in rt.alloc(); 0u8; PIECE_LEN]?;
    sum::write_sum(&mut rt.reader(), &mut io::writer(&rt), &mut piece)
}
