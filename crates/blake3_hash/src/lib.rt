//! BLAKE3, the 256-bit hash of any bytes: a tree of compressions over chunks of 1,024 bytes.
#![tactic(auto)]

mod chunk;
mod chunk_lanes;
mod compression;
mod flags;
mod hasher;
mod lanes;
mod parent;
mod parent_lanes;
mod stack;
mod turns;
mod words;

pub use chunk_lanes::lanes8;
pub use hasher::{Hasher, digest};
