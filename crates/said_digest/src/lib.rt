//! Self-addressing digests: of bytes, and of bytes that hold their own digest.
#![tactic(auto)]

mod coded_hasher;
mod digests;
mod placeholder;

pub use digests::{digest_of, holds, said_of};
