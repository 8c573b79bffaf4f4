//! Signatures: what a verifier is asked about.

use cesr_codes::{Key, Sig};

/// A key's signature on the body of a number.
#[derive(Clone, Copy, PartialEq, Eq, PartialOrd, Ord, Debug)]
pub struct Signature {
    pub body: u32,
    pub key: Key,
    pub sig: Sig,
}
