//! Claims.

use cesr_codes::{IndexedSig, Key, Sig};

/// A signature that came with a body.
#[derive(Clone, Copy, PartialEq, Eq, PartialOrd, Ord, Debug)]
pub enum Claim {
    /// By the signing key at an index.
    Controller(IndexedSig),
    /// By the witness at an index.
    Witness(IndexedSig),
    /// By a key that stands beside its signature.
    Couple(Key, Sig),
}
