//! What a helper is asked for.

use cesr_codes::{Key, Sig};

/// What is wanted of a helper about a body.
#[derive(Clone, Copy, PartialEq, Eq, Debug)]
pub enum Wanted {
    /// Whether the signature is that of the key.
    Verdict(Key, Sig),
    /// The signature of the key.
    Signature(Key),
}
