//! What a verifier is asked.

use cesr_codes::{Key, Sig};
use lists::Items;

/// A verdict that was asked for: whether a signature is that of a key on a body.
#[derive(Drop)]
pub struct Inquiry {
    /// The key.
    pub key: Key,
    /// The body.
    pub body: Items<u8>,
    /// The signature.
    pub sig: Sig,
}
