//! What a signer is asked.

use cesr_codes::Key;
use lists::Items;

/// A signature that was asked for: that of a key on a body.
#[derive(Drop)]
pub struct Signing {
    /// The key.
    pub key: Key,
    /// The body.
    pub body: Items<u8>,
}
