//! A key's signature.

use cesr_codes::{Key, Sig};

/// A key's signature.
#[derive(Clone, Copy)]
pub(crate) struct Signed {
    pub(crate) key: Key,
    pub(crate) sig: Sig,
}
