//! Witnesses of a list.

use cesr_codes::Key;

/// A witness, and whether it was added.
#[derive(Clone, Copy)]
pub(crate) struct Witness {
    pub(crate) key: Key,
    pub(crate) added: bool,
}
