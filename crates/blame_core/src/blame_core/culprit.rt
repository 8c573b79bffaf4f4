//! A witness that signed twice.

use cesr_codes::{Key, Sig};

/// A witness of two events with a good signature on each.
#[derive(Clone, Copy, PartialEq, Eq, Debug)]
pub struct Culprit {
    pub key: Key,
    /// Its first signature on the first event, in order of coming.
    pub one: Sig,
    /// Its first signature on the second event.
    pub other: Sig,
}
