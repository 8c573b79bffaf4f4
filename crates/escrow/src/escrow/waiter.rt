//! Events that wait.

use cesr_codes::Digest;

/// An event that waits to be accepted, by the number of its body.
#[derive(Clone, Copy, PartialEq, Eq, Debug)]
pub struct Waiter {
    pub number: u32,
    /// The digest of the event before it, where there is one.
    pub prior: Option<Digest>,
    /// Its own digest.
    pub said: Digest,
}
