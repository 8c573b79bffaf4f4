//! Event seals.

use cesr_codes::{Digest, Prefix};

/// An event seal: it names an event by its identifier, number and digest.
#[derive(Clone, Copy, PartialEq, Eq, Debug)]
pub struct EventSeal {
    pub prefix: Prefix,
    pub sn: u64,
    pub said: Digest,
}
