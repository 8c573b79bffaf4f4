//! The event of a delegator that anchors another.

use cesr_codes::{Digest, Number};

/// The sequence number and the digest of the event that holds the seal.
#[derive(Clone, Copy, PartialEq, Eq, Hash, Debug)]
pub struct AnchorCouple {
    pub number: Number,
    pub digest: Digest,
}
