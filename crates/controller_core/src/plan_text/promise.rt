//! Promises of next keys.

use cesr_codes::Digest;

/// What a line `next` promises: the digest of a next key, with the number of the line.
#[derive(Clone, Copy)]
pub(crate) struct Promise {
    pub(crate) line: u64,
    pub(crate) digest: Digest,
}
