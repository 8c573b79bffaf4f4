//! Receipts.

use cesr_codes::{Digest, Prefix};

/// A receipt: which event it speaks of.
#[derive(Clone, Copy, PartialEq, Eq, Debug)]
pub struct ReceiptBody {
    pub said: Digest,
    pub prefix: Prefix,
    pub sn: u64,
}
