//! Messages that were refused.

use crate::journal::Reason;

/// A message that was refused, by the place of its body in the stream.
#[derive(Clone, Copy, PartialEq, Eq, Debug)]
pub struct Refusal {
    pub place: u64,
    pub reason: Reason,
}
