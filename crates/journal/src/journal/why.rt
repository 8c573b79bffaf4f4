//! Why an event waits.

/// Why an event isn't accepted.
#[derive(Clone, Copy, PartialEq, Eq, Debug)]
pub enum Why {
    /// The event before it isn't accepted.
    Predecessor,
    /// The signing threshold isn't met.
    Signatures,
    /// The threshold over the commitments before it isn't met.
    Next,
    /// The witnesses' receipts are too few.
    Receipts,
    /// Its delegator hasn't sealed it.
    Seal,
    /// By what is accepted it can't be.
    Never,
}
