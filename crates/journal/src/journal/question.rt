//! Questions and what becomes of their verdicts.

use cesr_codes::{Key, Sig};

/// A signature to be verified, on the body of a number.
#[derive(Clone, Copy, PartialEq, Eq, Debug)]
pub struct Question {
    pub body: u32,
    pub key: Key,
    pub sig: Sig,
}

/// What becomes of a verdict.
#[derive(Clone, Copy, PartialEq, Eq, Debug)]
pub enum Noted {
    New,
    /// The question had a verdict.
    Known,
    /// Nothing in the journal raises the question.
    Unasked,
}
