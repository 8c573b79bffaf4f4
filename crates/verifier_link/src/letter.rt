//! Letters at the front of questions.

/// Which question it is.
#[derive(Clone, Copy)]
pub(crate) enum Letter {
    /// `V`, a question for a verdict.
    Verdict,
    /// `S`, a question for a signature.
    Signing,
}
