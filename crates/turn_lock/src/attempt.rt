//! One try for the turn.

/// What one try for the turn came to.
pub(crate) enum Attempt {
    /// The turn, after so many others.
    Turn(u64),
    /// Another pass has the turn, or took it first.
    Busy,
    /// All turns were taken.
    Spent,
}
