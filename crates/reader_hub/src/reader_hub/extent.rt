//! Which of the open questions a reader asks.

/// Which of the open questions a reader asks.
#[derive(Clone, Copy, PartialEq, Eq, Debug)]
pub enum Extent {
    /// The first one, as long as one is open: for a reader that shares its core with no other.
    First,
    /// Those that no other reader is asking: for one of several readers, between its messages.
    Free,
    /// All, and first those that no other reader is asking: for one of several readers, behind its last message.
    All,
}
