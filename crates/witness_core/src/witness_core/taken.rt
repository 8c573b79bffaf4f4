//! What becomes of a message in the core.

use journal::Reason;

/// What became of a message in the core.
#[derive(Clone, Copy, PartialEq, Eq, Debug)]
pub(crate) enum Taken {
    /// It was refused: the core wasn't told of it.
    Refused(Reason),
    /// It is a receipt, of which the core wasn't told.
    NotAnEvent,
    /// The number of its body.
    Event(u32),
}
