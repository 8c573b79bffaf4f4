//! What becomes of a message.

use event_body::BodyFault;

/// Why a message is refused, whatever came before it.
#[derive(Clone, Copy, PartialEq, Eq, Debug)]
pub enum Reason {
    Body(BodyFault),
    /// An event without a signature of its controller.
    Unsigned,
    /// A receipt with a group of the controller's signatures.
    WrongGroup,
    /// A receipt without a signature.
    DigestOnly,
    TooManySigs,
}

/// What becomes of a message.
#[derive(Clone, Copy, PartialEq, Eq, Debug)]
pub enum Reply {
    Taken,
    /// Taken, but the body was held, and had each of the claims.
    Again,
    Refused(Reason),
    /// The journal has no room for it.
    LimitReached,
}
