//! Why a stream is refused.

use cesr_codes::CodeFault;

/// A rule of the framing that a stream fails.
#[derive(Clone, Copy, PartialEq, Eq, Debug)]
pub enum BadReason {
    /// Neither a body nor a group begins here.
    NoStart,
    /// A body doesn't begin with a version string, or says less than that string's own size.
    Version,
    /// A body says that it is larger than a body may be.
    TooLarge,
    /// A counter isn't one of those that are supported.
    GroupNotSupported,
    /// A character of a counter or a primitive isn't read.
    Code(CodeFault),
    /// The input ended within an item.
    Truncated,
    /// Something in a wrap runs past the wrap's end.
    WrapLength,
    /// A group stands before any body.
    GroupFirst,
}

/// The place of the rule that fails, in bytes from the start of the stream, and the rule.
#[derive(Clone, Copy, PartialEq, Eq, Debug)]
pub struct Bad {
    pub place: u64,
    pub reason: BadReason,
}
