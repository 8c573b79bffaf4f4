//! How the reading of a text ended.

/// Why no more of a source is read.
#[derive(Clone, Copy, PartialEq, Eq, Debug)]
pub enum TextClose {
    /// The source has nothing left.
    End,
    /// The source failed.
    ReadFault,
    /// So many bytes were read as may be, and the source gave more.
    LimitReached,
    /// There was no memory.
    OutOfMemory,
}
