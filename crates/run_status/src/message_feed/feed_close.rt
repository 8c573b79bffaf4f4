//! How the reading of a source ended.

use cesr_stream::Bad;

/// Why no more of a source is read.
#[derive(Clone, Copy, PartialEq, Eq, Debug)]
pub enum FeedClose<T> {
    /// The source has nothing left, and no item was begun.
    End,
    /// The stream is refused.
    Bad(Bad),
    /// The source failed.
    ReadFault,
    /// So many bytes were read as may be, and the source gave more.
    LimitReached,
    /// There was no memory.
    OutOfMemory,
    /// The taker of the messages stopped.
    Stopped(T),
}
