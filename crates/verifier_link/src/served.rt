//! How the serving of questions ended.

/// Why no more questions are answered.
#[derive(Clone, Copy, PartialEq, Eq, Debug)]
pub enum Served {
    /// The input ended, and no question was begun.
    End,
    /// The question at this place, in bytes from the start, isn't of the form or is cut short.
    Malformed(u64),
    /// The source failed.
    ReadFault,
    /// The sink failed.
    WriteFault,
    /// So many bytes were read as may be, and the source gave more.
    LimitReached,
    /// There was no memory. Nothing was read.
    OutOfMemory,
}
