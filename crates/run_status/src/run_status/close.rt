//! How reading ends.

use cesr_stream::Bad;

/// How the reading of one source ended.
#[derive(Clone, Copy, PartialEq, Eq, Debug)]
pub enum Close {
    /// It was read to its end.
    End,
    /// The stream is refused.
    Bad(Bad),
    /// The source failed, or couldn't be made.
    ReadFault,
    /// The verifier failed, or couldn't be made.
    VerifierFault,
    /// The signer failed, or couldn't be made.
    SignerFault,
    /// The disk failed.
    DiskFault,
    /// The sink failed, to which the command writes as it reads.
    WriteFault,
    /// What stands at this place, in bytes from the start, isn't of the form or is cut short.
    Malformed(u64),
    /// As much was read or taken as may be, and there was more.
    LimitReached,
    /// There was no memory.
    OutOfMemory,
}
