//! Why evidence isn't written.

use thiserror::Error;

/// Why evidence isn't written, or not all of it.
#[derive(Clone, Copy, PartialEq, Eq, Debug, Error)]
pub enum EvidenceFault {
    /// The sink failed: a front of the evidence is written.
    #[error("the sink failed")]
    WriteFault,
    /// There was no memory: nothing is written.
    #[error("no memory")]
    OutOfMemory,
}
