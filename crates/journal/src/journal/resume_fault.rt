//! Why nothing is resumed.

/// Why a core doesn't begin with a list of bodies.
#[derive(Clone, Copy, PartialEq, Eq, Debug)]
pub enum ResumeFault {
    /// The number of the first body that isn't an event, comes again, or doesn't follow those before it.
    NotALog(u32),
    OutOfMemory,
}
