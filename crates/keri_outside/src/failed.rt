//! The one fault of the outside.

/// An object of the outside failed. Its count of faults rose.
#[derive(Clone, Copy, PartialEq, Eq, Debug)]
pub struct Failed;
