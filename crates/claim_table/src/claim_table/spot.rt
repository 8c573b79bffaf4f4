//! Places of rows, by body.

/// A row of a body, by its place in the table.
#[derive(Clone, Copy, PartialEq, Eq, PartialOrd, Ord)]
pub(crate) struct Spot {
    pub(crate) body: u32,
    pub(crate) row: usize,
}
