//! Where an event stands among those of all identifiers.

/// The text of a prefix, and a number. They are ordered by the texts, and then by the numbers.
#[derive(Clone, Copy, PartialEq, Eq, PartialOrd, Ord)]
pub(crate) struct Place {
    pub(crate) prefix: [u8; 44],
    pub(crate) sn: u64,
}
