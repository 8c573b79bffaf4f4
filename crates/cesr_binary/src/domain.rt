//! The two domains.

/// How groups and wraps are spelled. Bodies are the same in both.
#[derive(Clone, Copy, PartialEq, Eq, Debug)]
pub enum Domain {
    /// As bytes: four characters are three of them.
    Binary,
    /// As characters.
    Text,
}
