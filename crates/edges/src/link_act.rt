//! What a place at which peers come is asked.

/// What was asked of it.
#[derive(Clone, Copy, PartialEq, Eq, Debug)]
pub enum LinkAct {
    /// The next link was asked for.
    Asked,
    /// The peer of this number was told that nothing more goes out to it.
    Ended { peer: u64 },
}
