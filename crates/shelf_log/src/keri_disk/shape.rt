//! Shapes of what a crash leaves.

/// What a crash leaves of the writes since the last sync.
#[derive(Clone, Copy, PartialEq, Eq, Debug)]
pub enum Shape {
    /// All of them are there.
    Whole,
    /// None is.
    Lost,
    /// Their ranges hold bytes 1.
    Ones,
}
