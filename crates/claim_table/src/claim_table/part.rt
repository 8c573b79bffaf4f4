//! What the yes verdicts of a body add up to, part by part.

/// A part: an index, a revealed commitment or a backer.
#[derive(Clone, Copy, PartialEq, Eq, PartialOrd, Ord)]
pub(crate) enum Part {
    Indexed(u16),
    Revealed(u16),
    Backed(u16),
}
