//! How far the elements of a group were read.

/// So many elements are left, from a place behind the counter on.
#[derive(Clone, Copy, PartialEq, Eq, Debug)]
pub(crate) struct Progress {
    pub left: usize,
    pub place: usize,
}
