//! What a good signature adds to the support of its event.

/// The index of a signature, and the place of the commitment that it opens alone.
#[derive(Clone, Copy, PartialEq, Eq, PartialOrd, Ord, Debug)]
pub(crate) struct Part {
    pub index: u16,
    pub reveal: Option<u16>,
}
