//! What a command reads.
use crate::links::Links;

/// What is read: what is named, or links.
#[derive(PartialEq, Eq, Debug, Drop)]
pub enum Inputs<'a, N> {
    Named(N),
    Links(Links<'a>),
}
