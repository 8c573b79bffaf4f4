//! What a reader answers.

use crate::{Bad, Item};

/// The next item with its place, that none is whole yet, or why there will be none.
#[derive(Drop, PartialEq, Eq, Debug)]
pub enum Step {
    Item(Item, u64),
    NeedMore,
    Bad(Bad),
}
