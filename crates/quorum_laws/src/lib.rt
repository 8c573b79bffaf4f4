//! Agreement between validators: when two witness lists and their numbers of receipts bind to one event.
#![tactic(auto)]

mod quorum;
mod unions;

pub use quorum::binds;
pub use unions::union_size;
