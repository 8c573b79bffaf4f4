//! Who signed twice: the witnesses with a good signature on each of two different establishment events of one
//! identifier and number, the first accepted by one validator's core and the second by another's.
mod blames;
mod culprit;
mod culprits;
mod establishments;
mod first_signatures;
mod lines;
mod named_entries;
mod place;
mod rivals;
mod signatures;
mod signed;

pub use blames::Blame;
pub use culprit::Culprit;
pub use lines::blame_lines;
pub use rivals::blame;
