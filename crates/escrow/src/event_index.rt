//! Hints: for a key the numbers of rows, among which the right ones are. Whoever reads a hint compares the rows.
mod index;
mod rising;

pub use index::Index;
pub use rising::Rising;
