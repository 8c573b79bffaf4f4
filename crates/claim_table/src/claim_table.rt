//! The claims on bodies, with the verdicts that were heard on them, and what the yes verdicts of a body add up to.
mod body_counts;
mod body_index;
mod body_numbers;
mod claim_rows;
mod claim_table;
mod claimed;
mod part;
mod part_counts;
mod row;
mod signature;
mod spot;

pub use body_numbers::{BodyNumbers, FEW};
pub use claim_table::ClaimTable;
pub use claimed::{Claimed, Parts};
pub use row::Row;
pub use signature::Signature;
