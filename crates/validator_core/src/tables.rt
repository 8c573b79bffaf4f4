//! The tables of a core: lists that only grow while a call runs, hints over them, and their rewinding.
mod accepted_log;
mod bodies;
mod claim_entries;
mod claims;
mod entries;
mod entry_claims;
mod in_range;
mod log;
mod mark;
mod name;
mod named_places;
mod raised_claims;
mod tables;

pub use accepted_log::{AcceptedLog, Place};
pub use entry_claims::claims_by;
pub use mark::Mark;
pub use name::{ClaimKey, Name, SealKey, name_of, prior_name};
pub use tables::Tables;
