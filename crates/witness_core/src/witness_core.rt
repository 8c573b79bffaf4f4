//! A witness: it stores each event that its core accepts, with the signatures under which it was accepted, and gives receipts of
//! the events that are stored.
mod outcome;
mod start_fault;
mod take;
mod taken;
mod witness;

pub use crate::witness_receipts::{Fate, Receipt};
pub use crate::witness_store::WitnessFault;
pub use outcome::Outcome;
pub use start_fault::StartFault;
pub use witness::Witness;
