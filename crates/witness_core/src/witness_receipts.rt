//! What becomes of an event at a witness, and receipts of the events that are stored: both are read off its core.
mod fate;
mod receipt;
mod receipts;

pub use fate::{Fate, event_fate};
pub use receipt::{Receipt, SigningFault};
pub use receipts::receipts_of;
