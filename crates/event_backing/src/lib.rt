//! What backs an event: the witnesses that signed receipts of it, and the event seals that other events hold.
#![tactic(auto)]

mod backers;
mod event_seal;
mod laws;
mod seal_search;
mod seal_texts;
mod spellings;
mod witness;

pub use backers::Backers;
pub use event_seal::EventSeal;
pub use laws::sealed_by_parts;
pub use seal_search::{holds_seal_of, seals};
