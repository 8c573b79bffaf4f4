//! What can be read off a journal: live events, conflicts, what is kept of an event; and its laws.
#![tactic(auto)]

mod event_payload;
mod journal_views;

pub use event_payload::{Kept, StreamText, body_part, payload, text_in};
pub use journal_views::{conflict_sets, live};
