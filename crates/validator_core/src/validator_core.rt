//! A validator's core: it judges messages, and says of what it was told what is accepted, asked, live and in conflict, and why
//! events wait.
mod accepted_events;
mod asked_verdicts;
mod base;
mod claims;
mod core_send;
mod judgement;
mod messages;
mod open_questions;
mod signatures;
mod taken_bodies;
mod tally;
mod validator;
mod views;
mod whole_entries;

pub use asked_verdicts::VerdictFault;
pub use claims::claims_of;
pub use core_send::core_is_send;
pub use judgement::judge_message;
pub use validator::Core;
