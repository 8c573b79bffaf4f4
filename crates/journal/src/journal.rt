//! Journals: what a core was told, what it accepts of that, and what is still asked.
mod body;
mod claim;
mod conflict;
mod entry;
mod journal;
mod mode;
mod question;
mod refusal;
mod reply;
mod resume_fault;
mod why;

pub use body::Body;
pub use claim::Claim;
pub use conflict::Conflict;
pub use entry::Entry;
pub use journal::Journal;
pub use mode::Mode;
pub use question::{Noted, Question};
pub use refusal::Refusal;
pub use reply::{Reason, Reply};
pub use resume_fault::ResumeFault;
pub use why::Why;
