//! What changes the tables of a core: a body or a verdict comes by an entry, its claims are raised, and events are accepted until
//! none is ready.
mod behind;
mod body_entry;
mod log_end;
mod ready_events;
mod standing_claims;
mod verdict_entry;
mod wait_target;
mod woken;

pub use body_entry::{enter_body, enter_claims};
pub use log_end::accept;
pub use ready_events::accept_ready;
pub use verdict_entry::enter_verdict;
