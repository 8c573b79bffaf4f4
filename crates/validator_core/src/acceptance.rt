//! What is asked of the tables of a core: what an event stands on, whether it is ready to be accepted, why it waits, and whether it
//! counts as a rival of others. No call takes memory.
mod base_state;
mod conflict_part;
mod current;
mod entry_support;
mod footing;
mod ready;
mod row_support;
mod seals;
mod signed_entries;
mod there;
mod wait_reason;
mod wants;

pub use conflict_part::counts;
pub use footing::{Footing, footing_of};
pub use ready::is_ready;
pub use there::is_there;
pub use wait_reason::why_waits;
