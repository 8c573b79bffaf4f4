//! What a run hands back, what is seen of it, and that each fault that it answers has its cause.
mod done;
mod no_journal;
mod runs;

pub use done::{Done, NO_MEMORY};
pub use no_journal::nothing_told;
pub use runs::Runs;
