//! Key states: what the events of an identifier say of its keys, and which event may come next.
#![tactic(auto)]

mod exposure;
mod first_state;
mod key_state;
mod laws;
mod misfits;
mod next_state;
mod state_fault;
mod witnesses;

pub use exposure::opens;
pub use first_state::first;
pub use key_state::KeyState;
pub use laws::spelled_is_kept;
pub use state_fault::{Misfit, StateFault};
pub use witnesses::{changed_count, has_key, is_key, left_count, list_behind};
