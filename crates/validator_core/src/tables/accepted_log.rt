//! The accepted events in order, and the key states that they make: one for each accepted establishment event.
mod accepted_log;
mod hints;
mod place;
mod states;

pub use accepted_log::AcceptedLog;
pub use place::Place;
