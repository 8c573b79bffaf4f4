//! What a list of accepted bodies shows: the live events of an identifier, and the sets of conflicting bodies.
mod conflicts;
mod live_events;
mod places;

pub use conflicts::conflict_sets;
pub use live_events::live;
