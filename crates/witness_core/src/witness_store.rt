//! What a witness stores: the payload of each event that its core accepts, with the signatures under which it was accepted, and room
//! for the events that wait.
mod appends;
mod begun;
mod open_questions;
mod payload;
mod room;
mod witness_fault;

pub use appends::store;
pub use begun::{Begun, begin};
pub use open_questions::ask_open;
pub use room::{Coming, Room, count_signatures, lacks_room};
pub use witness_fault::{WitnessFault, breaks};
