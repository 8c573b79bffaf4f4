//! The taking of links at a door.
mod taken;

pub use taken::{Taken, take_links};
