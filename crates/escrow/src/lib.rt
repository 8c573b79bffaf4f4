//! The events that wait, by cause, and the hints by which rows are found.
#![tactic(auto)]

mod escrow;
mod event_index;

pub use escrow::{Room, Waiter, Waiting};
pub use event_index::{Index, Rising};
