//! Escrow: events that wait to be accepted, by the numbers of their bodies.
mod digest_numbers;
mod room;
mod waiter;
mod waiting;

pub use room::Room;
pub use waiter::Waiter;
pub use waiting::Waiting;
