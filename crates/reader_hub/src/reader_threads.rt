//! Readers of one core in threads: each reads its own source with its own verifier, reader 0 on the main thread.
mod any_seats;
mod job;
mod last_round;
mod passes;
mod providers;
mod ran;
mod reader_seats;
mod started;

pub use any_seats::AnySeats;
pub use last_round::LastRound;
pub use providers::Providers;
pub use ran::Ran;
pub use reader_seats::ReaderSeats;
