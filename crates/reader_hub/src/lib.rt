//! Readers that share a core, each in a thread of its own.
#![tactic(auto)]

mod reader_hub;
mod reader_threads;
mod shared_reader;

pub use reader_hub::{
    Asked, CoreHead, Extent, Hub, HubFault, Pass, SharedCore, Telling, hub_is_shared, pass_is_sent,
};
pub use reader_threads::{AnySeats, LastRound, Providers, Ran, ReaderSeats};
pub use shared_reader::{ReadOne, Reader, read_one};
