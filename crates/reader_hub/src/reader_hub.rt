//! The hub: a core that several readers share, each with a pass that knows what it has seen and told.
mod asked;
mod core_head;
mod extent;
mod handed_out;
mod hub;
mod hub_fault;
mod send_laws;
mod shared_core;
mod telling;

pub use asked::Asked;
pub use core_head::CoreHead;
pub use extent::Extent;
pub use hub::Hub;
pub use hub_fault::HubFault;
pub use send_laws::{hub_is_shared, pass_is_sent};
pub use shared_core::SharedCore;
pub use telling::Telling;

/// The right of one reader to call a hub, and what it knows of what was told.
pub type Pass = turn_lock::Pass<SharedCore>;
