//! A witness: what it takes, stores and receipts, and its service.
#![tactic(auto)]

mod witness_core;
mod witness_link;
mod witness_opening;
mod witness_receipts;
mod witness_role;
mod witness_store;

pub use journal_views::body_part;
pub use witness_core::{Outcome, StartFault, Witness};
pub use witness_link::{
    Close, LeftView, LinkEnd, Service, ServiceView, Witnessing, asks_next, serve_link,
};
pub use witness_opening::{NotOpened, Opened, OpeningFault, OpeningView, log_line, open_shelf};
pub use witness_receipts::{Fate, Receipt, SigningFault, event_fate, receipts_of};
pub use witness_role::{WitnessWords, witness};
pub use witness_store::{
    Begun, Coming, Room, WitnessFault, ask_open, begin, breaks, count_signatures, lacks_room, store,
};
