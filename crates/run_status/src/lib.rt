//! All that a run reaches, how its sources are read, and how it ends.
#![tactic(auto)]

mod door_links;
mod message_feed;
mod run_outside;
mod run_record;
mod run_status;

pub use door_links::{Taken, take_links};
pub use message_feed::{FeedClose, SourceText, Taker, TextClose, feed_messages, read_text};
pub use run_outside::{
    Making, MakingKind, MemAddress, MemDiskFile, MemFile, MemHelper, MemOutside, MemPeer, Outside,
};
pub use run_record::{Done, NO_MEMORY, Runs, nothing_told};
pub use run_status::{Besides, Close, ReaderEnd, end_run, status_by};
