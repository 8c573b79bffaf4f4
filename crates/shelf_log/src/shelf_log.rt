//! A list of payloads on a disk, which a stop at any moment leaves as it was before a call or as it is after it.
mod behind;
mod durable;
mod fault;
mod leftover;
mod list_file;
mod migration;
mod old_shelf;
mod piece;
mod record;
mod returned;
mod scan;
mod shelf;
mod store;
mod version;

pub use fault::ShelfFault;
pub use leftover::is_leftover;
pub use old_shelf::OldShelf;
pub use returned::Returned;
pub use shelf::Shelf;
pub use version::Version;
