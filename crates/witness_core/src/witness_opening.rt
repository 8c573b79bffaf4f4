//! The shelf of a witness is opened: it is made where its file is new, filled with the list of an old one where that is named, and
//! read back where there is one.
mod fault;
mod file_kind;
mod lines;
mod old_list;
mod opened;
mod opening;
mod ways;

pub use fault::OpeningFault;
pub use lines::log_line;
pub(crate) use opened::OpeningOf;
pub use opened::{NotOpened, Opened, OpeningView};
pub use opening::open_shelf;
