//! The commands that read files or links to a core, or to two: `validate`, `watch`, `export` and `blame`; and what a command's
//! work is.
mod blame;
mod core_text;
mod export;
mod last_round;
mod one_seat;
mod outcome;
mod over_core;
mod over_links;
mod providers;
mod report;
mod validate;
mod watch;
mod works;

pub use blame::{BlameWords, blame_files};
pub use export::export_files;
pub use last_round::{last_close_of, verifier_failed_last};
pub use one_seat::{OneSeat, ReadAlone};
pub use outcome::{LinkedOutcome, Outcome, RivalOutcome, SignedOutcome};
pub use over_core::FileWords;
pub use over_links::LinkWords;
pub(crate) use run_status::{Close, ReaderEnd};
pub use validate::{validate_files, validate_links};
pub use watch::{watch_files, watch_links};
pub use works::Works;
