//! How a run ends: how its readers closed, what is found of them and of writing, and the status.
mod besides;
mod close;
mod closes;
mod findings;
mod reader_end;
mod run_end;

pub use besides::Besides;
pub use close::Close;
pub use reader_end::ReaderEnd;
pub use run_end::{end_run, status_by};
