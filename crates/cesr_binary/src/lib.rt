//! CESR streams whose groups and wraps stand in the text or in the binary domain.
#![tactic(auto)]

mod as_binary;
mod domain;
mod either_reader;
mod mixed_reader;
mod write;

pub use domain::Domain;
pub use mixed_reader::MixedReader;
pub use write::{write_binary, write_in};
