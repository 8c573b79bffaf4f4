//! Rows of the programs of rows: a line that names a library call with its arguments.
mod row;
mod spelling;

pub use row::{Row, given};
pub use spelling::bytes_words;
