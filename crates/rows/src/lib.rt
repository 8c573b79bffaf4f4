//! What the programs of rows share.
#![tactic(auto)]

mod row_messages;
mod row_text;

pub use row_messages::message_of;
pub use row_text::{Row, bytes_words, given};
