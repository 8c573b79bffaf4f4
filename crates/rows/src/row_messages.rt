//! Messages of rows.
mod message;

pub use message::message_of;
