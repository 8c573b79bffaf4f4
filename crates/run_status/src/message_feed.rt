//! What a source gives, handed on: its messages, one by one, to what takes them, or its text whole.
mod feed;
mod feed_close;
mod halt;
mod items;
mod source_text;
mod taker;
mod text_close;

pub use feed::feed_messages;
pub use feed_close::FeedClose;
pub use source_text::{SourceText, read_text};
pub use taker::Taker;
pub use text_close::TextClose;
