//! What a witness keeps of an accepted event: its body, and behind it the signatures under which it was accepted.
mod front;
mod kept;
mod part;
mod payload_text;
mod stream_text;

pub use front::{body_part, text_in};
pub use kept::Kept;
pub use payload_text::payload;
pub use stream_text::StreamText;
