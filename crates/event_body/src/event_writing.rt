//! Writing bodies of key events, and sealing events with the digest of their own text.
mod body;
mod event_text;
mod in_range;
mod laws;
mod sealed_event;
mod values;

pub use body::write_body;
pub use event_text::{EventText, sealed_text};
pub use laws::writable;
pub use sealed_event::sealed;
