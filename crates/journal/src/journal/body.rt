//! Bodies with what they say.

use event_body::Event;
use json_tree::Text;

/// A body: its bytes, and the event that they spell.
#[derive(Drop, Debug)]
pub struct Body {
    pub bytes: Text,
    pub event: Event,
}
