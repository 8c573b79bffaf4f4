//! What serving a link hands back.

use cesr_codes::Digest;
use journal::Refusal;
use run_status::Close;

/// How the serving of a link ended.
#[derive(Drop)]
pub struct LinkEnd {
    /// The messages that were refused, in order.
    pub refused: Vec<Refusal>,
    /// The digests of the events that are stored in place of those that came, in order.
    pub seen: Vec<Digest>,
    pub close: Close,
}
