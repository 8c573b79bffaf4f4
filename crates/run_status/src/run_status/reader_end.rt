//! What a run hands back of a reader.
ghost use Rattle.std.specs.Prelude.{◌≡◌};

use crate::run_status::Close;
use cesr_codes::Digest;
use journal::Refusal;
use lists::Items;

/// One reader, with what it used. It has no source and no verifier where these couldn't be made, or weren't asked for.
#[derive(Drop)]
pub struct ReaderEnd<S, V> {
    pub source: Option<S>,
    pub verifier: Option<V>,
    /// The messages that it refused, in order.
    pub refused: Vec<Refusal>,
    /// The digests of the events that it didn't store since another is stored at their place, in order.
    pub seen: Items<Digest>,
    pub close: Close,
}

impl<S, V> ReaderEnd<S, V> {
    ghost use Rattle.run_status.specs.RunStatus.RunEnds.{refuses, saw_another};

    /// Whether it refused its stream or a message.
    pub fn is_refused(&self) -> bool
        ensures { result ≡ refuses self.now.close self.now.refused.items }
    {
        matches!(self.close, Close::Bad(_)) || !self.refused.is_empty()
    }

    /// Whether an event came to it for a place at which another one is stored.
    pub fn saw_another(&self) -> bool
        ensures { result ≡ saw_another self.now.seen }
    {
        !self.seen.as_slice().is_empty()
    }
}
