//! One link.

/// A link of a peer: what comes in, and what goes out.
#[derive(Drop)]
pub struct Caller<S, K> {
    /// What the peer sends.
    pub source: S,
    /// What the peer is sent.
    pub sink: K,
}
