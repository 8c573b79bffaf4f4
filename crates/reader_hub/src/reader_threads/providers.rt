//! What a reader is given.

/// A source and the verifier that is asked of what it holds, as far as they could be made.
#[derive(Drop)]
pub struct Providers<S, V> {
    pub source: Option<S>,
    pub verifier: Option<V>,
}
