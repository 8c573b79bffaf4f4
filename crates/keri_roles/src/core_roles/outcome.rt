//! What a command came to.

use crate::core_roles::ReaderEnd;
use journal::Journal;
use run_status::Besides;

/// The readers of a command, what was told, the text that it owes, unless there was no memory for that, and what it found
/// besides its readers' ends.
#[derive(Drop)]
pub struct Outcome<S, V> {
    pub readers: Vec<ReaderEnd<S, V>>,
    pub journal: Journal,
    pub owed: Option<Vec<u8>>,
    pub besides: Besides,
}

/// An outcome, and the signer, where the command made one.
#[derive(Drop)]
pub struct SignedOutcome<S, V, G> {
    pub outcome: Outcome<S, V>,
    pub signer: Option<G>,
}

/// An outcome of two cores, with the journal of the second.
#[derive(Drop)]
pub struct RivalOutcome<S, V> {
    pub outcome: Outcome<S, V>,
    pub second: Journal,
}

/// An outcome of readers of links, the door, where it was made, and the links' sinks, in order.
#[derive(Drop)]
pub struct LinkedOutcome<S, V, D, K> {
    pub outcome: Outcome<S, V>,
    pub door: Option<D>,
    pub sinks: Vec<K>,
}
