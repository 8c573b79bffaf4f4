//! What a seat at the lock knows.
use crate::stage::Stage;
use std::collections::LinkedList;

/// What one seat knows of the history. No value of it is made: it is for the proofs, where its lists are lists.
pub struct View<E, H> {
    pub stage: Stage<E>,
    /// The head of the value at `new`. A seat that was joined into another has none.
    pub head: Option<H>,
    pub number: u64,
    /// A beginning of the history.
    pub seen: LinkedList<E>,
    /// Another beginning, of a seat that was joined into this one.
    pub beside: LinkedList<E>,
    /// The shares of the history that the seat speaks for, each under its number.
    pub own: LinkedList<(u64, LinkedList<E>)>,
    /// So many turns, at least, were taken.
    pub past: u64,
    /// How often the first pass was split.
    pub splits: u64,
    /// How many turns this seat took, and those joined into it.
    pub turns: u64,
}
