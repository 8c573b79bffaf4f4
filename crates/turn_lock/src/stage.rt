//! How far a seat is with its turn.
use std::collections::LinkedList;

/// Where the turn and the value are, as the seat knows it. No value of it is made: it is for the proofs.
pub enum Stage<E> {
    /// The seat hasn't the turn.
    Idle,
    /// It has the turn, and the value is home.
    Turning,
    /// It has the turn and the value.
    Out,
    /// It has the turn, and the value is home again, with these entries appended.
    In(LinkedList<E>),
}
