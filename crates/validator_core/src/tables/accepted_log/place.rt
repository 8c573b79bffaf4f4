//! Where an accepted event stands.

/// What is kept of an accepted event beside the number of its body.
#[derive(Clone, Copy, PartialEq, Eq, Debug)]
pub struct Place {
    /// The place of the key state that the event made, or that it went onto.
    pub state: u32,
    /// How many entries the journal had when the event was accepted.
    pub entries: u32,
}
