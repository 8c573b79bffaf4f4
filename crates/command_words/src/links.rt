//! Links as words.

/// Where links come: an address to listen at, and how many are taken (1 to 64).
#[derive(PartialEq, Eq, Debug, Drop)]
pub struct Links<'a> {
    /// Any word: whether one can listen there shows where the door is made.
    pub address: &'a str,
    pub count: u16,
}
