//! The end of a lock's turns.

/// All turns that the lock was made for were taken.
#[derive(Debug, Drop)]
pub struct Spent {
    /// The limit.
    pub turns: u64,
}
