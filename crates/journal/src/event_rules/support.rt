//! What supports an event.
ghost use Rattle.std.specs.Prelude.{◌≡◌, ◌≤◌, ℕ, Bool, filter, length};
ghost use Rattle.journal.specs.EventRules.Parts as parts;
ghost use Rattle.journal.specs.EventRules.Parts.{Part};
ghost use Rattle.key_state.specs.Exposure.{numbers_below};

/// The parts that the good signatures on an event add up to.
pub trait Support {
    /// Which parts there are.
    ghost has: { Self → Part → Bool };

    /// Whether a good signature of the controller has the index.
    fn has_index(&self, index: u16) -> bool
        ensures { result ≡ has self.now (parts.index index) };

    /// Whether a good signature of the controller opens the commitment at a place of the state before.
    fn reveals(&self, place: u16) -> bool
        ensures { result ≡ has self.now (parts.reveal place) };

    /// Whether the witness at a place of the event's own list has a good signature.
    fn backs(&self, place: u16) -> bool
        ensures { result ≡ has self.now (parts.backer place) };

    /// A number that the witnesses with a good signature are not more than, told without going over them.
    fn most_backers(&self) -> u64
        ensures most { (bound : ℕ) → length (filter (λ n. has self.now (parts.backer n)) (numbers_below bound))
            ≤ result };
}
