//! How much was looked at.
ghost use Rattle.std.specs.Prelude.{◌≡◌, ℕ, ◌+◌, ◌-◌, ◌^◌, min};

use std::marker::Model;

/// A count of steps.
#[derive(Drop)]
pub struct Steps {
    taken: u64,
}

impl Model for Steps {
    ghost Value = { ℕ };

    ghost view = { λ steps. steps.taken };
}

impl Steps {
    /// No step.
    pub fn new() -> Steps
        ensures { result ≡ 0 }
    {
        Steps { taken: 0 }
    }

    /// How many steps were counted.
    pub fn count(&self) -> u64
        ensures { result ≡ self.now }
    {
        self.taken
    }

    /// Counts one step more, but none past the greatest number.
    pub fn tick(&mut self)
        ensures { self.new ≡ min (self.old + 1) (2 ^ 64 - 1) }
    {
        self.taken = self.taken.saturating_add(1);
    }
}
