//! Up to 64 places, without memory.
use arrayvec::ArrayVec;
use std::marker::Model;

/// Up to 64 numbers, in order.
#[derive(Drop)]
pub(crate) struct Places {
    places: ArrayVec<u16, 64>,
}

impl Model for Places {
    ghost use Rattle.std.specs.Prelude.{ℕ, List};

    ghost Value = { List ℕ };

    ghost view = { λ p. p.places.items };
}

impl Places {
    ghost use Rattle.std.specs.Prelude.{◌≡◌, ◌<◌, ◌++◌, ◌∷◌, [], cond, length};

    /// None.
    pub(crate) fn new() -> Places
        ensures { result ≡ [] }
    {
        Places {
            places: ArrayVec::new(),
        }
    }

    /// Adds a place, where it passes.
    pub(crate) fn push_if(&mut self, place: u16, passes: bool)
        requires { length self.old < 64 }
        ensures { self.new ≡ self.old ++ cond passes (place ∷ []) [] }
    {
        if passes {
            self.places.push(place);
        }
    }

    pub(crate) fn as_slice(&self) -> &[u16]
        ensures { result.now ≡ self.now }
    {
        self.places.as_slice()
    }
}
