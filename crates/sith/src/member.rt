//! What a list of weights is made of.
ghost use Rattle.std.specs.Prelude.{◌≡◌, ◌+◌, ◌≤◌, ℕ, List, Bool, ⊤};
ghost use Rattle.sith.specs.declared.weight.Weight.{Weight};
ghost use Rattle.sith.specs.Terms.{is_given};

use crate::signers::has_index;
use crate::weight::Weight;

/// A member of a list of weights that must reach a whole.
pub(crate) trait Member {
    ghost weight: { Self → Weight };

    ghost size: { Self → ℕ };

    ghost met: { Self → ℕ → List ℕ → Bool };

    // It is such as a reading lets pass.
    ghost read: { Self → Type 0 };

    fn weight(&self) -> Weight
        ensures { result ≡ weight self.now };

    /// How many indices it takes.
    fn size(&self) -> usize
        ensures { result ≡ size self.now };

    /// Whether these indices meet it, its first index being `start`.
    fn is_met(&self, start: usize, indices: &[u16]) -> bool
        requires read { read self.now }
        requires few { start + size self.now ≤ 65535 }
        ensures { result ≡ met self.now start indices.now };
}

impl Member for Weight {
    ghost weight = { λ w. w };

    ghost size = { λ w. 1 };

    ghost met = { is_given };

    ghost read = { λ w. ⊤ };

    fn weight(&self) -> Weight {
        *self
    }

    fn size(&self) -> usize {
        1
    }

    fn is_met(&self, start: usize, indices: &[u16]) -> bool {
        has_index(indices, start)
    }
}
