//! How much was taken.
ghost use Rattle.std.specs.Prelude.{◌≡◌, ◌+◌, ◌<◌, ◌^◌, ◌||◌};
ghost use Rattle.validator_core.specs.ValidatorCore.Tally as tallies;

use keri_outside::Limits;

/// How many messages, bytes of distinct bodies and claims were taken.
#[derive(Clone, Copy, PartialEq, Eq, Debug)]
pub(crate) struct Tally {
    pub(crate) messages: u64,
    pub(crate) body_bytes: u64,
    pub(crate) signatures: u64,
}

impl Tally {
    /// Whether there is no room for one message more with so many claims.
    pub(crate) fn is_spent(self, limits: Limits, claims: usize) -> bool
        ensures { result ≡ tallies.is_spent limits self claims }
    {
        self.messages >= u64::from(limits.messages)
            || u128::from(self.signatures) + claims as u128 > u128::from(limits.signatures)
    }

    /// Whether there is no room for one message more, with so many bytes of a new body and so many claims.
    pub(crate) fn lacks_room(self, limits: Limits, bytes: usize, claims: usize) -> bool
        ensures { result ≡ (tallies.is_spent limits self claims || tallies.is_crowded limits self bytes) }
    {
        self.is_spent(limits, claims)
            || u128::from(self.body_bytes) + bytes as u128 > u128::from(limits.body_bytes)
    }

    /// With one message more, with so many bytes of a new body and so many claims.
    pub(crate) fn with(self, bytes: usize, claims: usize) -> Tally
        requires messages { self.messages + 1 < 2 ^ 64 }
        requires body_bytes { self.body_bytes + bytes < 2 ^ 64 }
        requires signatures { self.signatures + claims < 2 ^ 64 }
        ensures { result ≡ tallies.tally_with self bytes claims }
    {
        Tally {
            messages: self.messages + 1,
            body_bytes: self.body_bytes + bytes as u64,
            signatures: self.signatures + claims as u64,
        }
    }
}
