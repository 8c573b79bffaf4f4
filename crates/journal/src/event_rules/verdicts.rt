//! What verifiers said of the signatures on an event.
ghost use Rattle.std.specs.Prelude.{◌≡◌, Bool};
ghost use Rattle.cesr_codes.specs.declared.key.Key.{Key};
ghost use Rattle.cesr_codes.specs.declared.sig.Sig.{Sig};

use cesr_codes::{Key, Sig};

/// What verifiers said of the signatures on an event.
pub trait Verdicts {
    /// Whether a verifier said yes of a key's signature.
    ghost says: { Self → Key → Sig → Bool };

    /// Whether a verifier said yes of some signature of a key.
    ghost backs: { Self → Key → Bool };

    /// Whether a verifier said yes of the key's signature.
    fn says_yes(&self, key: &Key, sig: &Sig) -> bool
        ensures { result ≡ says self.now key.now sig.now };

    /// Whether a verifier said yes of some signature of the key.
    fn is_backed_by(&self, key: &Key) -> bool
        ensures { result ≡ backs self.now key.now };
}
