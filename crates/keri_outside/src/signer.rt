//! What gives signatures.
ghost use Rattle.std.specs.Prelude.{◌≡◌, ◌≤◌, ◌∷◌, [], ℕ, List, length, Option, IfOk, IfSome};
ghost use Rattle.lists.specs.KeriSpecs.Causes.{HasCause};
ghost use Rattle.lists.specs.KeriSpecs.Shown.{Puts};
ghost use Rattle.cesr_codes.specs.declared.key.Key.{Key};
ghost use Rattle.cesr_codes.specs.declared.sig.Sig.{Sig};
ghost use Rattle.keri_outside.specs.Asked.{signing};
ghost use Rattle.keri_outside.specs.declared.signing.Signing.{Signing};

use crate::Failed;
use cesr_codes::{Key, Sig};

/// Gives signatures of keys on bodies.
pub trait Signer {
    /// The signature that it gives of a key on a body, where that is shown. No call changes it.
    ghost gives: { Self → Key → List ℕ → Option Sig };

    /// What it was asked to sign, in order, where that is shown.
    ghost signings: { Self → Option (List Signing) };

    /// How often it has failed.
    ghost faults: { Self → ℕ };

    /// Gives the signature of a key on a body of at most 65,535 bytes.
    fn sign(&mut self, key: &Key, body: &[u8]) -> Result<Sig, Failed>
        requires { length body.now ≤ 65535 }
        ensures signature { IfOk result (λ sig. IfSome (gives self.old key.now body.now) (λ told. sig ≡ told)) }
        ensures same { gives self.new ≡ gives self.old }
        ensures asked { Puts (signings self.old) (signings self.new) result (signing key.now body.now ∷ []) }
        ensures cause { HasCause (faults self.old) (faults self.new) result };
}
