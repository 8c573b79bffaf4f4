//! What says of signatures whether they are good.
ghost use Rattle.std.specs.Prelude.{◌≡◌, ◌≤◌, ◌∷◌, [], ℕ, Bool, List, length, Option, IfOk, IfSome};
ghost use Rattle.lists.specs.KeriSpecs.Causes.{HasCause};
ghost use Rattle.lists.specs.KeriSpecs.Shown.{Puts};
ghost use Rattle.cesr_codes.specs.declared.key.Key.{Key};
ghost use Rattle.cesr_codes.specs.declared.sig.Sig.{Sig};
ghost use Rattle.keri_outside.specs.Asked.{inquiry};
ghost use Rattle.keri_outside.specs.declared.inquiry.Inquiry.{Inquiry};

use crate::Failed;
use cesr_codes::{Key, Sig};

/// Gives verdicts: whether a signature is that of a key on a body.
pub trait Verifier {
    /// What it says of a key, a body and a signature, where that is shown. No call changes it.
    ghost says: { Self → Key → List ℕ → Sig → Option Bool };

    /// What it was asked, in order, where that is shown.
    ghost inquiries: { Self → Option (List Inquiry) };

    /// How often it has failed.
    ghost faults: { Self → ℕ };

    /// Asks for a verdict on a body of at most 65,535 bytes.
    fn ask(&mut self, key: &Key, body: &[u8], sig: &Sig) -> Result<bool, Failed>
        requires { length body.now ≤ 65535 }
        ensures verdict { IfOk result (λ yes. IfSome (says self.old key.now body.now sig.now) (λ told. yes ≡ told)) }
        ensures same { says self.new ≡ says self.old }
        ensures asked { Puts (inquiries self.old) (inquiries self.new) result (inquiry key.now body.now sig.now ∷ []) }
        ensures cause { HasCause (faults self.old) (faults self.new) result };
}
