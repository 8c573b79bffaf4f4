//! What the helpers of an outside in memory say.
ghost use Rattle.std.specs.Prelude.{◌≡◌, [], Some, IfSome};
ghost use Rattle.std.specs.Option.{option_map};
ghost use Rattle.run_status.specs.RunOutside.Helpers.{helper_named, says_under, gives_under};
ghost use Rattle.keri_outside.specs.Memory.{verifier_says, verifier_faults, verifier_inquiries, signer_gives, signer_faults, signer_signings};

use crate::run_outside::MemHelper;
use keri_outside::{MemSigner, MemVerifier};
use lists::CopyValue;
use std::alloc::Global;

// The first helper of a name.
fn find<'a>(helpers: &'a [MemHelper], name: &str) -> Option<&'a MemHelper>
    ensures { option_map (λ helper. helper.now) result ≡ helper_named helpers.now name.now }
{
    helpers
        .iter()
        .find(|helper| helper.name.as_slice() == name.as_bytes())
}

// A verifier of the name, where there is a helper and memory.
pub(crate) fn verifier_of(alloc: Global, helpers: &[MemHelper], name: &str) -> Option<MemVerifier>
    ensures says { IfSome result (λ verifier. verifier_says verifier ≡ says_under helpers.now name.now) }
    ensures inquiries { IfSome result (λ verifier. verifier_inquiries verifier ≡ Some []) }
    ensures faults { IfSome result (λ verifier. verifier_faults verifier ≡ 0) }
{
    let Some(helper) = find(helpers, name) else {
        return None;
    };
    let Ok(failing) = helper.failing_asks.copy(alloc) else {
        return None;
    };
    Some(MemVerifier::new(alloc, helper.rule, failing))
}

// A signer of the name, where there is a helper and memory.
pub(crate) fn signer_of(alloc: Global, helpers: &[MemHelper], name: &str) -> Option<MemSigner>
    ensures gives { IfSome result (λ signer. signer_gives signer ≡ gives_under helpers.now name.now) }
    ensures signings { IfSome result (λ signer. signer_signings signer ≡ Some []) }
    ensures faults { IfSome result (λ signer. signer_faults signer ≡ 0) }
{
    let Some(helper) = find(helpers, name) else {
        return None;
    };
    let Ok(failing) = helper.failing_signings.copy(alloc) else {
        return None;
    };
    Some(MemSigner::new(alloc, failing))
}
