//! Signatures in slots.
ghost use Rattle.std.specs.Prelude.{◌≡◌, ◌≤◌, ◌⊎◌, true, length, IfOk, IfErr};
ghost use Rattle.std.specs.List.{AllZip, list_all};
ghost use Rattle.cesr_codes.specs.Indices.{has_form};
ghost use Rattle.controller_core.specs.declared.controller_core.plan_fault.PlanFault.TheVariants.{OutOfMemory, SignerFault};
ghost use Rattle.lists.specs.KeriSpecs.Causes.{HasCause};
ghost use Rattle.lists.specs.KeriSpecs.Shown.{Puts};
ghost use Rattle.controller_core.specs.ControllerCore.Messages.{IsInSlot};
ghost use Rattle.controller_core.specs.ControllerCore.Refusals.{CountsSignerFaults};
ghost use Rattle.controller_core.specs.ControllerCore.Signings.{signing_at, signings_in};
ghost use Rattle.controller_core.specs.ControllerCore.Slots as specs;

use crate::controller_core::{PlanFault, Slot};
use cesr_codes::{IndexedSig, Key, Sig};
use keri_outside::{Failed, Signer};
use lists::Items;
use std::alloc::Global;

/// The signatures on a body in the slots, in order, by the keys at their indices.
pub(crate) fn signatures<S: Signer>(
    alloc: Global,
    keys: &[Key],
    body: &[u8],
    slots: &[Slot],
    signer: &mut S,
) -> Result<Items<IndexedSig>, PlanFault>
    requires body { length body.now ≤ 65535 }
    requires slots { list_all (specs.is_in_range (length keys.now)) slots.now ≡ true }
    ensures sigs { IfOk result (AllZip (IsInSlot (S.gives signer.old) keys.now body.now) slots.now) }
    ensures gives { S.gives signer.new ≡ S.gives signer.old }
    ensures asked { Puts (S.signings signer.old) (S.signings signer.new) result
        (signings_in keys.now body.now slots.now) }
    ensures count { CountsSignerFaults (S.faults signer.old) (S.faults signer.new) result }
    ensures only { IfErr result (λ fault. (fault ≡ SignerFault) ⊎ (fault ≡ OutOfMemory)) }
{
    let mut sigs = Items::new(alloc);
    for slot in slots {
        let sig = signature(keys, body, slot, signer)?;
        sigs.push(sig)?;
    }
    Ok(sigs)
}

// The signature on a body in the slot.
fn signature<S: Signer>(
    keys: &[Key],
    body: &[u8],
    slot: &Slot,
    signer: &mut S,
) -> Result<IndexedSig, Failed>
    requires body { length body.now ≤ 65535 }
    requires slot { specs.is_in_range (length keys.now) slot.now ≡ true }
    ensures sig { IfOk result (IsInSlot (S.gives signer.old) keys.now body.now slot.now) }
    ensures gives { S.gives signer.new ≡ S.gives signer.old }
    ensures asked { Puts (S.signings signer.old) (S.signings signer.new) result (signing_at keys.now body.now slot.now) }
    ensures cause { HasCause (S.faults signer.old) (S.faults signer.new) result }
{
    let sig = signer.sign(&keys[usize::from(slot.index)], body)?;
    Ok(in_slot(slot, sig))
}

// The signature with the places of the slot, written small where that is of the form.
fn in_slot(slot: &Slot, sig: Sig) -> IndexedSig
    requires { has_form true slot.now.index slot.now.ondex ≡ true }
    ensures index { result.index ≡ slot.now.index }
    ensures ondex { result.ondex ≡ slot.now.ondex }
    ensures big { result.big ≡ specs.is_big slot.now }
    ensures sig { result.sig ≡ sig }
{
    let Some(indexed) = IndexedSig::new(slot.is_big(), slot.index, slot.ondex, sig) else {
        unreachable!()
    };
    indexed
}
