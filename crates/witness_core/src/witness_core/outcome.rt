//! What becomes of a message, and the receipts that are due once it is taken.
ghost use Rattle.std.specs.Prelude.{◌≡◌, ◌<◌, ◌≤◌, false, length, take, slice_get, Some, IfErr, IfOk, OnOk};
ghost use Rattle.cesr_codes.specs.declared.key.KeyCode.TheVariants.{Fixed};
ghost use Rattle.event_body.specs.EventBody.Events as events;
ghost use Rattle.journal.specs.Journal.Grown.{IsGrown};
ghost use Rattle.journal.specs.declared.journal.body.Body.{Body};
ghost use Rattle.lists.specs.KeriSpecs.Shown.{Puts};
ghost use Rattle.validator_core.specs.ValidatorCore.View.{accepted_by, base_of};
ghost use Rattle.witness_core.specs.WitnessReceipts.Receipts.{due, signings_of};
ghost use Rattle.witness_core.specs.WitnessCore.Faults.{SignFault};
ghost use Rattle.witness_core.specs.WitnessCore.Outcomes.{IsOutcomeOf};

use crate::witness_core::WitnessFault;
use crate::witness_receipts::{Fate, Receipt, SigningFault, event_fate, receipts_of};
use cesr_codes::Key;
use keri_outside::Signer;
use std::alloc::Global;
use validator_core::Core;

/// The fate of a message, and the receipts that are due once it is taken.
#[derive(Drop)]
pub struct Outcome {
    pub fate: Fate,
    pub receipts: Vec<Receipt>,
}

/// The outcome of a message whose body has the number, where the first `front` of the accepted events were stored before.
pub(crate) fn event_outcome<S: Signer>(
    alloc: Global,
    core: &Core,
    key: &Key,
    front: usize,
    number: u32,
    signer: &mut S,
) -> Result<Outcome, WitnessFault>
    requires witness { key.now.code ≡ Fixed }
    requires grown { IsGrown (base_of core.now) }
    requires front { front ≤ length (accepted_by core.now) }
    requires held { number < length core.now.held }
    requires event { (b : Body) → slice_get core.now.held number ≡ Some b → events.is_receipt b.event ≡ false }
    ensures made { IfOk result (λ o. (b : Body) → slice_get core.now.held number ≡ Some b
        → IsOutcomeOf (S.gives signer.old) key.now core.now front b o) }
    ensures gives { S.gives signer.new ≡ S.gives signer.old }
    ensures asked { (b : Body) → slice_get core.now.held number ≡ Some b
        → Puts (S.signings signer.old) (S.signings signer.new) result
        (signings_of key.now (due key.now (take front (accepted_by core.now)) (accepted_by core.now) b.bytes)) }
    ensures count { OnOk result (S.faults signer.new ≡ S.faults signer.old) }
    ensures fault { IfErr result (SignFault (S.faults signer.old) (S.faults signer.new)) }
{
    match receipts_of(alloc, core, key, front, number, signer) {
        Ok(receipts) => Ok(Outcome {
            fate: event_fate(core, key, number),
            receipts,
        }),
        Err(SigningFault::SignerFault) => Err(WitnessFault::SignerFault),
        Err(SigningFault::OutOfMemory) => Err(WitnessFault::OutOfMemory),
    }
}
