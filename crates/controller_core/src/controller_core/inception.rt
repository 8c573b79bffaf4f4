//! Inceptions.
ghost use Rattle.std.specs.Prelude.{◌≡◌, None, IfOk, IfErr, is_some};
ghost use Rattle.std.specs.List.{AllByRecursion};
ghost use Rattle.json_tree.specs.Spelling.{IsJson};
ghost use Rattle.json_tree.specs.Strings.{IsString};
ghost use Rattle.controller_core.specs.ControllerCore.Messages.{IsMessageOf};
ghost use Rattle.controller_core.specs.ControllerCore.Plans.{sealed_inception};
ghost use Rattle.controller_core.specs.ControllerCore.Refusals.{CountsSignerFaults, IsRefusal};
ghost use Rattle.controller_core.specs.ControllerCore.Signing.{IsSignedByYes};
ghost use Rattle.controller_core.specs.ControllerCore.Signings.{AsksFor, signings_of};

use crate::controller_core::made::made;
use crate::controller_core::planned_event::inception;
use crate::controller_core::{Plan, PlanFault};
use cesr_stream::Message;
use keri_outside::Signer;
use std::alloc::Global;

/// The message of the inception that a plan says. It is a delegated one exactly where the plan is, and its witnesses are
/// those that the plan adds.
#[tactic(auto, using(crate::proofs::ControllerCoreLemmas::Asking::asks_without_memory))]
pub fn incept<S: Signer>(alloc: Global, plan: &Plan, signer: &mut S) -> Result<Message, PlanFault>
    requires anchors { AllByRecursion IsJson plan.now.anchors }
    requires traits { AllByRecursion IsString plan.now.traits }
    requires delegator { is_some plan.now.delegator ≡ plan.now.delegated }

    // The event is one by all rules, and the message has its text and a signature in each slot.
    ensures made { IfOk result (IsMessageOf (S.gives signer.old) None (sealed_inception plan.now) plan.now.signers) }

    // A refusal is the first that is so.
    ensures refused { IfErr result (IsRefusal None (sealed_inception plan.now) plan.now.signers) }

    // The signer was asked for these signatures and for nothing else, and for none where the plan is refused. Its count of
    // faults rises exactly where it failed.
    ensures gives { S.gives signer.new ≡ S.gives signer.old }
    ensures asked { AsksFor (S.signings signer.old) (S.signings signer.new)
        (signings_of None (sealed_inception plan.now) plan.now.signers) result }
    ensures count { CountsSignerFaults (S.faults signer.old) (S.faults signer.new) result }

    // Once verifiers have said yes of the signatures, the body is signed.
    ensures signed { IfOk result (IsSignedByYes None (sealed_inception plan.now)) }
{
    let event = inception(alloc, plan)?;
    let message = made(alloc, None, &event, plan, signer);
    drop(event);
    message
}
