//! Rotations.
ghost use Rattle.std.specs.Prelude.{◌≡◌};
ghost use Rattle.std.specs.List.{AllByRecursion};
ghost use Rattle.json_tree.specs.Spelling.{IsJson};
ghost use Rattle.controller_core.specs.ControllerCore.Answers.{IsAnswerBehind};
ghost use Rattle.controller_core.specs.ControllerCore.Plans.{sealed_rotation};
ghost use Rattle.controller_core.specs.ControllerCore.Refusals.{CountsSignerFaults};

use crate::controller_core::made::made_behind;
use crate::controller_core::planned_event::rotation;
use crate::controller_core::{Plan, PlanFault};
use cesr_stream::Message;
use keri_outside::Signer;
use key_state::KeyState;
use std::alloc::Global;

/// The message of the rotation that a plan says behind the head of a state. It is a delegated one exactly where the plan is.
#[tactic(auto, using(crate::proofs::ControllerCoreLemmas::Asking::unanswered))]
pub fn rotate<S: Signer>(
    alloc: Global,
    state: &KeyState,
    plan: &Plan,
    signer: &mut S,
) -> Result<Message, PlanFault>
    requires { AllByRecursion IsJson plan.now.anchors }

    // The message has the event's text and a signature in each slot, or the answer says why there is none.
    ensures answer { IsAnswerBehind (S.gives signer.old) (S.signings signer.old) (S.signings signer.new) state.now
        (sealed_rotation state.now plan.now) plan.now.signers result }

    // The signer's count of faults rises exactly where it failed.
    ensures gives { S.gives signer.new ≡ S.gives signer.old }
    ensures count { CountsSignerFaults (S.faults signer.old) (S.faults signer.new) result }
{
    let event = rotation(alloc, state, plan)?;
    let message = made_behind(alloc, state, &event, plan, signer);
    drop(event);
    message
}
