//! Interactions that seal an event.
ghost use Rattle.std.specs.Prelude.{◌≡◌, true};
ghost use Rattle.journal.specs.Journal.Seals.{seals};
ghost use Rattle.controller_core.specs.ControllerCore.Answers.{IsAnswerBehind};
ghost use Rattle.controller_core.specs.ControllerCore.Plans.{sealed_delegation};
ghost use Rattle.controller_core.specs.ControllerCore.Refusals.{CountsSignerFaults};

use crate::controller_core::event_seal::seal_anchor;
use crate::controller_core::made::made_behind;
use crate::controller_core::planned_event::interaction;
use crate::controller_core::{Plan, PlanFault};
use cesr_stream::Message;
use event_body::Event;
use keri_outside::Signer;
use key_state::KeyState;
use std::alloc::Global;

/// The message of an interaction behind the head of a state, whose one anchor is the event seal of an event.
#[tactic(auto, using(crate::proofs::ControllerCoreLemmas::Seals::holds_seal, crate::proofs::ControllerCoreLemmas::Asking::unanswered))]
pub fn delegate<S: Signer>(
    alloc: Global,
    state: &KeyState,
    event: &Event,
    plan: &Plan,
    signer: &mut S,
) -> Result<Message, PlanFault>
    // The message has the event's text and a signature in each slot, or the answer says why there is none.
    ensures answer { IsAnswerBehind (S.gives signer.old) (S.signings signer.old) (S.signings signer.new) state.now
        (sealed_delegation state.now event.now plan.now) plan.now.signers result }

    // The event holds the seal.
    ensures seal { seals (sealed_delegation state.now event.now plan.now) event.now ≡ true }

    // The signer's count of faults rises exactly where it failed.
    ensures gives { S.gives signer.new ≡ S.gives signer.old }
    ensures count { CountsSignerFaults (S.faults signer.old) (S.faults signer.new) result }
{
    let sealing = interaction(state, seal_anchor(alloc, event)?);
    let message = made_behind(alloc, state, &sealing, plan, signer);
    drop(sealing);
    message
}
