//! The messages of planned events.
ghost use Rattle.std.specs.Prelude.{◌≡◌, ◌+◌, ◌-◌, ◌<◌, ◌^◌, ◌∷◌, [], false, Some, IfOk, IfErr};
ghost use Rattle.std.specs.Option.{option_copied};
ghost use Rattle.cesr_stream.specs.declared.group.Group.TheVariants.{Controller};
ghost use Rattle.event_body.specs.EventWriting.Writable.{IsWritable};
ghost use Rattle.key_state.specs.Heads.{head_sn};
ghost use Rattle.controller_core.specs.ControllerCore.LastNumbers.{IsLastAnswer};
ghost use Rattle.controller_core.specs.ControllerCore.Messages.{IsMessageOf, event_text};
ghost use Rattle.controller_core.specs.ControllerCore.Plans.{sealed};
ghost use Rattle.controller_core.specs.ControllerCore.Refusals.{CountsSignerFaults, IsRefusal};
ghost use Rattle.controller_core.specs.ControllerCore.Signing.{IsSignedByYes};
ghost use Rattle.controller_core.specs.ControllerCore.Signings.{AsksFor, signings_of};

use crate::controller_core::last_number::last_fault;
use crate::controller_core::planned_body::planned_text;
use crate::controller_core::signature::signatures;
use crate::controller_core::{Plan, PlanFault};
use cesr_codes::IndexedSig;
use cesr_stream::{Group, Message};
use event_body::Event;
use journal::signing_keys;
use keri_outside::Signer;
use key_state::KeyState;
use lists::Items;
use std::alloc::{AllocError, Global};

/// The message of a planned event behind a state, with the digest of its own text and the signatures that the plan says.
pub(crate) fn made<S: Signer>(
    alloc: Global,
    state: Option<&KeyState>,
    event: &Event,
    plan: &Plan,
    signer: &mut S,
) -> Result<Message, PlanFault>
    requires { IsWritable event.now }
    ensures made { IfOk result (IsMessageOf (S.gives signer.old) (option_copied state.entry)
        (sealed plan.now.code event.now) plan.now.signers) }
    ensures refused { IfErr result (IsRefusal (option_copied state.entry) (sealed plan.now.code event.now)
        plan.now.signers) }
    ensures gives { S.gives signer.new ≡ S.gives signer.old }
    ensures asked { AsksFor (S.signings signer.old) (S.signings signer.new)
        (signings_of (option_copied state.entry) (sealed plan.now.code event.now) plan.now.signers) result }
    ensures count { CountsSignerFaults (S.faults signer.old) (S.faults signer.new) result }
{
    let text = planned_text(alloc, state, event, plan)?;
    let keys = signing_keys(state, event);
    let sigs = signatures(alloc, keys, &text, plan.signers.as_slice(), signer)?;
    let message = message(alloc, text, sigs)?;
    Ok(message)
}

/// The same behind a head of any number.
#[tactic(auto, using(crate::proofs::ControllerCoreLemmas::Asking::asks_nothing))]
pub(crate) fn made_behind<S: Signer>(
    alloc: Global,
    state: &KeyState,
    event: &Event,
    plan: &Plan,
    signer: &mut S,
) -> Result<Message, PlanFault>
    requires { IsWritable event.now }
    ensures made { IfOk result (IsMessageOf (S.gives signer.old) (Some state.now) (sealed plan.now.code event.now)
        plan.now.signers) }
    ensures refused { head_sn state.now + 1 < 2 ^ 64
        → IfErr result (IsRefusal (Some state.now) (sealed plan.now.code event.now) plan.now.signers) }
    ensures last { head_sn state.now ≡ 2 ^ 64 - 1 → IsLastAnswer (event_text (sealed plan.now.code event.now)) result }
    ensures gives { S.gives signer.new ≡ S.gives signer.old }
    ensures asked { AsksFor (S.signings signer.old) (S.signings signer.new)
        (signings_of (Some state.now) (sealed plan.now.code event.now) plan.now.signers) result }
    ensures count { CountsSignerFaults (S.faults signer.old) (S.faults signer.new) result }
    ensures signed { IfOk result (IsSignedByYes (Some state.now) (sealed plan.now.code event.now)) }
{
    if state.sn() == u64::MAX {
        return Err(last_fault(alloc, event, plan.code));
    }
    made(alloc, Some(state), event, plan, signer)
}

// The message of a body with these signatures.
fn message(alloc: Global, body: Vec<u8>, sigs: Items<IndexedSig>) -> Result<Message, AllocError>
    ensures { IfOk result (λ message. message
        ≡ record { place = 0; body = body.items; groups = Controller sigs ∷ []; excess = false }) }
{
    let mut groups = Items::new(alloc);
    groups.push(Group::Controller(sigs))?;
    Ok(Message {
        place: 0,
        body: Items::from_vec(body),
        groups,
        excess: false,
    })
}
