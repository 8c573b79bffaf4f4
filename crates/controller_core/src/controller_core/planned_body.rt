//! Bodies of planned events that can be signed.
ghost use Rattle.std.specs.Prelude.{◌≡◌, ◌≢◌, Some, IfOk, IfErr, IfNone, IfSome, OnOk};
ghost use Rattle.std.specs.Option.{IsSomeAnd, option_copied};
ghost use Rattle.event_body.specs.EventWriting.Faults.{IsFaultOf};
ghost use Rattle.event_body.specs.EventWriting.Writable.{IsWritable};
ghost use Rattle.controller_core.specs.ControllerCore.Messages.{Follows, IsSignable, IsWhole, event_text};
ghost use Rattle.controller_core.specs.ControllerCore.Plans.{sealed};
ghost use Rattle.controller_core.specs.ControllerCore.Refusals.{IsRefusal};
ghost use Rattle.controller_core.specs.declared.controller_core.plan_fault.PlanFault.TheVariants.{SignerFault};
ghost use Rattle.key_state.specs.KeyStates as states;

use crate::controller_core::slots::are_enough;
use crate::controller_core::{Plan, PlanFault};
use cesr_codes::DigestCode;
use event_body::{Event, EventText, ReadBody, sealed_text, write_body};
use key_state::{KeyState, Misfit, spelled_is_kept};
use std::alloc::Global;

/// The text of the event with the digest of its own text, where it can be signed in the plan's slots behind the state.
pub(crate) fn planned_text(
    alloc: Global,
    state: Option<&KeyState>,
    event: &Event,
    plan: &Plan,
) -> Result<Vec<u8>, PlanFault>
    requires { IsWritable event.now }
    ensures text { IfOk result (λ text. text.items ≡ event_text (sealed plan.now.code event.now)) }
    ensures signable { OnOk result (IsSignable (option_copied state.entry) (sealed plan.now.code event.now)
        plan.now.signers) }
    ensures refused { IfErr result (λ fault. (fault ≢ SignerFault)
        × IsRefusal (option_copied state.entry) (sealed plan.now.code event.now) plan.now.signers fault) }
{
    match body_of(alloc, event, plan.code) {
        Ok(body) => signable_text(state, body, plan),
        Err(ReadBody::Fault(fault)) => Err(PlanFault::Body(fault)),
        Err(ReadBody::OutOfMemory) => Err(PlanFault::OutOfMemory),
    }
}

// The text of a body, where its event can be signed in the plan's slots behind the state.
fn signable_text(
    state: Option<&KeyState>,
    body: EventText,
    plan: &Plan,
) -> Result<Vec<u8>, PlanFault>
    requires whole { IsWhole body.event }
    requires text { body.text.items ≡ event_text body.event }
    ensures text { IfOk result (λ text. text.items ≡ event_text body.event) }
    ensures signable { OnOk result (IsSignable (option_copied state.entry) body.event plan.now.signers) }
    ensures refused { IfErr result (λ fault. (fault ≢ SignerFault)
        × IsRefusal (option_copied state.entry) body.event plan.now.signers fault) }
{
    let EventText { event, text } = body;
    let fault = fault_of(state, &event, plan);
    drop(event);
    match fault {
        Some(fault) => Err(fault),
        None => Ok(text),
    }
}

// The event with the digest of its own text, and that text, where it is a body.
#[tactic(auto, unfolding(crate::specs::ControllerCore::Plans::sealed, crate::specs::ControllerCore::Messages::event_text))]
fn body_of(alloc: Global, event: &Event, code: DigestCode) -> Result<EventText, ReadBody>
    requires { IsWritable event.now }
    ensures event { IfOk result (λ made. made.event ≡ sealed code event.now) }
    ensures text { IfOk result (λ made. made.text.items ≡ event_text (sealed code event.now)) }
    ensures whole { OnOk result (IsWhole (sealed code event.now)) }
    ensures fault { IfErr result (IsFaultOf (sealed code event.now)) }
{
    match sealed_text(alloc, event, code) {
        Ok(EventText { event, .. }) => body_with(alloc, event),
        Err(fault) => Err(fault),
    }
}

// The event with its text, which is written once more as its rules are looked at, where that is a body.
#[tactic(auto, unfolding(crate::specs::ControllerCore::Messages::event_text))]
fn body_with(alloc: Global, event: Event) -> Result<EventText, ReadBody>
    requires { IsWritable event }
    ensures event { IfOk result (λ made. made.event ≡ event) }
    ensures text { IfOk result (λ made. made.text.items ≡ event_text event) }
    ensures whole { OnOk result (IsWhole event) }
    ensures fault { IfErr result (IsFaultOf event) }
{
    match write_body(alloc, &event) {
        Ok(text) => Ok(EventText { event, text }),
        Err(fault) => {
            drop(event);
            Err(fault)
        }
    }
}

// Why the event, which a body spells, can't be signed in the plan's slots behind the state.
fn fault_of(state: Option<&KeyState>, event: &Event, plan: &Plan) -> Option<PlanFault>
    requires { IsWhole event.now }
    ensures none { IfNone result (IsSignable (option_copied state.entry) event.now plan.now.signers) }
    ensures some { IfSome result (λ fault. (fault ≢ SignerFault)
        × IsRefusal (option_copied state.entry) event.now plan.now.signers fault) }
{
    if let Some(misfit) = misfit_of(state, event) {
        return Some(PlanFault::Misfit(misfit));
    }
    spelled_is_kept();
    if are_enough(state, event, plan.signers.as_slice()) {
        None
    } else {
        Some(PlanFault::Unsigned)
    }
}

// The first rule by which the event doesn't follow the state, where there is one.
fn misfit_of(state: Option<&KeyState>, event: &Event) -> Option<Misfit>
    ensures none { IfNone result (Follows (option_copied state.entry) event.now) }
    ensures some { IfSome result (λ fault. IsSomeAnd (option_copied state.entry)
        (λ s. states.misfit s event.now ≡ Some fault)) }
{
    state?.misfit(event)
}
