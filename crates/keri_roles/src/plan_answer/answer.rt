//! Answers to plans.
ghost use Rattle.std.specs.Prelude.{◌≡◌, ◌≢◌, Some, None, Err, All, IfOk, OnErr, is_some};
ghost use Rattle.controller_core.specs.declared.controller_core.plan_fault.PlanFault.TheVariants.{SignerFault};
ghost use Rattle.std.specs.List.{AllByRecursion};
ghost use Rattle.std.specs.Option.{option_map};
ghost use Rattle.json_tree.specs.Spelling.{IsJson};
ghost use Rattle.json_tree.specs.Strings.{IsString};
ghost use Rattle.cesr_stream.specs.Written.{IsCounted};
ghost use Rattle.controller_core.specs.PlanText.Makeable.{IsMakeable};
ghost use Rattle.keri_roles.specs.PlanAnswer.Answers.{AsksFew, CountsFaults, IsAnswer, IsEventAnswer, IsPlanAnswer, SignsNoMore, answer_to, signer_asked};
ghost use Rattle.keri_roles.specs.PlanAnswer.Asked as specs;
ghost use Rattle.keri_roles.specs.PlanAnswer.Asked.{asked, behind, log_told};
ghost use Rattle.controller_core.specs.ControllerCore.Plans.{sealed_inception, sealed_interaction, sealed_rotation};
ghost use Rattle.controller_core.specs.ControllerCore.Signings.{AsksFront, signings_of};

use crate::plan_answer::ReadLog;
use crate::plan_answer::message_text::message_text;
use cesr_codes::Prefix;
use cesr_stream::Message;
use controller_core::{
    EventPlan, Plan, PlanFault, PlanTextFault, PlannedEvent, incept, interact, read_plan, rotate,
    spelled_is_makeable,
};
use keri_outside::Signer;
use key_state::KeyState;
use lists::Items;
use report_lines::PlanRefusal;
use std::alloc::{AllocError, Global};

/// What is answered to a plan.
#[derive(Drop, PartialEq, Eq, Debug)]
pub enum PlanAnswer {
    /// The text of the message that the plan asks for.
    Message(Items<u8>),
    /// There is no message, for this reason.
    Refused(PlanRefusal),
    /// The signer failed.
    SignerFault,
}

/// Reads a plan, and makes the message of the event that it asks for: an inception, or an event behind the log's state of the
/// plan's identifier. The log is what a core was told that wants neither receipts nor seals.
#[tactic(auto, using(crate::proofs::PlanAnswerLemmas::Made::no_more, crate::proofs::PlanAnswerLemmas::Made::nothing_signed))]
pub fn answer_plan<S: Signer>(
    alloc: Global,
    plan: &[u8],
    log: Option<ReadLog<'_>>,
    signer: &mut S,
) -> Result<PlanAnswer, AllocError>
    ensures answers { IfOk result (IsAnswer
        (signer_asked (S.gives signer.old) (S.signings signer.old) (S.signings signer.new))
        (option_map log_told log.entry) plan.now) }
    ensures few { SignsNoMore (signer_asked (S.gives signer.old) (S.signings signer.old) (S.signings signer.new))
        (option_map log_told log.entry) plan.now }
    ensures gives { S.gives signer.new ≡ S.gives signer.old }
    ensures count { IfOk result (CountsFaults (S.faults signer.old) (S.faults signer.new)) }
    ensures kept { OnErr result (S.faults signer.new ≡ S.faults signer.old) }
{
    spelled_is_makeable();
    match read_plan(alloc, plan) {
        Ok(plan) => answer_event(alloc, &plan, log, signer),
        Err(PlanTextFault::Line(line)) => Ok(PlanAnswer::Refused(PlanRefusal::Line(line))),
        Err(PlanTextFault::OutOfMemory) => Err(AllocError),
    }
}

// What is answered to a plan that is read.
fn answer_event<S: Signer>(
    alloc: Global,
    plan: &EventPlan,
    log: Option<ReadLog<'_>>,
    signer: &mut S,
) -> Result<PlanAnswer, AllocError>
    requires { IsMakeable plan.now }
    ensures answers { IfOk result (IsPlanAnswer
        (signer_asked (S.gives signer.old) (S.signings signer.old) (S.signings signer.new))
        (option_map log_told log.entry) plan.now) }
    ensures few { AsksFew (signer_asked (S.gives signer.old) (S.signings signer.old) (S.signings signer.new))
        (asked (option_map log_told log.entry) plan.now) plan.now.plan.signers }
    ensures gives { S.gives signer.new ≡ S.gives signer.old }
    ensures count { IfOk result (CountsFaults (S.faults signer.old) (S.faults signer.new)) }
    ensures kept { OnErr result (S.faults signer.new ≡ S.faults signer.old) }
{
    if is_refused(&log) {
        return Ok(PlanAnswer::Refused(PlanRefusal::Log));
    }
    match plan.event {
        PlannedEvent::Inception => answer_inception(alloc, &plan.plan, signer),
        PlannedEvent::Rotation(prefix) => match state_in(&log, &prefix) {
            Some(state) => answer_rotation(alloc, state, &plan.plan, signer),
            None => Ok(PlanAnswer::Refused(PlanRefusal::Log)),
        },
        PlannedEvent::Interaction(prefix) => match state_in(&log, &prefix) {
            Some(state) => answer_interaction(alloc, state, &plan.plan, signer),
            None => Ok(PlanAnswer::Refused(PlanRefusal::Log)),
        },
    }
}

// What is answered to the plan of an inception.
fn answer_inception<S: Signer>(
    alloc: Global,
    plan: &Plan,
    signer: &mut S,
) -> Result<PlanAnswer, AllocError>
    requires anchors { AllByRecursion IsJson plan.now.anchors }
    requires traits { AllByRecursion IsString plan.now.traits }
    requires delegator { is_some plan.now.delegator ≡ plan.now.delegated }
    ensures answers { IfOk result (IsEventAnswer
        (signer_asked (S.gives signer.old) (S.signings signer.old) (S.signings signer.new))
        (record { state = None; event = sealed_inception plan.now }) plan.now.signers) }
    ensures few { AsksFront (S.signings signer.old) (S.signings signer.new)
        (signings_of None (sealed_inception plan.now) plan.now.signers) }
    ensures gives { S.gives signer.new ≡ S.gives signer.old }
    ensures count { IfOk result (CountsFaults (S.faults signer.old) (S.faults signer.new)) }
    ensures kept { OnErr result (S.faults signer.new ≡ S.faults signer.old) }
{
    let made = incept(alloc, plan, signer);
    answer_made(alloc, made)
}

// What is answered to the plan of a rotation behind a state.
fn answer_rotation<S: Signer>(
    alloc: Global,
    state: &KeyState,
    plan: &Plan,
    signer: &mut S,
) -> Result<PlanAnswer, AllocError>
    requires { AllByRecursion IsJson plan.now.anchors }
    ensures answers { IfOk result (IsEventAnswer
        (signer_asked (S.gives signer.old) (S.signings signer.old) (S.signings signer.new))
        (behind (λ s. sealed_rotation s plan.now) state.now) plan.now.signers) }
    ensures few { AsksFront (S.signings signer.old) (S.signings signer.new)
        (signings_of (Some state.now) (sealed_rotation state.now plan.now) plan.now.signers) }
    ensures gives { S.gives signer.new ≡ S.gives signer.old }
    ensures count { IfOk result (CountsFaults (S.faults signer.old) (S.faults signer.new)) }
    ensures kept { OnErr result (S.faults signer.new ≡ S.faults signer.old) }
{
    let made = rotate(alloc, state, plan, signer);
    answer_made(alloc, made)
}

// What is answered to the plan of an interaction behind a state.
fn answer_interaction<S: Signer>(
    alloc: Global,
    state: &KeyState,
    plan: &Plan,
    signer: &mut S,
) -> Result<PlanAnswer, AllocError>
    requires { AllByRecursion IsJson plan.now.anchors }
    ensures answers { IfOk result (IsEventAnswer
        (signer_asked (S.gives signer.old) (S.signings signer.old) (S.signings signer.new))
        (behind (λ s. sealed_interaction s plan.now) state.now) plan.now.signers) }
    ensures few { AsksFront (S.signings signer.old) (S.signings signer.new)
        (signings_of (Some state.now) (sealed_interaction state.now plan.now) plan.now.signers) }
    ensures gives { S.gives signer.new ≡ S.gives signer.old }
    ensures count { IfOk result (CountsFaults (S.faults signer.old) (S.faults signer.new)) }
    ensures kept { OnErr result (S.faults signer.new ≡ S.faults signer.old) }
{
    let made = interact(alloc, state, plan, signer);
    answer_made(alloc, made)
}

// What is answered to a message that was made, or to why there is none.
fn answer_made(alloc: Global, made: Result<Message, PlanFault>) -> Result<PlanAnswer, AllocError>
    requires { IfOk made (λ message. All IsCounted message.groups) }
    ensures answer { IfOk result (λ answer. answer_to made ≡ Some answer) }
    ensures none { OnErr result (made ≢ Err SignerFault) }
{
    match made {
        Ok(message) => Ok(PlanAnswer::Message(Items::from_vec(message_text(alloc, message)?))),
        Err(PlanFault::Body(fault)) => Ok(PlanAnswer::Refused(PlanRefusal::Body(fault))),
        Err(PlanFault::Misfit(misfit)) => Ok(PlanAnswer::Refused(PlanRefusal::Misfit(misfit))),
        Err(PlanFault::Unsigned) => Ok(PlanAnswer::Refused(PlanRefusal::Unsigned)),
        Err(PlanFault::SignerFault) => Ok(PlanAnswer::SignerFault),
        Err(PlanFault::OutOfMemory) => Err(AllocError),
    }
}

// Whether the log, where there is one, is refused.
fn is_refused(log: &Option<ReadLog<'_>>) -> bool
    ensures { result ≡ specs.is_refused (option_map log_told log.now) }
{
    match log {
        Some(log) => log.is_refused,
        None => false,
    }
}

// The log's state of an identifier.
fn state_in<'a>(log: &Option<ReadLog<'a>>, prefix: &Prefix) -> Option<&'a KeyState>
    ensures { option_map (λ state. state.now) result ≡ specs.state_in (option_map log_told log.now) prefix.now }
{
    match log {
        Some(log) => log.core.state(prefix),
        None => None,
    }
}
