//! Events as plans say them, before they have their digests.
ghost use Rattle.std.specs.Prelude.{◌≡◌, IfOk, is_some};
ghost use Rattle.std.specs.List.{AllByRecursion};
ghost use Rattle.json_tree.specs.Spelling.{IsJson};
ghost use Rattle.json_tree.specs.Strings.{IsString};
ghost use Rattle.event_body.specs.EventWriting.Writable.{IsWritable};
ghost use Rattle.controller_core.specs.ControllerCore.Plans as plans;

use crate::controller_core::Plan;
use cesr_codes::{Digest, DigestCode, Key, Prefix};
use event_body::{Event, Inception, Interaction, Rotation};
use json_tree::Tree;
use key_state::KeyState;
use lists::{CopyValue, Items, copy_items};
use std::alloc::{AllocError, Global};

/// What stands in the place of a digest that isn't known yet.
const BLANK: Digest = Digest {
    code: DigestCode::Blake3,
    raw: [0; 32],
};

// The prefix of an inception with these keys.
fn first_prefix(basic: bool, keys: &[Key]) -> Prefix
    ensures { result ≡ plans.first_prefix basic keys.now }
{
    if !basic {
        return Prefix::Said(BLANK);
    }
    match keys {
        [key, ..] => Prefix::Basic(*key),
        [] => Prefix::Said(BLANK),
    }
}

// What an inception says.
fn begun(alloc: Global, plan: &Plan) -> Result<Inception, AllocError>
    ensures { IfOk result (λ event. event ≡ plans.begun plan.now) }
{
    Ok(Inception {
        said: BLANK,
        prefix: first_prefix(plan.basic, plan.keys.as_slice()),
        keys: copy_items(&plan.keys, alloc)?,
        next: copy_items(&plan.next, alloc)?,
        toad: plan.toad,
        list: copy_items(&plan.adds, alloc)?,
        traits: plan.traits.copy(alloc)?,
        anchors: plan.anchors.copy(alloc)?,
        delegator: plan.delegator,
        kt: plan.kt.copy(alloc)?,
        nt: plan.nt.copy(alloc)?,
    })
}

/// The inception that a plan says.
#[tactic(auto, unfolding(crate::specs::ControllerCore::Plans::inception))]
pub(crate) fn inception(alloc: Global, plan: &Plan) -> Result<Event, AllocError>
    requires anchors { AllByRecursion IsJson plan.now.anchors }
    requires traits { AllByRecursion IsString plan.now.traits }
    requires delegator { is_some plan.now.delegator ≡ plan.now.delegated }
    ensures event { IfOk result (λ event. event ≡ plans.inception plan.now) }
    ensures writable { IfOk result IsWritable }
{
    let event = begun(alloc, plan)?;
    if plan.delegated {
        Ok(Event::Dip(event))
    } else {
        Ok(Event::Icp(event))
    }
}

// The number behind that of the head, or the greatest, where no number comes behind it.
fn next_sn(state: &KeyState) -> u64
    ensures { result ≡ plans.next_sn state.now }
{
    state.sn().saturating_add(1)
}

// The digest of the head.
fn head_said(state: &KeyState) -> Digest
    ensures { result ≡ plans.head_digest state.now }
{
    state.said()
}

// What a rotation says behind the head of a state.
fn rotated(alloc: Global, state: &KeyState, plan: &Plan) -> Result<Rotation, AllocError>
    ensures { IfOk result (λ event. event ≡ plans.rotated state.now plan.now) }
{
    Ok(Rotation {
        said: BLANK,
        prefix: state.prefix,
        sn: next_sn(state),
        prior: head_said(state),
        keys: copy_items(&plan.keys, alloc)?,
        next: copy_items(&plan.next, alloc)?,
        toad: plan.toad,
        cuts: copy_items(&plan.cuts, alloc)?,
        adds: copy_items(&plan.adds, alloc)?,
        anchors: plan.anchors.copy(alloc)?,
        kt: plan.kt.copy(alloc)?,
        nt: plan.nt.copy(alloc)?,
    })
}

/// The rotation that a plan says behind the head of a state.
#[tactic(auto, unfolding(crate::specs::ControllerCore::Plans::rotation))]
pub(crate) fn rotation(alloc: Global, state: &KeyState, plan: &Plan) -> Result<Event, AllocError>
    requires { AllByRecursion IsJson plan.now.anchors }
    ensures event { IfOk result (λ event. event ≡ plans.rotation state.now plan.now) }
    ensures writable { IfOk result IsWritable }
{
    let event = rotated(alloc, state, plan)?;
    if plan.delegated {
        Ok(Event::Drt(event))
    } else {
        Ok(Event::Rot(event))
    }
}

/// The interaction with these anchors behind the head of a state.
#[tactic(auto, unfolding(crate::specs::ControllerCore::Plans::interaction))]
pub(crate) fn interaction(state: &KeyState, anchors: Items<Tree>) -> Event
    requires { AllByRecursion IsJson anchors }
    ensures event { result ≡ plans.interaction state.now anchors }
    ensures writable { IsWritable result }
{
    Event::Ixn(Interaction {
        said: BLANK,
        prefix: state.prefix,
        sn: next_sn(state),
        prior: head_said(state),
        anchors,
    })
}
