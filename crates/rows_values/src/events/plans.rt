//! Messages that are made of plans.
ghost use Rattle.std.specs.Prelude.{◌≡◌, [], false, None, IfOk};

use crate::events::backers::keys;
use crate::events::event::kept_event;
use crate::events::states::fold;
use crate::values::code;
use cesr_codes::Digest;
use cesr_stream::{Group, Message};
use controller_core::{Plan, PlanFault, Slot, delegate, incept, interact, rotate};
use event_body::Event;
use json_tree::{Text, Tree};
use keri_outside::MemSigner;
use key_state::KeyState;
use lists::Items;
use rows::{Row, given};
use sith::Threshold;
use std::alloc::{AllocError, Global};
use std::fmt::Write;

// The first word of an event behind the plan's words.
const FIRST_EVENT: usize = 7;

// The digests of the word, with a comma between two of them.
fn digests(alloc: Global, row: &Row, place: usize) -> Result<Items<Digest>, AllocError> {
    let mut digests = Vec::new(alloc);
    for word in row.word(place).split(',') {
        if let Ok((digest, _)) = Digest::read(word.as_bytes()) {
            digests.push(digest)?;
        }
    }
    Ok(Items::from_vec(digests))
}

// A slot for each number of the word, which is its place in both lists.
fn slots(alloc: Global, row: &Row, place: usize) -> Result<Items<Slot>, AllocError> {
    let numbers = row.numbers(alloc, place)?;
    let mut slots = Vec::new(alloc);
    for number in &numbers {
        slots.push(Slot {
            index: *number,
            ondex: Some(*number),
        })?;
    }
    Ok(Items::from_vec(slots))
}

// The plan of the words `CODE RECEIPTS KEYS NEXT SLOTS`: both thresholds are 1, and no list has anything else.
fn plan_of(alloc: Global, row: &Row) -> Result<Plan, AllocError>
    ensures delegated { IfOk result (λ plan. plan.delegated ≡ false) }
    ensures delegator { IfOk result (λ plan. plan.delegator ≡ None) }
    ensures traits { IfOk result (λ plan. plan.traits ≡ []) }
    ensures anchors { IfOk result (λ plan. plan.anchors ≡ []) }
{
    let keys = Items::from_vec(keys(alloc, row, 3)?);
    let next = digests(alloc, row, 4)?;
    let signers = slots(alloc, row, 5)?;
    let traits: Items<Text> = Items::new(alloc);
    let anchors: Items<Tree> = Items::new(alloc);
    Ok(Plan {
        delegated: false,
        code: code(row.word(1)),
        basic: false,
        kt: Threshold::Count(1),
        keys,
        nt: Threshold::Count(1),
        next,
        toad: row.number(2),
        cuts: Items::new(alloc),
        adds: Items::new(alloc),
        traits,
        anchors,
        delegator: None,
        signers,
    })
}

// A signer whose signings of the numbers of the word fail.
fn signer_of(alloc: Global, row: &Row) -> Result<MemSigner, AllocError> {
    let numbers = row.numbers(alloc, 6)?;
    let mut failing = Vec::new(alloc);
    for number in &numbers {
        failing.push(u64::from(*number))?;
    }
    Ok(MemSigner::new(alloc, Items::from_vec(failing)))
}

fn group_words(text: &mut String, group: &Group) -> Result<(), AllocError> {
    if let Group::Controller(sigs) = group {
        for sig in sigs.as_slice() {
            write!(text, " {sig}")?;
        }
    }
    Ok(())
}

// The body of the message, and its signatures.
fn message_words(alloc: Global, message: &Message) -> Result<String, AllocError> {
    let mut text = String::from_utf8_lossy(alloc, message.body.as_slice())?;
    for group in message.groups.as_slice() {
        group_words(&mut text, group)?;
    }
    Ok(text)
}

// What is made, or why there is nothing.
fn told(alloc: Global, made: Result<Message, PlanFault>) -> Result<String, AllocError> {
    match made {
        Ok(message) => {
            let words = message_words(alloc, &message);
            drop(message);
            words
        }
        Err(PlanFault::OutOfMemory) => Err(AllocError),
        Err(fault) => format!(in alloc; "{fault:?}"),
    }
}

// The message of the plan's inception.
fn begun(alloc: Global, plan: &Plan, signer: &mut MemSigner) -> Result<Message, PlanFault>
    requires delegated { plan.now.delegated ≡ false }
    requires delegator { plan.now.delegator ≡ None }
    requires traits { plan.now.traits ≡ [] }
    requires anchors { plan.now.anchors ≡ [] }
{
    incept(alloc, plan, signer)
}

// The message of the plan's rotation or interaction behind the state.
fn moved(
    alloc: Global,
    row: &Row,
    state: &KeyState,
    plan: &Plan,
    signer: &mut MemSigner,
) -> Result<Message, PlanFault>
    requires { plan.now.anchors ≡ [] }
{
    match row.word(0) {
        "rotate" => rotate(alloc, state, plan, signer),
        _ => interact(alloc, state, plan, signer),
    }
}

/// `incept CODE RECEIPTS KEYS NEXT SLOTS FAILING`: the body and the signatures that are made of the plan, where the
/// signings of the numbers `FAILING` fail; or why there is nothing.
fn inception(alloc: Global, row: &Row) -> Result<String, AllocError> {
    let plan = plan_of(alloc, row)?;
    let mut signer = signer_of(alloc, row)?;
    let made = begun(alloc, &plan, &mut signer);
    drop(signer);
    drop(plan);
    told(alloc, made)
}

fn moved_behind(alloc: Global, row: &Row, state: &KeyState) -> Result<String, AllocError> {
    let plan = plan_of(alloc, row)?;
    let mut signer = signer_of(alloc, row)?;
    let made = moved(alloc, row, state, &plan, &mut signer);
    drop(signer);
    drop(plan);
    told(alloc, made)
}

// The state behind the events of the words up to one, where there is one.
fn state_to(alloc: Global, row: &Row, to: usize) -> Result<Option<KeyState>, AllocError> {
    let mut text = String::new(alloc);
    let mut state = None;
    fold(alloc, row, FIRST_EVENT, to, &mut state, &mut text)?;
    Ok(state)
}

/// `rotate CODE RECEIPTS KEYS NEXT SLOTS FAILING TEXT..`, `interact ..`: the same behind the state of the events.
fn behind(alloc: Global, row: &Row) -> Result<String, AllocError> {
    match state_to(alloc, row, row.len())? {
        Some(state) => {
            let words = moved_behind(alloc, row, &state);
            drop(state);
            words
        }
        None => String::from_str(alloc, "no-state"),
    }
}

fn sealed(alloc: Global, row: &Row, state: &KeyState, event: &Event) -> Result<String, AllocError> {
    let plan = plan_of(alloc, row)?;
    let mut signer = signer_of(alloc, row)?;
    let made = delegate(alloc, state, event, &plan, &mut signer);
    drop(signer);
    drop(plan);
    told(alloc, made)
}

fn sealed_event(
    alloc: Global,
    row: &Row,
    state: &KeyState,
    bytes: &[u8],
) -> Result<String, AllocError> {
    match kept_event(alloc, bytes) {
        Ok(event) => {
            let words = sealed(alloc, row, state, &event);
            drop(event);
            words
        }
        Err(_) => String::from_str(alloc, "no-event"),
    }
}

/// `delegate CODE RECEIPTS KEYS NEXT SLOTS FAILING TEXT.. EVENT`: the same of an interaction that seals the event.
fn delegation(alloc: Global, row: &Row) -> Result<String, AllocError> {
    let last = row.len().saturating_sub(1);
    let bytes = row.bytes(alloc, last)?;
    match state_to(alloc, row, last)? {
        Some(state) => {
            let words = sealed_event(alloc, row, &state, bytes.as_slice());
            drop(state);
            words
        }
        None => String::from_str(alloc, "no-state"),
    }
}

/// The answer of the row, where it is one of these calls.
pub(crate) fn answer(alloc: Global, row: &Row) -> Result<Option<String>, AllocError> {
    match row.word(0) {
        "incept" => given(inception(alloc, row)),
        "rotate" | "interact" => given(behind(alloc, row)),
        "delegate" => given(delegation(alloc, row)),
        _ => Ok(None),
    }
}
