//! Why messages are refused.
ghost use Rattle.std.specs.Prelude.{◌≡◌, true, false, not, IfOk};
ghost use Rattle.event_body.specs.EventBody.Events as events;
ghost use Rattle.validator_core.specs.ValidatorCore.Messages.{JudgesMessage, first_refusal};
ghost use Rattle.journal.specs.Journal.Replies as replies;
ghost use Rattle.std.specs.List.{list_any, list_all};

use cesr_stream::{Group, Message};
use event_body::{Event, ReadBody, read_body};
use journal::Reason;
use std::alloc::{AllocError, Global};

/// The event of a message's body, or why the message is refused.
pub fn judge_message(alloc: Global, message: &Message) -> Result<Result<Event, Reason>, AllocError>
    ensures { IfOk result (λ judged. JudgesMessage message.now judged) }
{
    match read_body(alloc, message.body.as_slice()) {
        Ok(event) => match refusal_of(message, &event) {
            None => Ok(Ok(event)),
            Some(reason) => {
                drop(event);
                Ok(Err(reason))
            }
        },
        Err(ReadBody::Fault(_)) if message.excess => Ok(Err(Reason::TooManySigs)),
        Err(ReadBody::Fault(fault)) => Ok(Err(Reason::Body(fault))),
        Err(ReadBody::OutOfMemory) => Err(AllocError),
    }
}

// Why a message with this event is refused, where it is.
fn refusal_of(message: &Message, event: &Event) -> Option<Reason>
    ensures { result ≡ first_refusal message.now.excess (events.is_receipt event.now) message.now.groups }
{
    let groups = message.groups.as_slice();
    if message.excess {
        return Some(Reason::TooManySigs);
    }
    if event.is_receipt() {
        receipt_refusal(groups)
    } else if any_signature(groups) {
        None
    } else {
        Some(Reason::Unsigned)
    }
}

// Why a receipt with these groups is refused, where it is.
fn receipt_refusal(groups: &[Group]) -> Option<Reason>
    ensures { result ≡ first_refusal false true groups.now }
{
    if any_held_group(groups) {
        Some(Reason::WrongGroup)
    } else if any_receipt(groups) {
        None
    } else {
        Some(Reason::DigestOnly)
    }
}

fn any_held_group(groups: &[Group]) -> bool
    ensures { result ≡ list_any (λ g. replies.is_held_group g) groups.now }
{
    groups
        .iter()
        .any(|group| matches!(group, Group::Controller(_)))
}

fn any_receipt(groups: &[Group]) -> bool
    ensures { result ≡ list_any (λ g. not (list_all replies.is_held (replies.claims_of_group g))) groups.now }
{
    groups.iter().any(has_receipts)
}

fn any_signature(groups: &[Group]) -> bool
    ensures { result ≡ list_any (λ g. list_any replies.is_held (replies.claims_of_group g)) groups.now }
{
    groups.iter().any(has_signatures)
}

// Whether the group has a receipt.
fn has_receipts(group: &Group) -> bool
    ensures { result ≡ not (list_all replies.is_held (replies.claims_of_group group.now)) }
{
    match group {
        Group::Witness(sigs) => !sigs.is_empty(),
        Group::Couples(couples) => !couples.is_empty(),
        Group::Controller(_) => false,
        Group::FirstSeen(_) | Group::Anchor(_) => false,
    }
}

// Whether the group has a signature of the controller.
fn has_signatures(group: &Group) -> bool
    ensures { result ≡ list_any replies.is_held (replies.claims_of_group group.now) }
{
    match group {
        Group::Controller(sigs) => !sigs.is_empty(),
        Group::Witness(_) => false,
        Group::Couples(_) => false,
        Group::FirstSeen(_) | Group::Anchor(_) => false,
    }
}
