//! An event's body, and its writer.
ghost use Rattle.std.specs.Prelude.{◌≡◌, ◌≤◌, ℕ, List, length, IfOk, IfErr, IfNone, IfSome};
ghost use Rattle.std.specs.List.{AllByRecursion};
ghost use Rattle.json_tree.specs.Spelling.{IsJson};
ghost use Rattle.event_body.specs.BodyFields.Bodies as bodies;
ghost use Rattle.event_body.specs.EventBody.Typed.{IsTyped};
ghost use Rattle.event_body.specs.EventBody.Judging.{SpellsEvent};
ghost use Rattle.event_body.specs.EventBody.Spelling.{text_of, values_of};
ghost use Rattle.event_body.specs.EventWriting.Faults.{IsFaultOf, IsLengthFault};
ghost use Rattle.event_body.specs.EventWriting.Writable.{HasOwnThresholds, IsWritable};

use crate::body_fields::{Kind, digest_tree, prefix_tree, write_fields};
use crate::event_body::{BodyFault, Event, ReadBody, read_body};
use crate::event_writing::in_range::in_range;
use crate::event_writing::values::values;
use json_tree::Tree;
use lists::Items;
use std::alloc::{AllocError, Global};

/// The body that spells the event, or the fault that its text has where it is no body.
pub fn write_body(alloc: Global, event: &Event) -> Result<Vec<u8>, ReadBody>
    // The anchors and the traits are of JSON's grammar, and a delegated inception alone names a delegator.
    requires { IsWritable event.now }

    // What is written is the event's text, and spells the event.
    ensures text { IfOk result (λ text. text.items ≡ text_of event.now) }
    ensures spelled { IfOk result (λ text. SpellsEvent event.now text.items × (length text.items ≤ 65535)) }

    // A fault is the first that the text has.
    ensures fault { IfErr result (λ fault. IsFaultOf event.now fault) }

    // A body that spells the event is what is written, but for want of memory.
    ensures whole { (bytes : List ℕ) → SpellsEvent event.now bytes → length bytes ≤ 65535
        → IfOk result (λ text. text.items ≡ bytes) × IfErr result (λ fault. fault ≡ ReadBody.OutOfMemory) }
{
    written(alloc, event)
}

fn written(alloc: Global, event: &Event) -> Result<Vec<u8>, ReadBody>
    requires { IsWritable event.now }
    ensures text { IfOk result (λ text. text.items ≡ text_of event.now) }
    ensures spelled { IfOk result (λ text. SpellsEvent event.now text.items × (length text.items ≤ 65535)) }
    ensures fault { IfErr result (λ fault. IsFaultOf event.now fault) }
{
    in_range(event);
    let text = event_text(alloc, event)?;
    match fault_of(alloc, event, &text) {
        None => Ok(text),
        Some(fault) => Err(fault),
    }
}

// Why the event's text is no body.
fn fault_of(alloc: Global, event: &Event, text: &[u8]) -> Option<ReadBody>
    requires typed { IsTyped event.now }
    requires thresholds { HasOwnThresholds event.now }
    requires writable { IsWritable event.now }
    requires text { text.now ≡ text_of event.now }
    ensures none { IfNone result (SpellsEvent event.now text.now × (length text.now ≤ 65535)) }
    ensures some { IfSome result (λ fault. IsFaultOf event.now fault) }
{
    read_body(alloc, text).err()
}

/// The event's text, where it has at most 65,535 bytes.
pub(crate) fn event_text(alloc: Global, event: &Event) -> Result<Vec<u8>, ReadBody>
    requires typed { IsTyped event.now }
    requires thresholds { HasOwnThresholds event.now }
    requires writable { IsWritable event.now }
    ensures text { IfOk result (λ text. (text.items ≡ text_of event.now) × (length text.items ≤ 65535)) }
    ensures large { IfErr result (λ fault. IsLengthFault (text_of event.now) fault) }
{
    let values = event_values(alloc, event)?;
    body_text(alloc, event.body_kind(), values.as_slice())
}

// The values of the event's fields.
fn event_values(alloc: Global, event: &Event) -> Result<Items<Tree>, AllocError>
    ensures { IfOk result (λ values. values ≡ values_of event.now) }
{
    let said = digest_tree(alloc, &event.said())?;
    let prefix = prefix_tree(alloc, &event.prefix())?;
    let values = values(alloc, said, prefix, event)?;
    Ok(values)
}

/// The text of the values, where it has at most 65,535 bytes.
pub(crate) fn body_text(alloc: Global, kind: Kind, values: &[Tree]) -> Result<Vec<u8>, ReadBody>
    requires { AllByRecursion IsJson values.now }
    ensures text { IfOk result (λ text. (text.items ≡ bodies.body_text kind values.now) × (length text.items ≤ 65535)) }
    ensures large { IfErr result (λ fault. IsLengthFault (bodies.body_text kind values.now) fault) }
{
    match write_fields(alloc, kind, values)? {
        Some(text) => Ok(text),
        None => Err(ReadBody::Fault(BodyFault::TooLarge)),
    }
}
