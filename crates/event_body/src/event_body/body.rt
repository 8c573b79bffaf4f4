//! A whole body, and its reader.
ghost use Rattle.std.specs.Prelude.{◌≡◌, ◌⊎◌, ◌≤◌, Ok, Err, IfNone, IfSome, length};
ghost use Rattle.event_body.specs.BodyFields.Bodies.{IsBody};
ghost use Rattle.event_body.specs.EventBody.Judging.{HasEvent, IsFirstFault, Judges, SpellsEvent};
ghost use Rattle.event_body.specs.declared.event_body.body_fault.ReadBody.TheVariants.{OutOfMemory};
ghost use Rattle.event_body.specs.declared.event_body.event.Event.{Event};

use crate::body_fields::{Fields, FieldsFault, LARGEST, read_fields};
use crate::event_body::event_of::event_of;
use crate::event_body::prefix_rule::has_prefix;
use crate::event_body::said_rule::has_said;
use crate::event_body::value_rules::{are_few, are_short};
use crate::event_body::witness_rule::are_witnesses;
use crate::event_body::{BodyFault, Event, ReadBody};
use std::alloc::Global;

/// Reads a whole body.
pub fn read_body(alloc: Global, bytes: &[u8]) -> Result<Event, ReadBody>
    // The event that the body spells, or the first rule that it fails.
    ensures judged { Judges bytes.now result }

    // What is spelled is read, but for want of memory.
    ensures whole { (event : Event) → SpellsEvent event bytes.now → length bytes.now ≤ 65535
        → (result ≡ Ok event) ⊎ (result ≡ Err OutOfMemory) }
{
    judge(alloc, bytes)
}

fn judge(alloc: Global, bytes: &[u8]) -> Result<Event, ReadBody>
    ensures { Judges bytes.now result }
{
    if bytes.len() > LARGEST {
        return Err(ReadBody::Fault(BodyFault::TooLarge));
    }
    match read_fields(alloc, bytes) {
        Ok(fields) => judge_fields(alloc, bytes, &fields),
        Err(FieldsFault::OtherSize) => Err(ReadBody::Fault(BodyFault::SizeField)),
        Err(FieldsFault::Ends(fields)) => Err(ReadBody::Fault(BodyFault::Field(fields))),
        Err(FieldsFault::OutOfMemory) => Err(ReadBody::OutOfMemory),
    }
}

// Judges a body with these fields.
fn judge_fields(alloc: Global, bytes: &[u8], fields: &Fields) -> Result<Event, ReadBody>
    requires small { length bytes.now ≤ 65535 }
    requires body { IsBody fields.now.kind fields.now.values bytes.now }
    ensures { Judges bytes.now result }
{
    let values = fields.values.as_slice();
    if !are_few(fields.kind, values) {
        return Err(ReadBody::Fault(BodyFault::TooMany));
    }
    if !are_short(fields.kind, values) {
        return Err(ReadBody::Fault(BodyFault::NumberTooLarge));
    }
    match event_of(alloc, fields.kind, values) {
        Ok(event) => judge_event(event, bytes),
        Err(fault) => Err(fault),
    }
}

// Judges a body of this event.
fn judge_event(event: Event, bytes: &[u8]) -> Result<Event, ReadBody>
    requires small { length bytes.now ≤ 65535 }
    requires has { HasEvent event bytes.now }
    ensures { Judges bytes.now result }
{
    match event_fault(&event, bytes) {
        Some(fault) => {
            drop(event);
            Err(ReadBody::Fault(fault))
        }
        None => Ok(event),
    }
}

// The first rule of events that it fails.
fn event_fault(event: &Event, bytes: &[u8]) -> Option<BodyFault>
    requires small { length bytes.now ≤ 65535 }
    requires has { HasEvent event.now bytes.now }
    ensures some { IfSome result (λ fault. IsFirstFault bytes.now fault) }
    ensures none { IfNone result (SpellsEvent event.now bytes.now) }
{
    if !are_witnesses(event) {
        return Some(BodyFault::Witnesses);
    }
    if !has_prefix(event) {
        return Some(BodyFault::Prefix);
    }
    if !has_said(event, bytes) {
        return Some(BodyFault::Said);
    }
    None
}
