//! An event with the digest of its own text.
ghost use Rattle.std.specs.Prelude.{◌≡◌, ◌≢◌, ◌⊎◌, ◌≤◌, Ok, Err, length, IfOk, IfErr};
ghost use Rattle.json_tree.specs.declared.tree.Tree.TheVariants.{Str};
ghost use Rattle.said_digest.specs.Replaced.{placeholder};
ghost use Rattle.event_body.specs.EventBody.Typed.{IsTyped};
ghost use Rattle.event_body.specs.EventBody.Judging.{IsSpelled};
ghost use Rattle.event_body.specs.EventBody.Rules as rules;
ghost use Rattle.event_body.specs.EventWriting.Faults.{IsFaultOf, IsLengthFault};
ghost use Rattle.event_body.specs.EventWriting.Sealed as specs;
ghost use Rattle.event_body.specs.EventWriting.Writable.{HasOwnThresholds, IsWritable};

use crate::body_fields::prefix_tree;
use crate::event_body::{BodyFault, Event, Inception, Interaction, ReadBody, Rotation};
use crate::event_writing::body::{body_text, write_body};
use crate::event_writing::in_range::in_range;
use crate::event_writing::values::values;
use cesr_codes::{Digest, DigestCode, Prefix};
use json_tree::Tree;
use lists::{CopyValue, Items};
use said_digest::digest_of;
use std::alloc::{AllocError, Global};

/// The event with the digest of its own text under this code, or the fault that its text has then. An inception's
/// prefix that is a digest becomes this one. A receipt stays as it is.
pub fn sealed(alloc: Global, event: &Event, code: DigestCode) -> Result<Event, ReadBody>
    requires { IsWritable event.now }
    ensures sealed { IfOk result (λ sealed. sealed ≡ specs.sealed_event code event.now) }
    ensures spelled { IfOk result (λ sealed. IsSpelled sealed) }

    // A fault is the first that the text has. It is never one of the digest.
    ensures fault { IfErr result (λ fault. IsFaultOf (specs.sealed_event code event.now) fault) }
    ensures said { result ≢ Err (ReadBody.Fault BodyFault.Said) }

    // Where a body spells the event with its digest, that is the answer, but for want of memory.
    ensures whole { IsSpelled (specs.sealed_event code event.now)
        → (result ≡ Ok (specs.sealed_event code event.now)) ⊎ (result ≡ Err ReadBody.OutOfMemory) }
{
    seal(alloc, event, code)
}

fn seal(alloc: Global, event: &Event, code: DigestCode) -> Result<Event, ReadBody>
    requires { IsWritable event.now }
    ensures sealed { IfOk result (λ sealed. sealed ≡ specs.sealed_event code event.now) }
    ensures spelled { IfOk result (λ sealed. IsSpelled sealed) }
    ensures fault { IfErr result (λ fault. IsFaultOf (specs.sealed_event code event.now) fault) }
    ensures said { result ≢ Err (ReadBody.Fault BodyFault.Said) }
{
    in_range(event);
    match digested_text(alloc, event) {
        Ok(text) => sealed_with(alloc, event, digest_of(code, &text)),
        Err(fault) => Err(fault),
    }
}

// The event with this digest, where its text is a body.
fn sealed_with(alloc: Global, event: &Event, said: Digest) -> Result<Event, ReadBody>
    requires { IsWritable event.now }
    ensures sealed { IfOk result (λ sealed. sealed ≡ specs.with_digest said event.now) }
    ensures spelled { IfOk result (λ sealed. IsSpelled sealed) }
    ensures fault { IfErr result (λ fault. IsFaultOf (specs.with_digest said event.now) fault) }
{
    let sealed = with_digest(alloc, event, said)?;
    match write_body(alloc, &sealed) {
        Ok(_) => Ok(sealed),
        Err(fault) => {
            drop(sealed);
            Err(fault)
        }
    }
}

/// The event's text with placeholders, where it has at most 65,535 bytes.
pub(crate) fn digested_text(alloc: Global, event: &Event) -> Result<Vec<u8>, ReadBody>
    requires typed { IsTyped event.now }
    requires thresholds { HasOwnThresholds event.now }
    requires writable { IsWritable event.now }
    ensures text { IfOk result (λ text. (text.items ≡ rules.digested_text event.now) × (length text.items ≤ 65535)) }
    ensures large { IfErr result (λ fault. IsLengthFault (rules.digested_text event.now) fault) }
{
    let values = digested_values(alloc, event)?;
    body_text(alloc, event.body_kind(), values.as_slice())
}

// The values of the event's fields with placeholders.
fn digested_values(alloc: Global, event: &Event) -> Result<Items<Tree>, AllocError>
    ensures { IfOk result (λ values. values ≡ rules.digested_values event.now) }
{
    let said = placeholder_tree(alloc)?;
    let prefix = hidden_prefix(alloc, event)?;
    let values = values(alloc, said, prefix, event)?;
    Ok(values)
}

// What stands for the prefix when the digest is computed.
fn hidden_prefix(alloc: Global, event: &Event) -> Result<Tree, AllocError>
    ensures { IfOk result (λ tree. tree ≡ rules.hidden_prefix event.now) }
{
    if event.hides_prefix() {
        placeholder_tree(alloc)
    } else {
        prefix_tree(alloc, &event.prefix())
    }
}

// What stands for a digest while it is computed.
#[tactic(auto, unfolding(said_digest::specs::Replaced::placeholder))]
fn placeholder_tree(alloc: Global) -> Result<Tree, AllocError>
    ensures { IfOk result (λ tree. tree ≡ Str placeholder) }
{
    Ok(Tree::Str(Items::from_vec(vec![in alloc; b'#'; 44]?)))
}

/// The event with this digest.
pub(crate) fn with_digest(alloc: Global, event: &Event, said: Digest) -> Result<Event, AllocError>
    ensures { IfOk result (λ sealed. sealed ≡ specs.with_digest said event.now) }
{
    match event {
        Event::Icp(event) => Ok(Event::Icp(sealed_inception(alloc, event, said)?)),
        Event::Rot(event) => Ok(Event::Rot(sealed_rotation(alloc, event, said)?)),
        Event::Ixn(event) => Ok(Event::Ixn(sealed_interaction(alloc, event, said)?)),
        Event::Dip(event) => Ok(Event::Dip(sealed_inception(alloc, event, said)?)),
        Event::Drt(event) => Ok(Event::Drt(sealed_rotation(alloc, event, said)?)),
        Event::Rct(receipt) => Ok(Event::Rct(*receipt)),
    }
}

fn sealed_inception(alloc: Global, event: &Inception, said: Digest) -> Result<Inception, AllocError>
    ensures { IfOk result (λ sealed. sealed
        ≡ record event.now { said = said; prefix = specs.sealed_prefix event.now.prefix said }) }
{
    let mut sealed = event.copy(alloc)?;
    sealed.said = said;
    sealed.prefix = sealed_prefix(event.prefix, said);
    Ok(sealed)
}

fn sealed_rotation(alloc: Global, event: &Rotation, said: Digest) -> Result<Rotation, AllocError>
    ensures { IfOk result (λ sealed. sealed ≡ record event.now { said = said }) }
{
    let mut sealed = event.copy(alloc)?;
    sealed.said = said;
    Ok(sealed)
}

fn sealed_interaction(
    alloc: Global,
    event: &Interaction,
    said: Digest,
) -> Result<Interaction, AllocError>
    ensures { IfOk result (λ sealed. sealed ≡ record event.now { said = said }) }
{
    let mut sealed = event.copy(alloc)?;
    sealed.said = said;
    Ok(sealed)
}

// A prefix that is a digest becomes this one.
fn sealed_prefix(prefix: Prefix, said: Digest) -> Prefix
    ensures { result ≡ specs.sealed_prefix prefix said }
{
    match prefix {
        Prefix::Basic(key) => Prefix::Basic(key),
        Prefix::Said(_) => Prefix::Said(said),
    }
}
