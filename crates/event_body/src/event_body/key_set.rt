//! The keys of an event, with their thresholds.
ghost use Rattle.std.specs.Prelude.{◌≡◌, ◌↔◌, ◌≤◌, List, length, IsTrue, IfOk, IfErr};
ghost use Rattle.json_tree.specs.declared.tree.Tree.{Tree};
ghost use Rattle.json_tree.specs.declared.tree.Tree.TheVariants.{List as TreeList};
ghost use Rattle.sith.specs.Rules.{IsReadFor};
ghost use Rattle.sith.specs.Thresholds.{Spells, threshold_value};
ghost use Rattle.event_body.specs.BodyFields.Forms.{IsOfForm};
ghost use Rattle.event_body.specs.EventBody.KeySets.{AreOfKeySet, IsThresholdFault};
ghost use Rattle.event_body.specs.EventBody.Rules.{AreThresholds, HasFewMembers, IsThresholdOf};

use crate::body_fields::{Form, digests_in, keys_in, members_in};
use crate::event_body::{BodyFault, ReadBody};
use cesr_codes::{Digest, Key};
use json_tree::Tree;
use lists::Items;
use sith::{SithFault, Threshold};
use std::alloc::Global;

/// The signing keys and the digests of the next ones.
#[derive(Drop)]
pub(crate) struct KeySet {
    pub(crate) kt: Threshold,
    pub(crate) keys: Items<Key>,
    pub(crate) nt: Threshold,
    pub(crate) next: Items<Digest>,
}

fn is_out_of_memory(fault: SithFault) -> bool
    ensures { IsTrue result ↔ (fault ≡ SithFault.OutOfMemory) }
{
    matches!(fault, SithFault::OutOfMemory)
}

// The threshold that the value spells, for so many as the list has.
fn threshold(alloc: Global, value: &Tree, members: &[Tree]) -> Result<Threshold, ReadBody>
    requires { length members.now ≤ 64 }
    ensures value { IfOk result (λ threshold. value.now ≡ threshold_value threshold) }
    ensures spelled { IfOk result (λ threshold. Spells threshold value.now) }
    ensures read { IfOk result (λ threshold. IsReadFor threshold (length members.now)) }
    ensures fault { IfErr result (λ fault. IsThresholdFault (IsThresholdOf value.now (TreeList members.now)) fault) }
{
    match Threshold::read(alloc, value, members.len() as u16) {
        Ok(threshold) => Ok(threshold),
        Err(fault) if is_out_of_memory(fault) => Err(ReadBody::OutOfMemory),
        Err(_) => Err(ReadBody::Fault(BodyFault::Threshold)),
    }
}

/// The keys and the digests that the values of `kt`, `k`, `nt` and `n` spell.
pub(crate) fn key_set(
    alloc: Global,
    kt: &Tree,
    keys: &Tree,
    nt: &Tree,
    next: &Tree,
) -> Result<KeySet, ReadBody>
    requires forms { IsOfForm Form.Keys keys.now × IsOfForm Form.Digests next.now }
    requires few { HasFewMembers keys.now × HasFewMembers next.now }
    ensures values { IfOk result (λ set. AreOfKeySet set kt.now keys.now nt.now next.now) }
    ensures thresholds { IfOk result (λ set. AreThresholds kt.now keys.now nt.now next.now) }
    ensures fault { IfErr result (λ fault. IsThresholdFault (AreThresholds kt.now keys.now nt.now next.now) fault) }
{
    let members = members_in(keys);
    if members.is_empty() {
        return Err(ReadBody::Fault(BodyFault::Threshold));
    }
    let kt = threshold(alloc, kt, members)?;
    let nt = threshold(alloc, nt, members_in(next))?;
    let keys = keys_in(alloc, keys)?;
    let next = digests_in(alloc, next)?;
    Ok(KeySet { kt, keys, nt, next })
}
