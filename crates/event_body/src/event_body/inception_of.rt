//! The inception that the values of a body are the parts of.
ghost use Rattle.std.specs.Prelude.{◌≡◌, [], IfOk, IfErr, IfSome};
ghost use Rattle.cesr_codes.specs.Spelling.{IsPrefix};
ghost use Rattle.event_body.specs.BodyFields.Bodies.{AreOfForms};
ghost use Rattle.event_body.specs.BodyFields.Maps.{delegated_inception_fields, inception_fields};
ghost use Rattle.event_body.specs.EventBody.FieldLists.{inception_list};
ghost use Rattle.event_body.specs.EventBody.KeySets.{IsThresholdFault};
ghost use Rattle.event_body.specs.EventBody.Ranges.{IsInception};
ghost use Rattle.event_body.specs.EventBody.Rules.{AreFew, AreShort, AreThresholds, HasFewDigits, HasFewMembers, HasThresholds};
ghost use Rattle.event_body.specs.EventBody.Spelling.{delegator_values, values_of};

use crate::body_fields::{Kind, digest_in, fixed_keys_in, prefix_in, strings_in, values_in};
use crate::event_body::field_values::{InceptionValues, inception_values};
use crate::event_body::key_set::key_set;
use crate::event_body::numbers::number;
use crate::event_body::{Event, Inception, ReadBody};
use cesr_codes::Prefix;
use json_tree::Tree;
use std::alloc::Global;

// The inception of these values.
fn inception(
    alloc: Global,
    values: &InceptionValues<'_>,
    delegator: Option<Prefix>,
) -> Result<Inception, ReadBody>
    requires forms { AreOfForms inception_fields (inception_list values.now []) }
    requires few { HasFewMembers values.now.keys.now × HasFewMembers values.now.next.now }
    requires short { HasFewDigits values.now.toad.now }
    requires delegator { IfSome delegator IsPrefix }
    ensures ranges { IfOk result (λ e. IsInception e) }
    ensures parts { IfOk result (λ e. inception_list values.now (delegator_values delegator) ≡ values_of (Event.Icp e)) }
    ensures thresholds { IfOk result (λ _. AreThresholds values.now.kt.now values.now.keys.now values.now.nt.now
        values.now.next.now) }
    ensures fault { IfErr result (λ fault. IsThresholdFault
        (AreThresholds values.now.kt.now values.now.keys.now values.now.nt.now values.now.next.now) fault) }
{
    let list = fixed_keys_in(alloc, values.list)?;
    let traits = strings_in(alloc, values.traits)?;
    let anchors = values_in(alloc, values.anchors)?;
    let set = key_set(alloc, values.kt, values.keys, values.nt, values.next)?;
    Ok(Inception {
        said: digest_in(values.said),
        prefix: prefix_in(values.prefix),
        kt: set.kt,
        keys: set.keys,
        nt: set.nt,
        next: set.next,
        toad: number(values.toad),
        list,
        traits,
        anchors,
        delegator,
    })
}

/// The inception whose parts the values are.
pub(crate) fn icp(alloc: Global, values: &[Tree]) -> Result<Inception, ReadBody>
    requires forms { AreOfForms inception_fields values.now }
    requires few { AreFew Kind.Icp values.now }
    requires short { AreShort Kind.Icp values.now }
    ensures ranges { IfOk result (λ e. IsInception e) }
    ensures parts { IfOk result (λ e. values.now ≡ values_of (Event.Icp e)) }
    ensures thresholds { IfOk result (λ _. HasThresholds Kind.Icp values.now) }
    ensures fault { IfErr result (λ fault. IsThresholdFault (HasThresholds Kind.Icp values.now) fault) }
{
    inception(alloc, &inception_values(values), None)
}

/// The delegated inception whose parts the values are.
pub(crate) fn dip(alloc: Global, values: &[Tree]) -> Result<Inception, ReadBody>
    requires forms { AreOfForms delegated_inception_fields values.now }
    requires few { AreFew Kind.Dip values.now }
    requires short { AreShort Kind.Dip values.now }
    ensures ranges { IfOk result (λ e. IsInception e) }
    ensures parts { IfOk result (λ e. values.now ≡ values_of (Event.Dip e)) }
    ensures thresholds { IfOk result (λ _. HasThresholds Kind.Dip values.now) }
    ensures fault { IfErr result (λ fault. IsThresholdFault (HasThresholds Kind.Dip values.now) fault) }
{
    let parts = inception_values(values);
    match parts.rest {
        [delegator] => inception(alloc, &parts, Some(prefix_in(delegator))),
        _ => unreachable!(),
    }
}
