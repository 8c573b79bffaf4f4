//! The rotation that the values of a body are the parts of.
ghost use Rattle.std.specs.Prelude.{◌≡◌, IfOk, IfErr};
ghost use Rattle.event_body.specs.BodyFields.Bodies.{AreOfForms};
ghost use Rattle.event_body.specs.BodyFields.Maps.{rotation_fields};
ghost use Rattle.event_body.specs.EventBody.FieldLists.{rotation_list};
ghost use Rattle.event_body.specs.EventBody.KeySets.{IsThresholdFault};
ghost use Rattle.event_body.specs.EventBody.Ranges.{IsRotation};
ghost use Rattle.event_body.specs.EventBody.Rules.{AreFew, AreShort, AreThresholds, HasFewDigits, HasFewMembers, HasThresholds};
ghost use Rattle.event_body.specs.EventBody.Spelling.{values_of};

use crate::body_fields::{Kind, digest_in, fixed_keys_in, prefix_in, values_in};
use crate::event_body::field_values::{RotationValues, rotation_values};
use crate::event_body::key_set::key_set;
use crate::event_body::numbers::{later_number, number};
use crate::event_body::{Event, ReadBody, Rotation};
use json_tree::Tree;
use std::alloc::Global;

// The rotation of these values.
fn rotation(alloc: Global, values: &RotationValues<'_>) -> Result<Rotation, ReadBody>
    requires forms { AreOfForms rotation_fields (rotation_list values.now) }
    requires few { HasFewMembers values.now.keys.now × HasFewMembers values.now.next.now }
    requires short { HasFewDigits values.now.sn.now × HasFewDigits values.now.toad.now }
    ensures ranges { IfOk result (λ e. IsRotation e) }
    ensures parts { IfOk result (λ e. rotation_list values.now ≡ values_of (Event.Rot e)) }
    ensures thresholds { IfOk result (λ _. AreThresholds values.now.kt.now values.now.keys.now values.now.nt.now
        values.now.next.now) }
    ensures fault { IfErr result (λ fault. IsThresholdFault
        (AreThresholds values.now.kt.now values.now.keys.now values.now.nt.now values.now.next.now) fault) }
{
    let cuts = fixed_keys_in(alloc, values.cuts)?;
    let adds = fixed_keys_in(alloc, values.adds)?;
    let anchors = values_in(alloc, values.anchors)?;
    let set = key_set(alloc, values.kt, values.keys, values.nt, values.next)?;
    Ok(Rotation {
        said: digest_in(values.said),
        prefix: prefix_in(values.prefix),
        sn: later_number(values.sn),
        prior: digest_in(values.prior),
        kt: set.kt,
        keys: set.keys,
        nt: set.nt,
        next: set.next,
        toad: number(values.toad),
        cuts,
        adds,
        anchors,
    })
}

/// The rotation whose parts the values are, of either kind.
pub(crate) fn rot(alloc: Global, values: &[Tree]) -> Result<Rotation, ReadBody>
    requires forms { AreOfForms rotation_fields values.now }
    requires few { AreFew Kind.Rot values.now }
    requires short { AreShort Kind.Rot values.now }
    ensures ranges { IfOk result (λ e. IsRotation e) }
    ensures parts { IfOk result (λ e. values.now ≡ values_of (Event.Rot e)) }
    ensures thresholds { IfOk result (λ _. HasThresholds Kind.Rot values.now) }
    ensures fault { IfErr result (λ fault. IsThresholdFault (HasThresholds Kind.Rot values.now) fault) }
{
    rotation(alloc, &rotation_values(values))
}
