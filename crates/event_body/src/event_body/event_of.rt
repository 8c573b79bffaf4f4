//! The event that the values of a body are the parts of.
ghost use Rattle.std.specs.Prelude.{◌≡◌, IfOk, IfErr};
ghost use Rattle.event_body.specs.BodyFields.Bodies.{AreOfForms};
ghost use Rattle.event_body.specs.BodyFields.Maps.{fields_of, interaction_fields, receipt_fields};
ghost use Rattle.event_body.specs.EventBody.KeySets.{IsThresholdFault};
ghost use Rattle.event_body.specs.EventBody.Ranges.{AreInRange, IsInteraction, IsReceipt};
ghost use Rattle.event_body.specs.EventBody.Rules.{AreFew, AreShort, HasThresholds};
ghost use Rattle.event_body.specs.EventBody.Spelling.{body_kind, values_of};

use crate::body_fields::{Kind, digest_in, prefix_in, values_in};
use crate::event_body::field_values::split;
use crate::event_body::inception_of::{dip, icp};
use crate::event_body::numbers::{later_number, number};
use crate::event_body::rotation_of::rot;
use crate::event_body::{Event, Interaction, ReadBody, ReceiptBody};
use json_tree::Tree;
use std::alloc::{AllocError, Global};

#[tactic(auto, using(crate::proofs::EventBodyLemmas::Values::values_held))]
fn ixn(alloc: Global, values: &[Tree]) -> Result<Interaction, AllocError>
    requires forms { AreOfForms interaction_fields values.now }
    requires short { AreShort Kind.Ixn values.now }
    ensures ranges { IfOk result (λ e. IsInteraction e) }
    ensures parts { IfOk result (λ e. values.now ≡ values_of (Event.Ixn e)) }
{
    let (said, rest) = split(values);
    let (prefix, rest) = split(rest);
    let (sn, rest) = split(rest);
    let (prior, rest) = split(rest);
    let (anchors, _) = split(rest);
    Ok(Interaction {
        said: digest_in(said),
        prefix: prefix_in(prefix),
        sn: later_number(sn),
        prior: digest_in(prior),
        anchors: values_in(alloc, anchors)?,
    })
}

fn rct(values: &[Tree]) -> ReceiptBody
    requires forms { AreOfForms receipt_fields values.now }
    requires short { AreShort Kind.Rct values.now }
    ensures ranges { IsReceipt result }
    ensures parts { values.now ≡ values_of (Event.Rct result) }
{
    let (said, rest) = split(values);
    let (prefix, rest) = split(rest);
    let (sn, _) = split(rest);
    ReceiptBody {
        said: digest_in(said),
        prefix: prefix_in(prefix),
        sn: number(sn),
    }
}

/// The event of the kind whose parts the values are.
pub(crate) fn event_of(alloc: Global, kind: Kind, values: &[Tree]) -> Result<Event, ReadBody>
    requires forms { AreOfForms (fields_of kind) values.now }
    requires few { AreFew kind values.now }
    requires short { AreShort kind values.now }
    ensures kind { IfOk result (λ event. body_kind event ≡ kind) }
    ensures ranges { IfOk result (λ event. AreInRange event) }
    ensures parts { IfOk result (λ event. values.now ≡ values_of event) }
    ensures thresholds { IfOk result (λ _. HasThresholds kind values.now) }
    ensures fault { IfErr result (λ fault. IsThresholdFault (HasThresholds kind values.now) fault) }
{
    match kind {
        Kind::Icp => Ok(Event::Icp(icp(alloc, values)?)),
        Kind::Rot => Ok(Event::Rot(rot(alloc, values)?)),
        Kind::Ixn => Ok(Event::Ixn(ixn(alloc, values)?)),
        Kind::Dip => Ok(Event::Dip(dip(alloc, values)?)),
        Kind::Drt => Ok(Event::Drt(rot(alloc, values)?)),
        Kind::Rct => Ok(Event::Rct(rct(values))),
    }
}
