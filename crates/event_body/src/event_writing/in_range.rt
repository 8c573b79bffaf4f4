//! What the types of an event's parts hold by themselves, stated for proofs: a proof learns a value's range where the
//! value is read. Nothing else is done here.
ghost use Rattle.std.specs.Prelude.{IfSome};
ghost use Rattle.cesr_codes.specs.Spelling.{IsPrefix};
ghost use Rattle.sith.specs.OwnValues.{HasOwnValue};
ghost use Rattle.event_body.specs.EventBody.Typed.{IsTyped, IsTypedInception, IsTypedInteraction, IsTypedReceipt, IsTypedRotation};
ghost use Rattle.event_body.specs.EventWriting.Writable.{HasOwnThresholds};

use crate::event_body::{Event, Inception, Interaction, ReceiptBody, Rotation};
use cesr_codes::{Prefix, Spelled, all_in_range};

fn delegator(delegator: Option<Prefix>)
    ensures { IfSome delegator IsPrefix }
{
    if let Some(found) = delegator {
        found.in_range();
    }
}

fn inception(event: &Inception)
    ensures typed { IsTypedInception event.now }
    ensures thresholds { HasOwnValue event.now.kt × HasOwnValue event.now.nt }
{
    event.said.in_range();
    event.prefix.in_range();
    event.kt.own_value();
    all_in_range(event.keys.as_slice());
    event.nt.own_value();
    all_in_range(event.next.as_slice());
    let _toad = event.toad;
    all_in_range(event.list.as_slice());
    delegator(event.delegator);
}

fn rotation(event: &Rotation)
    ensures typed { IsTypedRotation event.now }
    ensures thresholds { HasOwnValue event.now.kt × HasOwnValue event.now.nt }
{
    event.said.in_range();
    event.prefix.in_range();
    let _sn = event.sn;
    event.prior.in_range();
    event.kt.own_value();
    all_in_range(event.keys.as_slice());
    event.nt.own_value();
    all_in_range(event.next.as_slice());
    let _toad = event.toad;
    all_in_range(event.cuts.as_slice());
    all_in_range(event.adds.as_slice());
}

fn interaction(event: &Interaction)
    ensures { IsTypedInteraction event.now }
{
    event.said.in_range();
    event.prefix.in_range();
    let _sn = event.sn;
    event.prior.in_range();
}

fn receipt(receipt: &ReceiptBody)
    ensures { IsTypedReceipt receipt.now }
{
    receipt.said.in_range();
    receipt.prefix.in_range();
    let _sn = receipt.sn;
}

pub(crate) fn in_range(event: &Event)
    ensures typed { IsTyped event.now }
    ensures thresholds { HasOwnThresholds event.now }
{
    match event {
        Event::Icp(event) | Event::Dip(event) => inception(event),
        Event::Rot(event) | Event::Drt(event) => rotation(event),
        Event::Ixn(event) => interaction(event),
        Event::Rct(found) => receipt(found),
    }
}
