//! The values of an event's fields.
ghost use Rattle.std.specs.Prelude.{◌≡◌, ◌++◌, ◌∷◌, [], IfOk, OnOk};
ghost use Rattle.sith.specs.Thresholds.{threshold_value};
ghost use Rattle.event_body.specs.BodyFields.Forms.{digest_value, digests_value, keys_value, number_value};
ghost use Rattle.event_body.specs.EventBody.Spelling as spelling;
ghost use Rattle.event_body.specs.EventBody.Spelling.{delegator_values};

use crate::body_fields::{
    digest_tree, digests_tree, keys_tree, number_tree, prefix_tree, strings_tree,
};
use crate::event_body::{Event, Inception, Interaction, ReceiptBody, Rotation};
use cesr_codes::{Digest, Key, Prefix};
use json_tree::Tree;
use lists::{CopyValue, Items};
use sith::Threshold;
use std::alloc::{AllocError, Global};

/// The values of the event's fields, with these as the first two, the digest's and the prefix's.
pub(crate) fn values(
    alloc: Global,
    said: Tree,
    prefix: Tree,
    event: &Event,
) -> Result<Items<Tree>, AllocError>
    ensures { IfOk result (λ values. values ≡ said ∷ prefix ∷ spelling.further_values event.now) }
{
    let mut values = vec![in alloc; said, prefix]?;
    match event {
        Event::Icp(event) | Event::Dip(event) => push_inception(alloc, &mut values, event)?,
        Event::Rot(event) | Event::Drt(event) => push_rotation(alloc, &mut values, event)?,
        Event::Ixn(event) => push_interaction(alloc, &mut values, event)?,
        Event::Rct(receipt) => values.push(number_tree(alloc, receipt.sn)?)?,
    }
    Ok(Items::from_vec(values))
}

fn push_inception(
    alloc: Global,
    values: &mut Vec<Tree>,
    event: &Inception,
) -> Result<(), AllocError>
    ensures { OnOk result (values.new.items ≡ values.old.items ++ spelling.inception_values event.now) }
{
    values.push(number_tree(alloc, 0)?)?;
    push_keys(alloc, values, &event.kt, &event.keys)?;
    push_next(alloc, values, &event.nt, &event.next)?;
    values.push(number_tree(alloc, event.toad)?)?;
    values.push(keys_tree(alloc, &event.list)?)?;
    values.push(strings_tree(alloc, &event.traits)?)?;
    values.push(Tree::List(event.anchors.copy(alloc)?))?;
    push_delegator(alloc, values, &event.delegator)
}

fn push_delegator(
    alloc: Global,
    values: &mut Vec<Tree>,
    delegator: &Option<Prefix>,
) -> Result<(), AllocError>
    ensures { OnOk result (values.new.items ≡ values.old.items ++ delegator_values delegator.now) }
{
    if let Some(prefix) = delegator {
        values.push(prefix_tree(alloc, prefix)?)?;
    }
    Ok(())
}

fn push_keys(
    alloc: Global,
    values: &mut Vec<Tree>,
    kt: &Threshold,
    keys: &Items<Key>,
) -> Result<(), AllocError>
    ensures { OnOk result (values.new.items ≡ values.old.items ++ threshold_value kt.now ∷ keys_value keys.now ∷ []) }
{
    values.push(kt.tree(alloc)?)?;
    values.push(keys_tree(alloc, keys)?)?;
    Ok(())
}

fn push_next(
    alloc: Global,
    values: &mut Vec<Tree>,
    nt: &Threshold,
    next: &Items<Digest>,
) -> Result<(), AllocError>
    ensures { OnOk result (values.new.items ≡ values.old.items ++ threshold_value nt.now ∷ digests_value next.now ∷ []) }
{
    values.push(nt.tree(alloc)?)?;
    values.push(digests_tree(alloc, next)?)?;
    Ok(())
}

fn push_rotation(alloc: Global, values: &mut Vec<Tree>, event: &Rotation) -> Result<(), AllocError>
    ensures { OnOk result (values.new.items ≡ values.old.items ++ spelling.rotation_values event.now) }
{
    push_place(alloc, values, event.sn, &event.prior)?;
    push_keys(alloc, values, &event.kt, &event.keys)?;
    push_next(alloc, values, &event.nt, &event.next)?;
    push_changes(alloc, values, event)?;
    values.push(Tree::List(event.anchors.copy(alloc)?))?;
    Ok(())
}

fn push_changes(alloc: Global, values: &mut Vec<Tree>, event: &Rotation) -> Result<(), AllocError>
    ensures { OnOk result (values.new.items ≡ values.old.items
        ++ number_value event.now.toad ∷ keys_value event.now.cuts ∷ keys_value event.now.adds ∷ []) }
{
    values.push(number_tree(alloc, event.toad)?)?;
    values.push(keys_tree(alloc, &event.cuts)?)?;
    values.push(keys_tree(alloc, &event.adds)?)?;
    Ok(())
}

fn push_place(
    alloc: Global,
    values: &mut Vec<Tree>,
    sn: u64,
    prior: &Digest,
) -> Result<(), AllocError>
    ensures { OnOk result (values.new.items ≡ values.old.items ++ number_value sn ∷ digest_value prior.now ∷ []) }
{
    values.push(number_tree(alloc, sn)?)?;
    values.push(digest_tree(alloc, prior)?)?;
    Ok(())
}

fn push_interaction(
    alloc: Global,
    values: &mut Vec<Tree>,
    event: &Interaction,
) -> Result<(), AllocError>
    ensures { OnOk result (values.new.items ≡ values.old.items ++ spelling.interaction_values event.now) }
{
    push_place(alloc, values, event.sn, &event.prior)?;
    values.push(Tree::List(event.anchors.copy(alloc)?))?;
    Ok(())
}
