//! The witnesses of both events that signed both.
ghost use Rattle.std.specs.Prelude.{◌≡◌, ◌++◌, List, filter_map, option_to_list, IfOk, OnOk};
ghost use Rattle.blame_core.specs.BlameCore.Culprits.{HasKeys, culprit_of};
ghost use Rattle.blame_core.specs.BlameCore.Signatures.{signature_by};
ghost use Rattle.cesr_codes.specs.declared.key.Key.{Key as KeyValue};
ghost use Rattle.key_state.specs.Same.{distinct, same_key};

use crate::blame_core::Culprit;
use crate::blame_core::signatures::{Signatures, signature_of};
use cesr_codes::Key;
use lists::Items;
use std::alloc::{AllocError, Global};
use std::collections::BTreeSet;

/// The members of both lists that have a good signature on both bodies, in the order of the first list. It goes over
/// each list once.
pub(crate) fn culprits_of(
    alloc: Global,
    witnesses: &[Key],
    others: &[Key],
    one: &Signatures,
    other: &Signatures,
) -> Result<Items<Culprit>, AllocError>
    ensures { IfOk result (λ culprits. culprits
        ≡ filter_map (culprit_of others.now (signature_by one.now) (signature_by other.now))
        (distinct same_key witnesses.now)) }
{
    let others = set_of(alloc, others)?;
    let mut seen = BTreeSet::new(alloc);
    let mut culprits = Items::new(alloc);
    for key in witnesses {
        if seen.insert(*key)? {
            add_culprit(&mut culprits, key, &others, one, other)?;
        }
    }
    Ok(culprits)
}

// The keys of a list.
fn set_of(alloc: Global, keys: &[Key]) -> Result<BTreeSet<Key>, AllocError>
    ensures { IfOk result (HasKeys keys.now) }
{
    let mut set = BTreeSet::new(alloc);
    for key in keys {
        set.insert(*key)?;
    }
    Ok(set)
}

// Adds the witness, where it is a member of the other list and has a good signature on both bodies.
fn add_culprit(
    culprits: &mut Items<Culprit>,
    key: &Key,
    others: &BTreeSet<Key>,
    one: &Signatures,
    other: &Signatures,
) -> Result<(), AllocError>
    ensures { OnOk result ((keys : List KeyValue) → HasKeys keys others.now → culprits.new ≡ culprits.old
        ++ option_to_list (culprit_of keys (signature_by one.now) (signature_by other.now) key.now)) }
{
    if !others.contains(key) {
        return Ok(());
    }
    if let (Some(one), Some(other)) = (signature_of(one, key), signature_of(other, key)) {
        culprits.push(Culprit {
            key: *key,
            one,
            other,
        })?;
    }
    Ok(())
}
