//! Changes of a witness list.
ghost use Rattle.std.specs.Prelude.{◌≡◌, filter, length, not, IfOk};
ghost use Rattle.std.specs.List.{list_any};
ghost use Rattle.key_state.specs.KeyStates as states;
ghost use Rattle.key_state.specs.Same as same;

use cesr_codes::Key;
use event_body::{Event, Rotation};
use lists::{Items, copy_items};
use std::alloc::{AllocError, Global};

// How many members a witness list may have.
const MOST: usize = 64;

/// Whether the key is in the list.
pub fn has_key(keys: &[Key], key: &Key) -> bool
    ensures { result ≡ same.has_key keys.now key.now }
{
    keys.iter().any(|held| is_key(held, key))
}

/// Whether it is the key. Keys that differ mostly do so in their first byte, so that one is compared first: a list is then gone
/// over in a fifth of the time.
pub fn is_key(held: &Key, key: &Key) -> bool
    ensures { result ≡ same.same_key held.now key.now }
{
    held.raw[0] == key.raw[0] && held == key
}

// Whether a cut isn't in the list.
fn cuts_other(old: &[Key], cuts: &[Key]) -> bool
    ensures { result ≡ list_any (λ k. not (same.has_key old.now k)) cuts.now }
{
    cuts.iter().any(|key| !has_key(old, key))
}

// Whether an add is in the list.
fn adds_again(old: &[Key], adds: &[Key]) -> bool
    ensures { result ≡ list_any (same.has_key old.now) adds.now }
{
    adds.iter().any(|key| has_key(old, key))
}

/// How many members of the list aren't cut.
pub fn left_count(old: &[Key], cuts: &[Key]) -> usize
    ensures { result ≡ length (filter (λ k. not (same.has_key cuts.now k)) old.now) }
{
    old.iter().filter(|key| !has_key(cuts, key)).count()
}

/// How many members the list has after the rotation: those that aren't cut, and the adds.
pub fn changed_count(old: &[Key], event: &Rotation) -> usize
    ensures { result ≡ length (states.changed_list old.now event.now) }
{
    let cuts = event.cuts.as_slice();
    old.iter()
        .filter(|key| !has_key(cuts, key))
        .chain(event.adds.as_slice().iter())
        .count()
}

// Whether the number of receipts that are wanted fits so many witnesses.
fn fits_count(toad: u64, witnesses: usize) -> bool
    ensures { result ≡ states.fits_count toad witnesses }
{
    if witnesses == 0 {
        toad == 0
    } else {
        toad >= 1 && toad <= witnesses as u64
    }
}

/// Whether the rotation cuts or adds what it can't, or leaves more witnesses than may be, or a number of receipts that
/// doesn't fit them. It takes no memory.
pub(crate) fn is_bad_change(old: &[Key], event: &Rotation) -> bool
    ensures { result ≡ states.is_bad_change old.now event.now }
{
    let count = changed_count(old, event);
    cuts_other(old, event.cuts.as_slice())
        || adds_again(old, event.adds.as_slice())
        || count > MOST
        || !fits_count(event.toad, count)
}

/// The list without the cuts, then the adds.
pub(crate) fn changed_list(
    alloc: Global,
    old: &[Key],
    event: &Rotation,
) -> Result<Items<Key>, AllocError>
    ensures { IfOk result (λ list. list ≡ states.changed_list old.now event.now) }
{
    let cuts = event.cuts.as_slice();
    let mut list: Vec<Key> = old
        .iter()
        .copied()
        .filter(|key| !has_key(cuts, key))
        .collect(alloc)?;
    list.extend_from_slice(event.adds.as_slice())?;
    Ok(Items::from_vec(list))
}

/// The witness list behind an event, where this one is before it: an inception's own, what a rotation changes it to, or the
/// same.
pub fn list_behind(alloc: Global, before: &[Key], event: &Event) -> Result<Items<Key>, AllocError>
    ensures { IfOk result (λ list. list ≡ states.list_behind before.now event.now) }
{
    match event {
        Event::Icp(event) | Event::Dip(event) => copy_items(&event.list, alloc),
        Event::Rot(event) | Event::Drt(event) => changed_list(alloc, before, event),
        Event::Ixn(_) | Event::Rct(_) => Ok(Items::from_vec(Vec::from_slice(alloc, before)?)),
    }
}
