//! The rule of witnesses: no key stands twice, and so many of them can be wanted.
ghost use Rattle.std.specs.Prelude.{◌↔◌, Contains, IsTrue};
ghost use Rattle.event_body.specs.EventBody.Rules as rules;
ghost use Rattle.event_body.specs.EventBody.Rules.{AreDistinct, AreApart, IsToadOf, HasWitnesses, ChangesWitnesses};

use crate::event_body::{Event, Inception, Rotation};
use cesr_codes::Key;

fn has_key(keys: &[Key], key: &Key) -> bool
    ensures { IsTrue result ↔ Contains keys.now key.now }
{
    keys.contains(key)
}

// Whether no key stands twice.
fn are_distinct(keys: &[Key]) -> bool
    ensures { IsTrue result ↔ AreDistinct keys.now }
{
    match keys.split_first() {
        Some((key, others)) => !has_key(others, key) && are_distinct(others),
        None => true,
    }
}

// Whether no key is in both lists.
fn are_apart(keys: &[Key], others: &[Key]) -> bool
    ensures { IsTrue result ↔ AreApart keys.now others.now }
{
    match keys.split_first() {
        Some((key, rest)) => !has_key(others, key) && are_apart(rest, others),
        None => true,
    }
}

// Whether the receipts of so many of the witnesses can be wanted.
fn is_toad_of(toad: u64, witnesses: usize) -> bool
    ensures { IsTrue result ↔ IsToadOf toad witnesses }
{
    toad <= witnesses as u64 && (toad >= 1 || witnesses == 0)
}

fn has_witnesses(event: &Inception) -> bool
    ensures { IsTrue result ↔ HasWitnesses event.now }
{
    are_distinct(event.list.as_slice()) && is_toad_of(event.toad, event.list.len())
}

fn changes_witnesses(event: &Rotation) -> bool
    ensures { IsTrue result ↔ ChangesWitnesses event.now }
{
    let cuts = event.cuts.as_slice();
    let adds = event.adds.as_slice();
    are_distinct(cuts) && (are_distinct(adds) && are_apart(cuts, adds))
}

/// Whether the event keeps the rule of witnesses.
pub(crate) fn are_witnesses(event: &Event) -> bool
    ensures { IsTrue result ↔ rules.AreWitnesses event.now }
{
    match event {
        Event::Icp(event) | Event::Dip(event) => has_witnesses(event),
        Event::Rot(event) | Event::Drt(event) => changes_witnesses(event),
        Event::Ixn(_) | Event::Rct(_) => true,
    }
}
