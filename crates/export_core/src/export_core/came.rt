//! What came of events, and what was said of signatures.
ghost use Rattle.std.specs.Prelude.{◌≡◌, ◌||◌, Contains, IfOk, OnOk, Some, flat_map, slice_get};
ghost use Rattle.std.specs.BTreeSet.{contains};
ghost use Rattle.std.specs.Option.{option_copied};
ghost use Rattle.validator_core.specs.Tables.EntryClaims.{came_to};
ghost use Rattle.claim_table.specs.declared.claim_table.signature.Signature.{Signature as SignatureValue};
ghost use Rattle.validator_core.specs.Tables.Hints.{KeepsBelow};
ghost use Rattle.validator_core.specs.Tables.Names as names;
ghost use Rattle.event_body.specs.declared.event_body.event.Event.{Event as EventValue};
ghost use Rattle.escrow.specs.EventIndex.Keys.{numbers_at};
ghost use Rattle.export_core.specs.ExportCore.Came.{HasEntries, HasYes, event_in, is_signature, name_cmp, same_signature, signature_cmp, yes_of};

use claim_table::Signature;
use escrow::Index;
use event_body::Event;
use journal::{Claim, Entry};
use lists::length_u32;
use std::alloc::{AllocError, Global};
use std::collections::BTreeSet;
use validator_core::{Name, claims_by, name_of};

/// The numbers of the entries by which bodies came, by the names of their events: hints, so whoever reads them compares.
pub(crate) fn entries_by_name(
    alloc: Global,
    events: &[Event],
    entries: &[Entry],
) -> Result<Index<Name>, AllocError>
    ensures { IfOk result (λ index. HasEntries events.now entries.now index) }
{
    let mut index = Index::new(alloc);
    for place in 0..entries.len() {
        note_event(&mut index, event_in(events, entries.get(place)), place)?;
    }
    Ok(index)
}

// Adds the number of an entry under the name of an event, where there is one.
fn note_event(
    index: &mut Index<Name>,
    event: Option<&Event>,
    place: usize,
) -> Result<(), AllocError>
    ensures added { OnOk result ((e : EventValue) → option_copied event.entry ≡ Some e
        → Contains (numbers_at name_cmp index.new (names.name_of e)) place) }
    ensures kept { OnOk result (KeepsBelow place (numbers_at name_cmp index.old) (numbers_at name_cmp index.new)) }
{
    match event {
        Some(event) => add_name(index, event, place),
        None => Ok(()),
    }
}

// Adds the number of an entry under the name of an event.
fn add_name(index: &mut Index<Name>, event: &Event, place: usize) -> Result<(), AllocError>
    ensures added { OnOk result (Contains (numbers_at name_cmp index.new (names.name_of event.now)) place) }
    ensures kept { OnOk result (KeepsBelow place (numbers_at name_cmp index.old) (numbers_at name_cmp index.new)) }
{
    let number = length_u32(place)?;
    index.add(name_of(event), number)
}

// The event of the body that came with an entry.
fn event_in<'a>(events: &'a [Event], entry: Option<&Entry>) -> Option<&'a Event>
    ensures { option_copied result ≡ event_in events.now (option_copied entry.entry) }
{
    match entry {
        Some(Entry::Took { body, .. }) => events.get(*body as usize),
        Some(Entry::Heard { .. }) | None => None,
    }
}

/// The signatures of which a verifier said yes.
pub(crate) fn good_signatures(
    alloc: Global,
    entries: &[Entry],
) -> Result<BTreeSet<Signature>, AllocError>
    ensures { IfOk result (λ good. HasYes entries.now good) }
{
    let mut good = BTreeSet::new(alloc);
    for entry in entries {
        note_yes(&mut good, yes_in(entry))?;
    }
    Ok(good)
}

// Adds a signature, where there is one.
fn note_yes(good: &mut BTreeSet<Signature>, signature: Option<Signature>) -> Result<(), AllocError>
    ensures { OnOk result ((s : SignatureValue) → contains signature_cmp good.new s
        ≡ (contains signature_cmp good.old s || is_signature signature s)) }
{
    match signature {
        Some(signature) => add_signature(good, signature),
        None => Ok(()),
    }
}

// Adds a signature.
fn add_signature(good: &mut BTreeSet<Signature>, signature: Signature) -> Result<(), AllocError>
    ensures { OnOk result ((s : SignatureValue) → contains signature_cmp good.new s
        ≡ (contains signature_cmp good.old s || same_signature signature s)) }
{
    good.insert(signature)?;
    Ok(())
}

// The signature of which an entry says yes.
fn yes_in(entry: &Entry) -> Option<Signature>
    ensures { result ≡ yes_of entry.now }
{
    match entry {
        Entry::Heard {
            body,
            key,
            sig,
            yes,
            ..
        } => {
            if *yes {
                Some(Signature {
                    body: *body,
                    key: *key,
                    sig: *sig,
                })
            } else {
                None
            }
        }
        Entry::Took { .. } => None,
    }
}

/// The claims that came by the entries of these numbers and stand on the event of a number.
pub(crate) fn claims_by_all(
    alloc: Global,
    events: &[Event],
    entries: &[Entry],
    places: &[u32],
    number: u32,
) -> Result<Vec<Claim>, AllocError>
    ensures { IfOk result (λ claims. claims.items
        ≡ flat_map (λ i. came_to events.now number (slice_get entries.now i)) places.now) }
{
    let mut claims = Vec::new(alloc);
    for place in places {
        claims.extend_from_slice(claims_by(events, entries.get(*place as usize), number))?;
    }
    Ok(claims)
}
