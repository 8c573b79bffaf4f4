//! The signatures on a body that came, and of each key the first that a verifier called good.
ghost use Rattle.std.specs.Prelude.{◌≡◌, ◌++◌, Some, flat_map, map, option_map, slice_get, IfOk, OnOk};
ghost use Rattle.blame_core.specs.BlameCore.NamedEntries.{HasNamed};
ghost use Rattle.blame_core.specs.BlameCore.Signatures.{AreSignatures, came_at, came_with, good_at, good_in, is_body};
ghost use Rattle.blame_core.specs.BlameCore.Signatures.{is_receipt_of, signature_by, bears_on};
ghost use Rattle.validator_core.specs.Tables.View.{body_of};
ghost use Rattle.journal.specs.Journal.History as history;
ghost use Rattle.journal.specs.Journal.Journals.{whole};
ghost use Rattle.journal.specs.declared.journal.body.Body.{Body};
ghost use Rattle.validator_core.specs.ValidatorCore.View.{told_of};

use crate::blame_core::first_signatures::first_places;
use crate::blame_core::signed::Signed;
use cesr_codes::{Key, Sig};
use escrow::Index;
use event_body::Event;
use journal::{Claim, Entry, claimed_sig};
use std::alloc::{AllocError, Global};
use std::collections::BTreeMap;
use validator_core::{Core, Name, name_of};

/// The signatures on a body: those that came, and where the first good one of each key stands among them.
#[derive(Drop)]
pub(crate) struct Signatures {
    /// Those that came with it and with the receipts for it, in order of coming: its controller's and its witnesses'.
    pub(crate) came: Vec<Sig>,
    /// Of each key the place of the first that came and that a verifier called the key's, where there is one.
    pub(crate) firsts: BTreeMap<Key, usize>,
}

/// The signatures on the body of a number, by the entries with the name of its event alone.
pub(crate) fn signatures_on(
    alloc: Global,
    core: &Core,
    named: &Index<Name>,
    number: u32,
) -> Result<Signatures, AllocError>
    requires { HasNamed core.now named.now }
    ensures { IfOk result (λ signatures. (b : Body) → slice_get core.now.held number ≡ Some b
        → AreSignatures (told_of core.now) b signatures) }
{
    let mut came = Vec::new(alloc);
    // For the prover alone: what is true of each core is said of its journal.
    let _journal = core.journal();
    // Each number that a core gives has a body; on another nothing came.
    let (Some(text), Some(event)) = (core.body(number), core.event(number)) else {
        return Ok(Signatures {
            came,
            firsts: BTreeMap::new(alloc),
        });
    };
    let entries = named.numbers(&name_of(event));
    add_all_came(&mut came, core, text, event, entries)?;
    let mut good = Vec::new(alloc);
    add_all_good(&mut good, core, text, entries)?;
    let firsts = first_places(alloc, came.as_slice(), good.as_slice())?;
    Ok(Signatures { came, firsts })
}

/// The first signature that came of which a verifier said that it is the key's.
pub(crate) fn signature_of(signatures: &Signatures, key: &Key) -> Option<Sig>
    ensures { result ≡ signature_by signatures.now key.now }
{
    let place = *signatures.firsts.get(key)?;
    signatures.came.as_slice().get(place).copied()
}

// Adds the signatures of these entries that stand on a body.
fn add_all_came(
    came: &mut Vec<Sig>,
    core: &Core,
    text: &[u8],
    event: &Event,
    entries: &[u32],
) -> Result<(), AllocError>
    ensures { OnOk result (came.new.items ≡ came.old.items
        ++ flat_map (λ i. came_at core.now.held (body_of text.now event.now) (slice_get core.now.entries i))
        entries.now) }
{
    for number in entries {
        if let Some(entry) = entry_at(core, *number) {
            add_came(came, core, text, event, entry)?;
        }
    }
    Ok(())
}

// The entry of a number.
fn entry_at(core: &Core, number: u32) -> Option<&Entry>
    ensures { option_map (λ e. e.now) result ≡ slice_get core.now.entries number }
{
    core.journal().entries.as_slice().get(number as usize)
}

// Adds the signatures of an entry that stand on the body.
fn add_came(
    came: &mut Vec<Sig>,
    core: &Core,
    text: &[u8],
    event: &Event,
    entry: &Entry,
) -> Result<(), AllocError>
    ensures { OnOk result (came.new.items
        ≡ came.old.items ++ came_with (body_of text.now event.now) (whole core.now.held entry.now)) }
{
    if let Entry::Took { body, claims, .. } = entry {
        if bears_on(core, *body, text, event) {
            return add_claims(came, claims.as_slice());
        }
    }
    Ok(())
}

fn add_claims(came: &mut Vec<Sig>, claims: &[Claim]) -> Result<(), AllocError>
    ensures { OnOk result (came.new.items ≡ came.old.items ++ map history.claimed_sig claims.now) }
{
    for claim in claims {
        came.push(claimed_sig(claim))?;
    }
    Ok(())
}

// Whether the body of a number is this one, or a receipt for it.
fn bears_on(core: &Core, number: u32, text: &[u8], event: &Event) -> bool
    ensures { result ≡ bears_on (body_of text.now event.now) (slice_get core.now.held number) }
{
    match core.event(number) {
        Some(other) => is_body(core, number, text) || is_receipt_for(other, event),
        None => false,
    }
}

// Whether the body of a number has these bytes.
fn is_body(core: &Core, number: u32, text: &[u8]) -> bool
    ensures { result ≡ is_body text.now (slice_get core.now.held number) }
{
    match core.body(number) {
        Some(bytes) => *bytes == *text,
        None => false,
    }
}

// Whether the first is a receipt for the second.
fn is_receipt_for(first: &Event, second: &Event) -> bool
    ensures { result ≡ is_receipt_of first.now second.now }
{
    first.is_receipt()
        && first.said() == second.said()
        && first.prefix() == second.prefix()
        && first.sn() == second.sn()
}

// Adds the signatures of these entries that a verifier called good on a body.
fn add_all_good(
    good: &mut Vec<Signed>,
    core: &Core,
    text: &[u8],
    entries: &[u32],
) -> Result<(), AllocError>
    ensures { OnOk result (good.new.items ≡ good.old.items
        ++ flat_map (λ i. good_at core.now.held text.now (slice_get core.now.entries i)) entries.now) }
{
    for number in entries {
        if let Some(entry) = entry_at(core, *number) {
            add_good(good, core, text, entry)?;
        }
    }
    Ok(())
}

// Adds the signature of an entry, where a verifier called it good on the body.
fn add_good(
    good: &mut Vec<Signed>,
    core: &Core,
    text: &[u8],
    entry: &Entry,
) -> Result<(), AllocError>
    ensures { OnOk result (good.new.items ≡ good.old.items ++ good_in text.now (whole core.now.held entry.now)) }
{
    if let Entry::Heard {
        body,
        key,
        sig,
        yes,
        ..
    } = entry
    {
        if *yes && is_body(core, *body, text) {
            good.push(Signed {
                key: *key,
                sig: *sig,
            })?;
        }
    }
    Ok(())
}
