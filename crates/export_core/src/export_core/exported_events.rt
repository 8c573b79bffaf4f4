//! The events of a family, as messages.
ghost use Rattle.std.specs.Prelude.{◌≡◌, ◌+◌, IfOk, Some, slice_get, take};
ghost use Rattle.export_core.specs.ExportCore.Exported.{HasCome, HasSigners, IsWritten, PutsAt, sent_by};
ghost use Rattle.journal.specs.declared.journal.body.Body.{Body};
ghost use Rattle.journal.specs.declared.journal.mode.Mode.TheVariants.{Full};
ghost use Rattle.validator_core.specs.ValidatorCore.View.{IsSoundCore, accepted_by, told_of};

use crate::export_core::came::{claims_by_all, entries_by_name, good_signatures};
use crate::export_core::family::{family_of, has_prefix};
use crate::export_core::good_claims::{good_claims, ordered};
use crate::export_core::messages::put_messages;
use crate::export_core::signers::Signers;
use cesr_codes::Prefix;
use claim_table::Signature;
use escrow::Index;
use event_body::Event;
use journal::Claim;
use journal_views::StreamText;
use key_state::spelled_is_kept;
use std::alloc::{AllocError, Global};
use std::collections::{BTreeMap, BTreeSet};
use validator_core::{Core, Name, name_of};

/// The text of messages, and of how many events.
#[derive(Drop)]
pub struct Exported {
    pub text: Vec<u8>,
    pub count: u32,
}

// What came of the bodies of a core, and what was said of signatures on them.
#[derive(Drop)]
struct Came {
    entries: Index<Name>,
    good: BTreeSet<Signature>,
}

/// The events of the family of an identifier, in order of acceptance, each as its messages.
pub(crate) fn exported_of(
    alloc: Global,
    core: &Core,
    prefix: &Prefix,
) -> Result<Exported, AllocError>
    requires full { core.now.mode ≡ Full }
    requires no_base { core.now.base ≡ 0 }
    ensures { IfOk result (IsWritten core.now prefix.now) }
{
    core.sound();
    let family = family_of(alloc, core, prefix)?;
    let came = came_to(alloc, core)?;
    let mut signers = BTreeMap::new(alloc);
    let mut text = StreamText::new(alloc);
    let mut count: u32 = 0;
    for place in 0..core.accepted().len() {
        let is_put = put_event(alloc, core, &family, &came, &mut signers, place, &mut text)?;
        if is_put {
            count = one_more(count)?;
        }
    }
    Ok(Exported {
        text: text.into_bytes(),
        count,
    })
}

// One more. No core holds more events than 32 bits count, so that there are more is answered as want of memory.
fn one_more(count: u32) -> Result<u32, AllocError>
    ensures { IfOk result (λ more. more ≡ count + 1) }
{
    match count.checked_add(1) {
        Some(more) => Ok(more),
        None => Err(AllocError),
    }
}

// What came to a core.
fn came_to(alloc: Global, core: &Core) -> Result<Came, AllocError>
    ensures { IfOk result (HasCome core.now) }
{
    let entries = core.journal().entries.as_slice();
    Ok(Came {
        entries: entries_by_name(alloc, core.events(), entries)?,
        good: good_signatures(alloc, entries)?,
    })
}

// Puts the messages of the event at a place of the accepted ones, where it is of the family, and says whether it is.
fn put_event(
    alloc: Global,
    core: &Core,
    family: &BTreeSet<Prefix>,
    came: &Came,
    signers: &mut BTreeMap<Prefix, Signers>,
    place: usize,
    text: &mut StreamText,
) -> Result<bool, AllocError>
    requires full { core.now.mode ≡ Full }
    requires no_base { core.now.base ≡ 0 }
    requires sound { IsSoundCore core.now }
    requires came { HasCome core.now came.now }
    requires signers { HasSigners family.now.keys (take place (accepted_by core.now)) signers.old }
    ensures { IfOk result (λ is_put. (b : Body) → slice_get (accepted_by core.now) place ≡ Some b
        → PutsAt core.now family.now.keys place b is_put signers.new text.old.bytes.items text.new.bytes.items) }
{
    // Each place below the count has its number, each accepted number a body, and this its event: none is passed over.
    let Some(number) = number_at(core.accepted(), place) else {
        return Ok(false);
    };
    let Some(bytes) = core.body(number) else {
        return Ok(false);
    };
    let Some(event) = core.event(number) else {
        return Ok(false);
    };
    spelled_is_kept();
    let prefix = event.prefix();
    if !has_prefix(family, &prefix) {
        return Ok(false);
    }
    let own = Signers::behind(alloc, signers.get(&prefix), event)?;
    let claims = sent_claims(alloc, core, came, &own, number, event)?;
    put_messages(alloc, bytes, claims.as_slice(), text)?;
    signers.insert(prefix, own)?;
    Ok(true)
}

// The number at a place.
fn number_at(numbers: &[u32], place: usize) -> Option<u32>
    ensures { result ≡ slice_get numbers.now place }
{
    numbers.get(place).copied()
}

// The claims on the event of a number that are sent, in the order of their kinds.
fn sent_claims(
    alloc: Global,
    core: &Core,
    came: &Came,
    own: &Signers,
    number: u32,
    event: &Event,
) -> Result<Vec<Claim>, AllocError>
    requires sound { IsSoundCore core.now }
    requires came { HasCome core.now came.now }
    ensures { IfOk result (λ claims. (b : Body) → slice_get core.now.held number ≡ Some b → b.event ≡ event.now
        → claims.items ≡ sent_by (told_of core.now) own.now b) }
{
    let entries = core.journal().entries.as_slice();
    let places = came.entries.numbers(&name_of(event));
    let all = claims_by_all(alloc, core.events(), entries, places, number)?;
    let good = good_claims(alloc, &came.good, own, number, all.as_slice())?;
    ordered(alloc, good.as_slice())
}
