//! The pairs of different establishment events of one identifier and number, and who signed both.
ghost use Rattle.std.specs.Prelude.{◌≡◌, ◌++◌, bytes_eq, option_to_list, IfOk, OnOk};
ghost use Rattle.blame_core.specs.BlameCore.Blames.{AreBlames};
ghost use Rattle.blame_core.specs.BlameCore.NamedEntries.{HasNamed};
ghost use Rattle.blame_core.specs.BlameCore.Rivals.{Answers, Judges};
ghost use Rattle.journal.specs.declared.journal.mode.Mode.TheVariants.{Full};

use crate::blame_core::Blame;
use crate::blame_core::culprits::culprits_of;
use crate::blame_core::establishments::{Establishment, establishments};
use crate::blame_core::named_entries::named_entries;
use crate::blame_core::place::Place;
use crate::blame_core::signatures::signatures_on;
use escrow::Index;
use lists::Items;
use std::alloc::{AllocError, Global};
use std::collections::BTreeMap;
use validator_core::{Core, Name};

/// The pairs of different establishment events of one identifier and number, the first accepted by the first core
/// and the second by the second, in order of prefix text and number; each with the witnesses of both that signed
/// both. It goes over each log and each journal once, and for each pair over the entries with the names of its events.
pub fn blame(alloc: Global, first: &Core, second: &Core) -> Result<Items<Blame>, AllocError>
    requires first_full { first.now.mode ≡ Full }
    requires first_whole { first.now.base ≡ 0 }
    requires second_full { second.now.mode ≡ Full }
    requires second_whole { second.now.base ≡ 0 }

    // Just these pairs, in this order. Each has at least so many culprits as both events together want receipts, less
    // the number of their witnesses; and each culprit is bad in every lawful history for which both journals are
    // honest.
    ensures { IfOk result (λ blames. AreBlames first.now second.now blames) }
{
    first.sound();
    second.sound();
    let ones = establishments(alloc, first)?;
    let others = establishments(alloc, second)?;
    let named = named_entries(alloc, first)?;
    let other_named = named_entries(alloc, second)?;
    let mut blames = Items::new(alloc);
    for one in ones.values() {
        let judged = judge(alloc, first, second, &named, &other_named, one, &others)?;
        add_blame(&mut blames, judged)?;
    }
    Ok(blames)
}

// Adds the pair, where there is one.
fn add_blame(blames: &mut Items<Blame>, judged: Option<Blame>) -> Result<(), AllocError>
    ensures { OnOk result (blames.new ≡ blames.old ++ option_to_list judged) }
{
    if let Some(blame) = judged {
        blames.push(blame)?;
    }
    Ok(())
}

// The pair of an event of the first core with that of the same place of the second, where they differ.
fn judge(
    alloc: Global,
    first: &Core,
    second: &Core,
    named: &Index<Name>,
    other_named: &Index<Name>,
    one: &Establishment,
    others: &BTreeMap<Place, Establishment>,
) -> Result<Option<Blame>, AllocError>
    requires named { HasNamed first.now named.now }
    requires other_named { HasNamed second.now other_named.now }
    ensures { IfOk result (Judges first.now second.now one.now others.now.entries) }
{
    match others.get(&one.place) {
        Some(other) => compare(alloc, first, second, named, other_named, one, other),
        None => Ok(None),
    }
}

// The pair, where the events differ.
fn compare(
    alloc: Global,
    first: &Core,
    second: &Core,
    named: &Index<Name>,
    other_named: &Index<Name>,
    one: &Establishment,
    other: &Establishment,
) -> Result<Option<Blame>, AllocError>
    requires named { HasNamed first.now named.now }
    requires other_named { HasNamed second.now other_named.now }
    ensures { IfOk result (Answers first.now second.now one.now other.now) }
{
    // Both numbers are those of accepted events, whose bodies the cores hold: no pair is passed over.
    let (Some(text), Some(event)) = (first.body(one.number), first.event(one.number)) else {
        return Ok(None);
    };
    let Some(rival) = second.body(other.number) else {
        return Ok(None);
    };
    if is_same(text, rival) {
        return Ok(None);
    }
    let ones = signatures_on(alloc, first, named, one.number)?;
    let others = signatures_on(alloc, second, other_named, other.number)?;
    let culprits = culprits_of(
        alloc,
        one.witnesses.as_slice(),
        other.witnesses.as_slice(),
        &ones,
        &others,
    )?;
    Ok(Some(Blame {
        prefix: event.prefix(),
        sn: event.sn(),
        first: one.number,
        second: other.number,
        culprits,
    }))
}

// Whether the bodies are the same.
fn is_same(text: &[u8], rival: &[u8]) -> bool
    ensures { result ≡ bytes_eq text.now rival.now }
{
    *text == *rival
}
