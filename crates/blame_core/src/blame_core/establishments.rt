//! The accepted establishment events of a core, by identifier and number.
ghost use Rattle.std.specs.Prelude.{◌≡◌, Some, IfOk};
ghost use Rattle.std.specs.Option.{option_copied};
ghost use Rattle.blame_core.specs.BlameCore.Establishments.{AreEstablishments, WalksOver};
ghost use Rattle.blame_core.specs.BlameCore.Establishments as establishments;
ghost use Rattle.cesr_codes.specs.Spelling.{IsPrefix};
ghost use Rattle.event_body.specs.EventBody.Events as events;
ghost use Rattle.validator_core.specs.ValidatorCore.View.{accepted_by};

use crate::blame_core::place::Place;
use cesr_codes::{Key, Spelled};
use event_body::Event;
use key_state::list_behind;
use lists::{Items, copy_items};
use std::alloc::{AllocError, Global};
use std::collections::BTreeMap;
use validator_core::Core;

/// An accepted establishment event.
#[derive(Drop)]
pub(crate) struct Establishment {
    pub(crate) place: Place,
    /// The number of its body.
    pub(crate) number: u32,
    /// Its own witness list.
    pub(crate) witnesses: Items<Key>,
}

/// The establishment events that a core accepted, by the texts of their prefixes and their numbers.
pub(crate) fn establishments(
    alloc: Global,
    core: &Core,
) -> Result<BTreeMap<Place, Establishment>, AllocError>
    requires { core.now.base ≡ 0 }
    ensures { IfOk result (λ events. AreEstablishments core.now.held (accepted_by core.now) events.entries) }
{
    let mut lists = BTreeMap::new(alloc);
    let mut events = BTreeMap::new(alloc);
    for number in core.accepted() {
        // Each accepted number has an event: none is passed over.
        if let Some(event) = core.event(*number) {
            add_event(alloc, *number, event, &mut lists, &mut events)?;
        }
    }
    Ok(events)
}

// Adds the event of a number, where it is an establishment event, and notes its own list as the last of its
// identifier.
fn add_event(
    alloc: Global,
    number: u32,
    event: &Event,
    lists: &mut BTreeMap<[u8; 44], Items<Key>>,
    events: &mut BTreeMap<Place, Establishment>,
) -> Result<(), AllocError>
    ensures { WalksOver number event.now lists.old.entries events.old.entries lists.new.entries events.new.entries result }
{
    if !event.is_establishment() {
        return Ok(());
    }
    let place = place_of(event);
    let witnesses = list_behind(alloc, listed(lists.get(&place.prefix)), event)?;
    lists.insert(place.prefix, copy_items(&witnesses, alloc)?)?;
    events.insert(
        place,
        Establishment {
            place,
            number,
            witnesses,
        },
    )?;
    Ok(())
}

// The members of the list, where there is one.
fn listed(list: Option<&Items<Key>>) -> &[Key]
    ensures { result.now ≡ establishments.list_of (option_copied list.entry) }
{
    match list {
        Some(list) => list.as_slice(),
        None => &[],
    }
}

// The text of the event's prefix, and its number.
fn place_of(event: &Event) -> Place
    ensures place { result ≡ establishments.place_of event.now }
    ensures prefix { IsPrefix (events.prefix_of event.now) }
{
    let prefix = event.prefix();
    prefix.in_range();
    let mut text = [0; 44];
    prefix.write(&mut text);
    Place {
        prefix: text,
        sn: event.sn(),
    }
}
