//! The accepted events, found by their names and by what they seal.
ghost use Rattle.std.specs.Prelude.{◌≡◌, ◌==◌, ◌<◌, ◌+◌, ◌^◌, ℕ, List, Contains, IfOk, IfSome, OnOk, OnErr, None, Some, false, find, length, slice_get, position, if◌then◌else◌};
ghost use Rattle.std.specs.List.{list_any};
ghost use Rattle.std.specs.Option.{option_copied};
ghost use Rattle.validator_core.specs.Tables.AcceptedLog.Cuts.{GrowsByInteraction, GrowsByState};
ghost use Rattle.validator_core.specs.Tables.AcceptedLog.Values as logs;
ghost use Rattle.escrow.specs.Escrow.Escrow.{held as held_by};
ghost use Rattle.event_body.specs.EventBody.Events as events;
ghost use Rattle.event_backing.specs.declared.event_seal.EventSeal.{EventSeal as EventSealValue};
ghost use Rattle.escrow.specs.EventIndex.Keys.{numbers_at};
ghost use Rattle.journal.specs.Journal.Logs.{precedes};
ghost use Rattle.journal.specs.Journal.Seals.{is_sealed};
ghost use Rattle.journal.specs.declared.journal.body.Body.{Body};
ghost use Rattle.key_state.specs.Heads.{head_sn};
ghost use Rattle.claim_table.specs.CoreLaws.Standing.{HasNoClash};
ghost use Rattle.validator_core.specs.Tables.Hints.{IsSealedAt, KeepsBelow};
ghost use Rattle.validator_core.specs.Tables.NamedPlaces.{places_at};
ghost use Rattle.validator_core.specs.Tables.Names.{name_in, name_of as name_of_event, seal_key};
ghost use Rattle.validator_core.specs.Tables.Rows.{event_there, is_named, is_number, is_seal_of};
ghost use Rattle.validator_core.specs.Tables.View.{body_of, log_of, with_log};

use crate::tables::Tables;
use crate::tables::in_range::in_range;
use crate::tables::name::{Name, SealKey, has_name, name_of, prior_name};
use crate::tables::named_places::NamedPlaces;
use crate::tables::tables::event_at;
use cesr_codes::Prefix;
use escrow::{Index, Waiting};
use event_backing::{EventSeal, holds_seal_of, seals};
use event_body::Event;
use key_state::KeyState;
use lists::length_u32;
use std::alloc::{AllocError, Global};

impl Tables {
    /// The place in the log of the earliest event that stands right before this one: with the number before its own, and the
    /// digest that it names.
    pub fn predecessor(&self, event: &Event) -> Option<u32>
        ensures { (bytes : List ℕ) → result ≡ position (precedes (body_of bytes event.now)) (log_of self.now) }
    {
        let name = prior_name(event)?;
        if event.sn() == 0 {
            return None;
        }
        first_named(
            self.events.as_slice(),
            self.log.numbers(),
            self.accepted.numbers(&name),
            &name,
        )
    }

    /// The first place in the log of the event of the body of a number.
    pub fn place_of(&self, number: u32) -> Option<u32>
        ensures { result ≡ position (λ m. m == number) self.now.log.numbers }
    {
        let event = event_at(self.events.as_slice(), number)?;
        let name = name_of(event);
        first_of_number(self.log.numbers(), self.accepted.numbers(&name), number)
    }

    /// Whether the event of the body of a number is accepted.
    pub fn is_accepted(&self, number: u32) -> bool
        ensures { result ≡ list_any (λ m. m == number) self.now.log.numbers }
    {
        self.place_of(number).is_some()
    }

    /// Whether two accepted events may differ that have one identifier, number and digest.
    pub fn has_clash(&self) -> bool
        ensures { result ≡ false → HasNoClash (log_of self.now) }
    {
        self.clash
    }

    /// Whether an accepted event of the delegator seals this one.
    pub fn is_sealed(&self, delegator: &Prefix, event: &Event) -> bool
        ensures { result ≡ is_sealed (log_of self.now) delegator.now event.now }
    {
        let name = name_of(event);
        in_range(name);
        let key = SealKey {
            holder: *delegator,
            name,
        };
        has_seal(
            self.events.as_slice(),
            self.log.numbers(),
            self.seals.numbers(&key),
            &key,
        )
    }

    /// Accepts the establishment event of the body of a number, behind which this is the state of its identifier.
    pub fn establish(&mut self, number: u32, state: KeyState) -> Result<(), AllocError>
        requires held { number < length self.old.held }
        requires made { length state.since ≡ 1 }
        ensures ok { OnOk result (self.new
            ≡ with_log (logs.established number (length self.old.entries) state self.old.log) self.old) }
        ensures grows { OnOk result (GrowsByState state self.old.log self.new.log) }
        ensures extends { OnOk result (logs.Extends self.old.log self.new.log) }
        ensures err { OnErr result (self.new ≡ self.old) }
    {
        let event = &self.events[number as usize];
        self.clash = clashes_with(
            self.clash,
            self.events.as_slice(),
            self.log.numbers(),
            &self.accepted,
            event,
        );
        let noted = note_next(
            self.alloc,
            &mut self.accepted,
            &mut self.seals,
            event,
            self.log.len(),
            self.journal.entries.len(),
        );
        match noted {
            Ok(entries) => self.log.establish(number, entries, state),
            Err(error) => {
                drop(state);
                Err(error)
            }
        }
    }

    /// Accepts the interaction of the body of a number, which goes onto the current state of its identifier.
    pub fn interact(&mut self, number: u32) -> Result<(), AllocError>
        requires held { number < length self.old.held }
        requires room { (b : Body) → slice_get self.old.held number ≡ Some b
            → IfSome (logs.last_of (events.prefix_of b.event) self.old.log.states) (λ s. head_sn s + 1 < 2 ^ 64) }
        ensures ok { OnOk result ((b : Body) → slice_get self.old.held number ≡ Some b
            → self.new ≡ with_log (logs.interacted number (length self.old.entries) (events.prefix_of b.event)
            (events.said_of b.event) self.old.log) self.old) }
        ensures grows { OnOk result ((b : Body) → slice_get self.old.held number ≡ Some b
            → GrowsByInteraction (events.prefix_of b.event) (events.said_of b.event) self.old.log self.new.log) }
        ensures extends { OnOk result (logs.Extends self.old.log self.new.log) }
        ensures err { OnErr result (self.new ≡ self.old) }
    {
        let event = &self.events[number as usize];
        self.clash = clashes_with(
            self.clash,
            self.events.as_slice(),
            self.log.numbers(),
            &self.accepted,
            event,
        );
        let entries = note_next(
            self.alloc,
            &mut self.accepted,
            &mut self.seals,
            event,
            self.log.len(),
            self.journal.entries.len(),
        )?;
        self.log
            .interact(number, entries, &event.prefix(), event.said())
    }

    /// The accepted events leave the escrow. It takes no memory.
    pub fn release(&mut self)
        ensures { self.new ≡ record self.old { released = length self.old.log.numbers } }
    {
        let numbers = self.log.numbers();
        leave(&mut self.waiting, &numbers[self.released..]);
        self.released = numbers.len();
    }
}

// The first of the places at which an accepted event has the name.
fn first_named(events: &[Event], numbers: &[u32], places: &[u32], name: &Name) -> Option<u32>
    ensures { result ≡ find (λ i. is_named name.now (event_there events.now (slice_get numbers.now i))) places.now }
{
    places.iter().copied().find(|place| is_named(accepted_at(events, numbers, *place), name))
}

// Whether two accepted events may have one name, once this one is accepted too.
fn clashes_with(
    clash: bool,
    events: &[Event],
    numbers: &[u32],
    accepted: &NamedPlaces,
    event: &Event,
) -> bool
    ensures before { result ≡ false → clash ≡ false }
    ensures new { result ≡ false
        → find (λ i. is_named (name_of_event event.now) (event_there events.now (slice_get numbers.now i)))
        (places_at accepted.now (name_of_event event.now)) ≡ None }
{
    let name = name_of(event);
    clash || first_named(events, numbers, accepted.numbers(&name), &name).is_some()
}

// Whether it is an event with the name.
fn is_named(event: Option<&Event>, name: &Name) -> bool
    ensures { result ≡ is_named name.now (option_copied event.entry) }
{
    match event {
        Some(event) => has_name(event, name),
        None => false,
    }
}

// The accepted event at a place.
fn accepted_at<'a>(events: &'a [Event], numbers: &[u32], place: u32) -> Option<&'a Event>
    ensures { option_copied result ≡ event_there events.now (slice_get numbers.now place) }
{
    let number = numbers.get(place as usize)?;
    events.get(*number as usize)
}

// The first of the places at which the number stands.
fn first_of_number(numbers: &[u32], places: &[u32], number: u32) -> Option<u32>
    ensures { result ≡ find (λ i. is_number number (slice_get numbers.now i)) places.now }
{
    places
        .iter()
        .copied()
        .find(|place| is_number_at(numbers, *place, number))
}

// Whether the number stands at a place.
fn is_number_at(numbers: &[u32], place: u32, number: u32) -> bool
    ensures { result ≡ is_number number (slice_get numbers.now place) }
{
    match numbers.get(place as usize) {
        Some(held) => *held == number,
        None => false,
    }
}

// Whether an accepted event at one of the places is the holder's, and seals the name.
fn has_seal(events: &[Event], numbers: &[u32], places: &[u32], key: &SealKey) -> bool
    ensures { result ≡ list_any (λ i. is_seal_of key.now.holder key.now.name
        (event_there events.now (slice_get numbers.now i))) places.now }
{
    places.iter().any(|place| is_sealing(accepted_at(events, numbers, *place), key))
}

// Whether an event is the holder's, and seals the name.
fn is_sealing(event: Option<&Event>, key: &SealKey) -> bool
    ensures { result ≡ is_seal_of key.now.holder key.now.name (option_copied event.entry) }
{
    match event {
        Some(event) => {
            event.prefix() == key.holder
                && holds_seal_of(event, &key.name.prefix, key.name.sn, &key.name.said)
        }
        None => false,
    }
}

// Adds the place of the log that comes behind so many, under the name of its event and under what that seals, and hands out
// how many entries there are.
fn note_next(
    alloc: Global,
    accepted: &mut NamedPlaces,
    sealed: &mut Index<SealKey>,
    event: &Event,
    count: usize,
    entries: usize,
) -> Result<u32, AllocError>
    ensures entries { IfOk result (λ n. n ≡ entries) }
    ensures named { OnOk result (Contains (places_at accepted.new (name_of_event event.now)) count) }
    ensures sealed { OnOk result (IsSealedAt (numbers_at ⟦<SealKey as Ord>⟧.cmp sealed.new) event.now count) }
    ensures kept { KeepsBelow count (places_at accepted.old) (places_at accepted.new) }
    ensures kept_sealed { KeepsBelow count (numbers_at ⟦<SealKey as Ord>⟧.cmp sealed.old)
        (numbers_at ⟦<SealKey as Ord>⟧.cmp sealed.new) }
{
    let place = length_u32(count)?;
    note_accepted(alloc, accepted, sealed, event, place)?;
    length_u32(entries)
}

// Adds a place of the log under the name of its event and under what that seals.
fn note_accepted(
    alloc: Global,
    accepted: &mut NamedPlaces,
    sealed: &mut Index<SealKey>,
    event: &Event,
    place: u32,
) -> Result<(), AllocError>
    ensures named { OnOk result (Contains (places_at accepted.new (name_of_event event.now)) place) }
    ensures sealed { OnOk result (IsSealedAt (numbers_at ⟦<SealKey as Ord>⟧.cmp sealed.new) event.now place) }
    ensures kept { KeepsBelow place (places_at accepted.old) (places_at accepted.new) }
    ensures kept_sealed { KeepsBelow place (numbers_at ⟦<SealKey as Ord>⟧.cmp sealed.old)
        (numbers_at ⟦<SealKey as Ord>⟧.cmp sealed.new) }
{
    accepted.add(name_of(event), place)?;
    let seals = seals(alloc, event)?;
    note_seals(sealed, event.prefix(), seals.as_slice(), place)
}

// Adds a place of the log under each name that the holder seals there.
fn note_seals(
    sealed: &mut Index<SealKey>,
    holder: Prefix,
    seals: &[EventSeal],
    place: u32,
) -> Result<(), AllocError>
    ensures added { OnOk result ((seal : EventSealValue) → Contains seals.now seal
        → Contains (numbers_at ⟦<SealKey as Ord>⟧.cmp sealed.new (seal_key holder (name_in seal))) place) }
    ensures kept { KeepsBelow place (numbers_at ⟦<SealKey as Ord>⟧.cmp sealed.old)
        (numbers_at ⟦<SealKey as Ord>⟧.cmp sealed.new) }
{
    for seal in seals {
        let name = sealed_name(seal);
        sealed.add(SealKey { holder, name }, place)?;
    }
    Ok(())
}

// The name that an event seal gives.
fn sealed_name(seal: &EventSeal) -> Name
    ensures { result ≡ name_in seal.now }
{
    Name {
        prefix: seal.prefix,
        sn: seal.sn,
        said: seal.said,
    }
}

// The events of these numbers leave the escrow. It takes no memory.
fn leave(waiting: &mut Waiting, numbers: &[u32])
    ensures { (n : ℕ) → held_by n waiting.new
        ≡ (if list_any (λ m. m == n) numbers.now then None else held_by n waiting.old) }
{
    for number in numbers {
        take_out(waiting, *number);
    }
}

/// The event of a number leaves the escrow. It takes no memory.
pub(crate) fn take_out(waiting: &mut Waiting, number: u32)
    ensures waiters { (n : ℕ) → held_by n waiting.new ≡ (if n == number then None else held_by n waiting.old) }
{
    drop(waiting.take(number));
}
