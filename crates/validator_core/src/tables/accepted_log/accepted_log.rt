//! The accepted log itself.
ghost use Rattle.std.specs.Prelude.{◌≡◌, ◌<◌, ◌+◌, ◌^◌, [], length, slice_get, take, vec_len, vec_capacity, IfSome, IfOk, OnOk, OnErr};
ghost use Rattle.std.specs.Option.{option_map};
ghost use Rattle.key_state.specs.Heads.{head_sn};
ghost use Rattle.validator_core.specs.Tables.AcceptedLog.Cuts.{GrowsByInteraction, GrowsByState, IsLog, IsStateBefore, under_at};
ghost use Rattle.validator_core.specs.Tables.AcceptedLog.Values as values;
ghost use Rattle.validator_core.specs.Tables.AcceptedLog.Values.{Extends, established, interacted, last_of, last_place, nothing, rewound};

use crate::tables::accepted_log::Place;
use crate::tables::accepted_log::hints::last_at;
use crate::tables::accepted_log::states::{go_onto, undo_from};
use cesr_codes::{Digest, Prefix};
use escrow::Index;
use event_body::Event;
use key_state::KeyState;
use lists::length_u32;
use std::alloc::{AllocError, Global};
use std::marker::Model;

/// The accepted events by the numbers of their bodies, in order, and a key state for each establishment event among them.
/// An interaction goes onto the current state of its identifier.
#[derive(Drop)]
pub struct AcceptedLog {
    pub(crate) numbers: Vec<u32>,
    pub(crate) places: Vec<Place>,
    pub(crate) states: Vec<KeyState>,
    /// Among the numbers of an identifier are the places of its states.
    pub(crate) hints: Index<Prefix>,
}

impl Model for AcceptedLog {
    ghost use Rattle.validator_core.specs.Tables.AcceptedLog.Values.{Log};

    ghost Value = { Log };

    ghost use Rattle.validator_core.specs.Tables.AcceptedLog.Hints.{IsSound};
    ghost use Rattle.escrow.specs.EventIndex.Keys.{numbers_at};

    ghost view = { λ l. record {
      numbers = l.numbers.items;
      places = l.places.items;
      states = l.states.items;
    } };

    ghost invariant = { λ l. IsSound (record {
      numbers = l.numbers.items;
      places = l.places.items;
      states = l.states.items;
    }) (numbers_at ⟦<Prefix as Ord>⟧.cmp l.hints) };
}

impl AcceptedLog {
    /// No events.
    pub fn new(alloc: Global) -> AcceptedLog
        ensures empty { result ≡ nothing }
        ensures log { IsLog [] result }
    {
        AcceptedLog {
            numbers: Vec::new(alloc),
            places: Vec::new(alloc),
            states: Vec::new(alloc),
            hints: Index::new(alloc),
        }
    }

    /// Accepts an establishment event: its body's number, how many entries the journal has, and the state that it makes.
    /// After an error nothing has changed.
    pub fn establish(
        &mut self,
        number: u32,
        entries: u32,
        state: KeyState,
    ) -> Result<(), AllocError>
        // It has the event's own digest, and that of no interaction yet.
        requires made { length state.since ≡ 1 }

        ensures ok { OnOk result (self.new ≡ established number entries state self.old) }
        ensures log { OnOk result (GrowsByState state self.old self.new) }
        ensures extends { OnOk result (Extends self.old self.new) }
        ensures err { OnErr result (self.new ≡ self.old) }
    {
        let place = make_room(&mut self.numbers, &mut self.places, &mut self.states)?;
        self.hints.add(state.prefix, place)?;
        self.numbers.push_reserved(number);
        self.places.push_reserved(Place {
            state: place,
            entries,
        });
        self.states.push_reserved(state);
        Ok(())
    }

    /// Accepts an interaction of an identifier: its digest goes onto the current state. An identifier without a state stays
    /// without. After an error nothing has changed.
    pub fn interact(
        &mut self,
        number: u32,
        entries: u32,
        prefix: &Prefix,
        said: Digest,
    ) -> Result<(), AllocError>
        requires room { IfSome (last_of prefix.now self.old.states) (λ s. head_sn s + 1 < 2 ^ 64) }

        ensures ok { OnOk result (self.new ≡ interacted number entries prefix.now said self.old) }
        ensures log { OnOk result (GrowsByInteraction prefix.now said self.old self.new) }
        ensures extends { OnOk result (Extends self.old self.new) }
        ensures err { OnErr result (self.new ≡ self.old) }
    {
        let Some(state) = self.current_place(prefix) else {
            return Ok(());
        };
        self.numbers.reserve(1)?;
        self.places.reserve(1)?;
        go_onto(&mut self.states, state, said)?;
        self.numbers.push_reserved(number);
        self.places.push_reserved(Place { state, entries });
        Ok(())
    }

    /// Cuts the log back to its first events, with the states as they were behind these. It takes no memory.
    pub fn truncate(&mut self, len: usize)
        ensures { self.new ≡ rewound len self.old }
    {
        self.numbers.truncate(len);
        undo_from(&mut self.places, len, &mut self.states);
    }

    /// How many events there are.
    pub fn len(&self) -> usize
        ensures numbers { result ≡ length self.now.numbers }
        ensures places { result ≡ length self.now.places }
    {
        self.numbers.len()
    }

    /// The numbers of the events' bodies, in order.
    pub fn numbers(&self) -> &[u32]
        ensures { result.now ≡ self.now.numbers }
    {
        self.numbers.as_slice()
    }

    /// The place of an event, by its number in the log, from 0.
    pub fn place(&self, i: usize) -> Option<Place>
        ensures { result ≡ slice_get self.now.places i }
    {
        self.places.get(i).copied()
    }

    /// The state under which the event at a place of the log was accepted, but for its live events; none for an inception. A
    /// rotation that took the place of interactions was accepted under the state that these went onto. It takes no memory.
    pub fn state_before(&self, i: usize, event: &Event) -> Option<&KeyState>
        ensures under { option_map (λ s. s.now) result
            ≡ under_at self.now.states event.now (slice_get self.now.places i) }
        ensures alike { IsStateBefore self.now i event.now (option_map (λ s. s.now) result) }
    {
        self.state_under(i, event)
    }

    // The same state, by the place.
    fn state_under(&self, i: usize, event: &Event) -> Option<&KeyState>
        ensures { option_map (λ s. s.now) result ≡ under_at self.now.states event.now (slice_get self.now.places i) }
    {
        let place = self.place(i)?.state;
        if event.is_interaction() {
            self.state(place)
        } else {
            self.last_before(place, &event.prefix())
        }
    }

    // The last state of an identifier before a place.
    fn last_before(&self, place: u32, prefix: &Prefix) -> Option<&KeyState>
        ensures { option_map (λ s. s.now) result ≡ last_of prefix.now (take place self.now.states) }
    {
        let before = front(self.states.as_slice(), place as usize);
        state_there(before, last_at(before, self.hints.numbers(prefix), prefix))
    }

    /// The current state of an identifier. It takes no memory.
    pub fn current(&self, prefix: &Prefix) -> Option<&KeyState>
        ensures { option_map (λ s. s.now) result ≡ last_of prefix.now self.now.states }
    {
        let place = self.current_place(prefix)?;
        self.state(place)
    }

    /// The place of the current state of an identifier. It takes no memory.
    pub fn current_place(&self, prefix: &Prefix) -> Option<u32>
        ensures { result ≡ last_place prefix.now self.now.states }
    {
        last_at(self.states.as_slice(), self.hints.numbers(prefix), prefix)
    }

    /// The state at a place, with the digests of all interactions that went onto it.
    pub fn state(&self, place: u32) -> Option<&KeyState>
        ensures { option_map (λ s. s.now) result ≡ slice_get self.now.states place }
    {
        self.states.get(place as usize)
    }
}

// Makes room for one more in each list: the place of the state that comes next.
fn make_room(
    numbers: &mut Vec<u32>,
    places: &mut Vec<Place>,
    states: &mut Vec<KeyState>,
) -> Result<u32, AllocError>
    ensures numbers { numbers.new.items ≡ numbers.old.items }
    ensures places { places.new.items ≡ places.old.items }
    ensures states { states.new.items ≡ states.old.items }
    ensures next { IfOk result (λ place. place ≡ length states.old.items) }
    ensures number_room { OnOk result (vec_len numbers.new < vec_capacity numbers.new) }
    ensures place_room { OnOk result (vec_len places.new < vec_capacity places.new) }
    ensures state_room { OnOk result (vec_len states.new < vec_capacity states.new) }
{
    numbers.reserve(1)?;
    places.reserve(1)?;
    states.reserve(1)?;
    length_u32(states.len())
}

// The first so many states, or all.
fn front(states: &[KeyState], len: usize) -> &[KeyState]
    ensures { result.now ≡ take len states.now }
{
    if len < states.len() {
        &states[..len]
    } else {
        states
    }
}

// The state at a place, where there is one.
fn state_there(states: &[KeyState], place: Option<u32>) -> Option<&KeyState>
    ensures { option_map (λ s. s.now) result ≡ values.state_there states.now place }
{
    match place {
        Some(place) => states.get(place as usize),
        None => None,
    }
}
