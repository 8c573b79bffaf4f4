//! The witnesses of an event, and how many of them must agree. None of these takes memory.
ghost use Rattle.std.specs.Prelude.{◌≡◌, true, false, length, slice_get, IfSome, IfNone};
ghost use Rattle.std.specs.Option.{option_copied};
ghost use Rattle.journal.specs.EventRules.Claims.{has_this};
ghost use Rattle.key_state.specs.Exposure as exposure;
ghost use Rattle.key_state.specs.Kept.{IsKept};
ghost use Rattle.key_state.specs.Same as same;

use crate::event_rules::own_rules::own_rules;
use cesr_codes::Key;
use event_body::Event;
use key_state::KeyState;

/// How many witnesses must have signed a receipt for the event: for an interaction, as the state before it says.
pub fn toad_of(state: Option<&KeyState>, event: &Event) -> u64
    ensures { result ≡ (exposure.own_rules (option_copied state.entry) event.now).toad }
{
    own_rules(state, event).toad
}

/// The witness of a number in the event's own list.
pub fn witness(state: Option<&KeyState>, event: &Event, number: usize) -> Option<Key>
    ensures { result ≡ slice_get (exposure.own_rules (option_copied state.entry) event.now).witnesses number }
{
    own_rules(state, event).witnesses.get(number)
}

/// How many witnesses the event's own list has.
pub fn witness_count(state: Option<&KeyState>, event: &Event) -> usize
    ensures { result ≡ length (exposure.own_rules (option_copied state.entry) event.now).witnesses }
{
    own_rules(state, event).witnesses.len()
}

/// Whether the key is in the event's own list.
pub fn has_witness(state: Option<&KeyState>, event: &Event, key: &Key) -> bool
    ensures { result ≡ same.has_key (exposure.own_rules (option_copied state.entry) event.now).witnesses key.now }
{
    own_rules(state, event).witnesses.has(key)
}

/// How many witnesses the event's own list has: at most 128, 64 of the state and 64 that a body adds.
pub(crate) fn place_count(state: Option<&KeyState>, event: &Event) -> u16
    requires { IsKept event.now }
    ensures { result ≡ length (exposure.own_rules (option_copied state.entry) event.now).witnesses }
{
    own_rules(state, event).witnesses.len() as u16
}

/// A place of the key in the event's own list.
#[tactic(auto, using(crate::proofs::EventRulesLemmas::ChangedPlaces::place_within))]
pub(crate) fn place_of(state: Option<&KeyState>, event: &Event, key: &Key) -> Option<u16>
    requires { IsKept event.now }
    ensures found { IfSome result (λ place. has_this
        (slice_get (exposure.own_rules (option_copied state.entry) event.now).witnesses place) key.now ≡ true) }
    ensures none { IfNone result (same.has_key
        (exposure.own_rules (option_copied state.entry) event.now).witnesses key.now ≡ false) }
{
    let place = own_rules(state, event).witnesses.place_of(key)?;
    Some(place as u16)
}
