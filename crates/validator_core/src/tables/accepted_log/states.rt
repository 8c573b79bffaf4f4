//! The states with one more interaction, and without the last events.
ghost use Rattle.std.specs.Prelude.{◌≡◌, ◌<◌, ◌+◌, ◌^◌, length, take, drop, slice_get, IfSome, OnOk, OnErr};
ghost use Rattle.key_state.specs.Heads.{head_sn};
ghost use Rattle.validator_core.specs.Tables.AcceptedLog.Values.{at_place, has_more, undone, undone_all, with_since, without_last};

use crate::tables::accepted_log::Place;
use cesr_codes::Digest;
use key_state::KeyState;
use std::alloc::AllocError;

/// Puts the digest of an interaction onto the state at a place.
pub(crate) fn go_onto(
    states: &mut Vec<KeyState>,
    place: u32,
    said: Digest,
) -> Result<(), AllocError>
    requires there { place < length states.old.items }
    requires room { IfSome (slice_get states.old.items place) (λ s. head_sn s + 1 < 2 ^ 64) }
    ensures ok { OnOk result (states.new.items ≡ at_place place (with_since said) states.old.items) }
    ensures err { OnErr result (states.new.items ≡ states.old.items) }
    ensures made { IfSome (slice_get states.old.items place) (λ s. 0 < length s.since) }
{
    lengthen(&mut states[place as usize], said)
}

// Puts the digest of an interaction onto a state.
fn lengthen(state: &mut KeyState, said: Digest) -> Result<(), AllocError>
    requires room { head_sn state.old + 1 < 2 ^ 64 }
    ensures ok { OnOk result (state.new ≡ with_since said state.old) }
    ensures err { OnErr result (state.new ≡ state.old) }
    ensures made { 0 < length state.old.since }
{
    state.since.push(said)?;
    Ok(())
}

/// Takes the events from a number on back, the last of them first.
pub(crate) fn undo_from(places: &mut Vec<Place>, len: usize, states: &mut Vec<KeyState>)
    ensures places { places.new.items ≡ take len places.old.items }
    ensures states { states.new.items ≡ undone_all (drop len places.old.items) states.old.items }
{
    while places.len() > len {
        if let Some(place) = places.pop() {
            undo(states, place.state);
        }
    }
}

// Takes the last event back, which went onto the state at this place, or made it.
fn undo(states: &mut Vec<KeyState>, place: u32)
    ensures { states.new.items ≡ undone place states.old.items }
{
    if has_more(states.as_slice(), place) {
        shorten(&mut states[place as usize]);
    } else {
        states.truncate(place as usize);
    }
}

// Whether the state at a place has more than the digest of the event that made it.
fn has_more(states: &[KeyState], place: u32) -> bool
    ensures { result ≡ has_more (slice_get states.now place) }
{
    match states.get(place as usize) {
        Some(state) => state.since.len() > 1,
        None => false,
    }
}

// Takes the last digest off a state.
fn shorten(state: &mut KeyState)
    requires { 1 < length state.old.since }
    ensures { state.new ≡ without_last state.old }
{
    let count = state.since.len() - 1;
    state.since.truncate(count);
}
