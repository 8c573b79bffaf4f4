//! Whether what supports an event is enough. None of these takes memory, and each asks for at most as many parts as the event
//! has signing keys, commitments or witnesses.
ghost use Rattle.std.specs.Prelude.{◌≡◌, ◌≤◌, ◌||◌, filter, length, not};
ghost use Rattle.std.specs.Option.{option_copied};
ghost use Rattle.event_body.specs.EventBody.Events.{is_rotation};
ghost use Rattle.journal.specs.EventRules.Parts as parts;
ghost use Rattle.key_state.specs.Exposure as exposure;
ghost use Rattle.key_state.specs.Exposure.{numbers_below};
ghost use Rattle.key_state.specs.Kept.{IsKept};
ghost use Rattle.sith.specs.Tests.{satisfied};

use crate::event_rules::Support;
use crate::event_rules::own_rules::own_rules;
use crate::event_rules::places::Places;
use crate::event_rules::witnesses::{place_count, toad_of};
use event_body::Event;
use key_state::KeyState;

/// Whether the indices of the good signatures meet the threshold of the signing keys.
pub fn meets_own<S: Support>(support: &S, state: Option<&KeyState>, event: &Event) -> bool
    requires { IsKept event.now }
    ensures { result ≡ parts.has_own (S.has support.now) (exposure.own_rules (option_copied state.entry) event.now) }
{
    let indices = indices_below(support, key_count(state, event));
    meets_keys(state, event, indices.as_slice())
}

// How many keys sign the event.
fn key_count(state: Option<&KeyState>, event: &Event) -> u16
    requires { IsKept event.now }
    ensures count { result ≡ length (exposure.own_rules (option_copied state.entry) event.now).keys }
    ensures few { result ≤ 64 }
{
    own_rules(state, event).keys.len() as u16
}

// The indices below a bound that good signatures have.
fn indices_below<S: Support>(support: &S, count: u16) -> Places
    requires { count ≤ 64 }
    ensures { result ≡ filter (λ n. S.has support.now (parts.index n)) (numbers_below count) }
{
    let mut indices = Places::new();
    for index in 0..count {
        let signed = support.has_index(index);
        indices.push_if(index, signed);
    }
    indices
}

// Whether these indices meet the threshold of the signing keys.
#[tactic(auto, unfolding(sith::specs::Tests::satisfied))]
fn meets_keys(state: Option<&KeyState>, event: &Event, indices: &[u16]) -> bool
    requires { IsKept event.now }
    ensures { result ≡ satisfied (exposure.own_rules (option_copied state.entry) event.now).kt
        (length (exposure.own_rules (option_copied state.entry) event.now).keys) indices.now }
{
    let count = key_count(state, event);
    match own_rules(state, event).kt {
        Some(kt) => kt.satisfied(count, indices),
        None => false,
    }
}

/// Whether the commitments that the good signatures on a rotation open meet the threshold of the state before it; true of
/// every other event, which opens nothing (KERI, pre-rotation).
pub fn meets_before<S: Support>(support: &S, state: Option<&KeyState>, event: &Event) -> bool
    ensures { result ≡ (not (is_rotation event.now)
        || parts.has_next (S.has support.now) (option_copied state.entry)) }
{
    !event.is_rotation() || meets_next(support, state)
}

// Whether the commitments that the good signatures open meet the threshold of the state, where there is one.
fn meets_next<S: Support>(support: &S, state: Option<&KeyState>) -> bool
    ensures { result ≡ parts.has_next (S.has support.now) (option_copied state.entry) }
{
    let Some(before) = state else {
        return false;
    };
    let count = before.next.len() as u16;
    let revealed = revealed_below(support, count);
    before.nt.satisfied(count, revealed.as_slice())
}

// The places below a bound of the commitments that good signatures open.
fn revealed_below<S: Support>(support: &S, count: u16) -> Places
    requires { count ≤ 64 }
    ensures { result ≡ filter (λ n. S.has support.now (parts.reveal n)) (numbers_below count) }
{
    let mut places = Places::new();
    for place in 0..count {
        let revealed = support.reveals(place);
        places.push_if(place, revealed);
    }
    places
}

/// Whether as many witnesses of the event's own list as it wants have a good signature (KERI, receipts). Places are
/// counted, so a key that stood twice would count twice: the witnesses that a body spells, and those of what follows a
/// state, stand once.
pub fn is_backed<S: Support>(support: &S, state: Option<&KeyState>, event: &Event) -> bool
    requires { IsKept event.now }
    ensures { result ≡ parts.has_backed (S.has support.now) (exposure.own_rules (option_copied state.entry) event.now) }
{
    let toad = toad_of(state, event);
    // Mostly receipts are wanting, and then no place is asked for.
    if support.most_backers() < toad {
        return false;
    }
    toad <= u64::from(backer_count(support, place_count(state, event)))
}

// How many of the witnesses below a bound have a good signature.
#[tactic(auto, using(crate::proofs::EventRulesLemmas::Filters::passing_more, key_state::proofs::Numbers::none_below))]
fn backer_count<S: Support>(support: &S, count: u16) -> u16
    ensures { result ≡ length (filter (λ n. S.has support.now (parts.backer n)) (numbers_below count)) }
{
    let mut backers = 0;
    for place in 0..count {
        if support.backs(place) {
            backers += 1;
        }
    }
    backers
}
