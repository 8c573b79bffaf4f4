//! What decides over an event: its own keys, witnesses and thresholds, or for an interaction those of the state
//! before it. A receipt goes the same way.
ghost use Rattle.std.specs.Prelude.{◌≡◌, ◌≤◌, None, length, IfNone, IfSome};
ghost use Rattle.std.specs.Option.{option_copied};
ghost use Rattle.journal.specs.EventRules.WitnessLists.{members};
ghost use Rattle.key_state.specs.Exposure as exposure;
ghost use Rattle.key_state.specs.Exposure.{rules_of};
ghost use Rattle.key_state.specs.Kept.{IsKept};
ghost use Rattle.sith.specs.Rules.{IsReadFor};

use crate::event_rules::witness_list::WitnessList;
use cesr_codes::Key;
use event_body::Event;
use key_state::KeyState;
use sith::Threshold;

/// What decides over an event.
#[derive(Clone, Copy)]
pub(crate) struct OwnRules<'a> {
    /// The signing keys.
    pub(crate) keys: &'a [Key],
    /// Their threshold. An interaction without a state has none, and no keys.
    pub(crate) kt: Option<&'a Threshold>,
    pub(crate) witnesses: WitnessList<'a>,
    /// How many witnesses must have signed a receipt.
    pub(crate) toad: u64,
}

/// The event's own rules, for an interaction or a receipt those of the state before it. It takes no memory.
#[tactic(auto, using(crate::proofs::EventRulesLemmas::KeyPlaces::few_changed))]
pub(crate) fn own_rules<'a>(state: Option<&'a KeyState>, event: &'a Event) -> OwnRules<'a>
    ensures keys { result.keys.now ≡ (exposure.own_rules (option_copied state.entry) event.now).keys }
    ensures threshold { IfSome result.kt
        (λ kt. kt.now ≡ (exposure.own_rules (option_copied state.entry) event.now).kt) }
    ensures none { IfNone result.kt (exposure.own_rules (option_copied state.entry) event.now ≡ rules_of None) }
    ensures witnesses { members result.witnesses
        ≡ (exposure.own_rules (option_copied state.entry) event.now).witnesses }
    ensures toad { result.toad ≡ (exposure.own_rules (option_copied state.entry) event.now).toad }

    // Of an event that a body may spell, lists are short, and the threshold is one of so many keys.
    ensures few_keys { IsKept event.now → length result.keys.now ≤ 64 }
    ensures few_witnesses { IsKept event.now → length (members result.witnesses) ≤ 128 }
    ensures read { IsKept event.now → IfSome result.kt (λ kt. IsReadFor kt.now (length result.keys.now)) }
{
    match event {
        Event::Icp(event) | Event::Dip(event) => OwnRules {
            keys: event.keys.as_slice(),
            kt: Some(&event.kt),
            witnesses: WitnessList::Listed(event.list.as_slice()),
            toad: event.toad,
        },
        Event::Rot(event) | Event::Drt(event) => OwnRules {
            keys: event.keys.as_slice(),
            kt: Some(&event.kt),
            witnesses: WitnessList::Changed(listed(state), event),
            toad: event.toad,
        },
        Event::Ixn(_) | Event::Rct(_) => rules_before(state),
    }
}

// The rules of a state.
fn rules_before(state: Option<&KeyState>) -> OwnRules<'_>
    ensures keys { result.keys.now ≡ (rules_of (option_copied state.entry)).keys }
    ensures threshold { IfSome result.kt (λ kt. kt.now ≡ (rules_of (option_copied state.entry)).kt) }
    ensures none { IfNone result.kt (rules_of (option_copied state.entry) ≡ rules_of None) }
    ensures witnesses { members result.witnesses ≡ (rules_of (option_copied state.entry)).witnesses }
    ensures toad { result.toad ≡ (rules_of (option_copied state.entry)).toad }
    ensures few_keys { length result.keys.now ≤ 64 }
    ensures few_witnesses { length (members result.witnesses) ≤ 64 }
    ensures read { IfSome result.kt (λ kt. IsReadFor kt.now (length result.keys.now)) }
{
    match state {
        Some(state) => OwnRules {
            keys: state.keys.as_slice(),
            kt: Some(&state.kt),
            witnesses: WitnessList::Listed(state.list.as_slice()),
            toad: state.toad,
        },
        None => OwnRules {
            keys: &[],
            kt: None,
            witnesses: WitnessList::Listed(&[]),
            toad: 0,
        },
    }
}

// The witnesses of a state, where there is one.
fn listed(state: Option<&KeyState>) -> &[Key]
    ensures list { result.now ≡ (rules_of (option_copied state.entry)).witnesses }
    ensures few { length result.now ≤ 64 }
{
    match state {
        Some(state) => state.list.as_slice(),
        None => &[],
    }
}
