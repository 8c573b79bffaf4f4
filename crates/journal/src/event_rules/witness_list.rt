//! Lists of witnesses, as events have them. They are gone over without memory for a list.
ghost use Rattle.std.specs.Prelude.{◌≡◌, true, false, filter, length, not, slice_get, IfSome, IfNone};
ghost use Rattle.journal.specs.EventRules.Claims.{has_this};
ghost use Rattle.journal.specs.EventRules.WitnessLists.{members};
ghost use Rattle.key_state.specs.KeyStates.{changed_list};
ghost use Rattle.key_state.specs.Same as same;

use cesr_codes::Key;
use event_body::Rotation;
use key_state::{changed_count, has_key, is_key, left_count};

/// A list of witnesses.
#[derive(Clone, Copy)]
pub(crate) enum WitnessList<'a> {
    Listed(&'a [Key]),
    /// An older list with the changes of a rotation.
    Changed(&'a [Key], &'a Rotation),
}

impl<'a> WitnessList<'a> {
    /// The witness of a number.
    pub(crate) fn get(self, number: usize) -> Option<Key>
        ensures { result ≡ slice_get (members self.entry) number }
    {
        match self {
            WitnessList::Listed(keys) => keys.get(number).copied(),
            WitnessList::Changed(old, event) => changed_witness(old, event, number),
        }
    }

    /// How many witnesses there are.
    pub(crate) fn len(self) -> usize
        ensures { result ≡ length (members self.entry) }
    {
        match self {
            WitnessList::Listed(keys) => keys.len(),
            WitnessList::Changed(old, event) => changed_count(old, event),
        }
    }

    /// Whether the key is a witness's.
    pub(crate) fn has(self, key: &Key) -> bool
        ensures { result ≡ same.has_key (members self.entry) key.now }
    {
        match self {
            WitnessList::Listed(keys) => has_key(keys, key),
            WitnessList::Changed(old, event) => is_changed_witness(old, event, key),
        }
    }

    /// A place of the key.
    pub(crate) fn place_of(self, key: &Key) -> Option<usize>
        ensures found { IfSome result (λ place. has_this (slice_get (members self.entry) place) key.now ≡ true) }
        ensures none { IfNone result (same.has_key (members self.entry) key.now ≡ false) }
    {
        match self {
            WitnessList::Listed(keys) => place_in(keys, key),
            WitnessList::Changed(old, event) => changed_place(old, event, key),
        }
    }
}

// The first place of the key in the list.
fn place_in(keys: &[Key], key: &Key) -> Option<usize>
    ensures found { IfSome result (λ place. has_this (slice_get keys.now place) key.now ≡ true) }
    ensures none { IfNone result (same.has_key keys.now key.now ≡ false) }
{
    keys.iter().position(|held| is_key(held, key))
}

// A place of the key in the list without the cuts, with the adds behind it. It goes over each list once, and over the cuts for
// each member of the old one.
fn changed_place(old: &[Key], event: &Rotation, key: &Key) -> Option<usize>
    ensures found { IfSome result (λ place. has_this (slice_get (changed_list old.now event.now) place) key.now ≡ true) }
    ensures none { IfNone result (same.has_key (changed_list old.now event.now) key.now ≡ false) }
{
    let cuts = event.cuts.as_slice();
    if !has_key(cuts, key) {
        if let Some(place) = place_in(old, key) {
            return Some(left_count(&old[..place], cuts));
        }
    }
    let place = place_in(event.adds.as_slice(), key)?;
    Some(left_count(old, cuts) + place)
}

// The member of a number of the list without the cuts, with the adds behind it.
fn changed_witness(old: &[Key], event: &Rotation, number: usize) -> Option<Key>
    ensures { result ≡ slice_get (changed_list old.now event.now) number }
{
    let cuts = event.cuts.as_slice();
    match left_witness(old, cuts, number) {
        Some(key) => Some(key),
        None => event
            .adds
            .as_slice()
            .get(number - left_count(old, cuts))
            .copied(),
    }
}

// The member of a number of the list without the cuts.
fn left_witness(old: &[Key], cuts: &[Key], number: usize) -> Option<Key>
    ensures { result ≡ slice_get (filter (λ k. not (same.has_key cuts.now k)) old.now) number }
{
    let mut left = number;
    for place in 0..old.len() {
        let key = old[place];
        if !has_key(cuts, &key) {
            if left == 0 {
                return Some(key);
            }
            left -= 1;
        }
    }
    None
}

// Whether the key is in that list. It goes over each list once.
#[tactic(auto, using(crate::proofs::EventRulesLemmas::ChangedPlaces::has_changed))]
fn is_changed_witness(old: &[Key], event: &Rotation, key: &Key) -> bool
    ensures { result ≡ same.has_key (changed_list old.now event.now) key.now }
{
    has_key(event.adds.as_slice(), key)
        || (has_key(old, key) && !has_key(event.cuts.as_slice(), key))
}
