//! Backers of an event.
ghost use Rattle.std.specs.Prelude.{◌≡◌, ◌≤◌, length, map, position, IfOk};
ghost use Rattle.event_backing.specs.Members.{added_in, fresh_witness};
ghost use Rattle.key_state.specs.Same as same;

use crate::witness::Witness;
use cesr_codes::{Key, KeyCode};
use key_state::has_key;
use std::alloc::{AllocError, Global};
use std::marker::Model;

/// The witnesses of a list, and which of them back an event. Each counts once, however often it signed.
#[derive(Drop)]
pub struct Backers {
    witnesses: Vec<Witness>,
}

impl Model for Backers {
    ghost use Rattle.std.specs.Prelude.{◌≡◌, ◌≤◌, true, length, map};
    ghost use Rattle.key_state.specs.Same.{are_witnesses};
    ghost use Rattle.event_backing.specs.Backing.{Backing};
    ghost use Rattle.event_backing.specs.Members.{backing_of, keys_of};

    ghost Value = { Backing };

    ghost view = { λ b. backing_of b.witnesses.items };

    ghost invariant = { λ b. (are_witnesses (keys_of b.witnesses.items) ≡ true) × (length b.witnesses.items ≤ 65535) };
}

impl Backers {
    ghost use Rattle.std.specs.Prelude.{◌≡◌, ◌↔◌, ◌≤◌, ◌&&◌, not, length, IsTrue, IsSome, IfSome, IfOk};
    ghost use Rattle.key_state.specs.Same.{are_witnesses, has_key};
    ghost use Rattle.event_backing.specs.Backing.{none_added, with_added};

    /// No backers yet of the witnesses of a list, or none where they can't be witnesses: a key stands twice, or can be
    /// rotated.
    pub fn of(alloc: Global, list: &[Key]) -> Result<Option<Backers>, AllocError>
        requires few { length list.now ≤ 65535 }
        ensures found { IfOk result (λ backers. IsSome backers ↔ IsTrue (are_witnesses list.now)) }
        ensures fresh { IfOk result (λ backers. IfSome backers (λ b. b ≡ none_added list.now)) }
    {
        if !are_witnesses(list) {
            return Ok(None);
        }
        let witnesses = fresh(alloc, list)?;
        Ok(Some(Backers { witnesses }))
    }

    /// Adds a witness by its key, and says whether it stands in the list and wasn't added before.
    pub fn add(&mut self, key: &Key) -> bool
        ensures new { result ≡ (has_key self.old.list key.now && not (has_key self.old.added key.now)) }
        ensures added { self.new ≡ with_added key.now self.old }
    {
        let Some(place) = place_of(self.witnesses.as_slice(), key) else {
            return false;
        };
        let witness = &mut self.witnesses[place];
        let is_new = !witness.added;
        witness.added = true;
        is_new
    }

    /// How many witnesses were added.
    pub fn count(&self) -> u16
        ensures { result ≡ length self.now.added }
    {
        count_added(self.witnesses.as_slice()) as u16
    }
}

// Whether the key can't be rotated.
fn is_fixed(key: &Key) -> bool
    ensures { result ≡ same.is_fixed key.now.code }
{
    matches!(key.code, KeyCode::Fixed)
}

// Whether each key can't be rotated, and none comes again.
fn are_witnesses(list: &[Key]) -> bool
    ensures { result ≡ same.are_witnesses list.now }
{
    let mut left = list;
    while let Some((key, others)) = left.split_first() {
        if !is_fixed(key) || has_key(others, key) {
            return false;
        }
        left = others;
    }
    true
}

// The witnesses of a list, none of them added.
fn fresh(alloc: Global, list: &[Key]) -> Result<Vec<Witness>, AllocError>
    ensures { IfOk result (λ witnesses. witnesses.items ≡ map fresh_witness list.now) }
{
    list.iter()
        .map(|key| Witness {
            key: *key,
            added: false,
        })
        .collect(alloc)
}

// Where the key stands among the witnesses.
fn place_of(witnesses: &[Witness], key: &Key) -> Option<usize>
    ensures { result ≡ position (λ w. same.same_key w.key key.now) witnesses.now }
{
    witnesses.iter().position(|witness| witness.key == *key)
}

fn count_added(witnesses: &[Witness]) -> usize
    ensures all { result ≡ length (added_in witnesses.now) }
    ensures few { result ≤ length witnesses.now }
{
    witnesses.iter().filter(|witness| witness.added).count()
}
