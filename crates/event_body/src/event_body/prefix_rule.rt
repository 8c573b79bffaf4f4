//! The rule of prefixes.
ghost use Rattle.std.specs.Prelude.{◌≡◌, ◌↔◌, ◌∷◌, [], IsTrue};
ghost use Rattle.event_body.specs.EventBody.Rules.{IsPrefixOf, HasPrefix};

use crate::event_body::{Event, Inception};
use cesr_codes::{Digest, Key, KeyCode, Prefix};

fn is_same_key(one: Key, other: Key) -> bool
    ensures { IsTrue result ↔ (one ≡ other) }
{
    one == other
}

// Whether it is the single key.
#[tactic(auto, using(std::proofs::lemmas::List::nil_from_length))]
fn is_single(key: Key, keys: &[Key]) -> bool
    ensures { IsTrue result ↔ (keys.now ≡ key ∷ []) }
{
    match keys.split_first() {
        Some((first, others)) => is_same_key(*first, key) && others.is_empty(),
        None => false,
    }
}

fn is_prefix_of(prefix: Prefix, event: &Inception) -> bool
    ensures { IsTrue result ↔ IsPrefixOf prefix event.now }
{
    match prefix {
        Prefix::Basic(key) => {
            is_single(key, event.keys.as_slice())
                && (key.code != KeyCode::Fixed || event.next.is_empty())
        }
        Prefix::Said(digest) => is_same(digest, event.said),
    }
}

fn is_same(one: Digest, other: Digest) -> bool
    ensures { IsTrue result ↔ (one ≡ other) }
{
    one == other
}

// Whether a delegated inception's prefix is its digest.
fn has_own_prefix(event: &Inception) -> bool
    ensures { IsTrue result ↔ (event.now.prefix ≡ Prefix.Said event.now.said) }
{
    match event.prefix {
        Prefix::Basic(_) => false,
        Prefix::Said(digest) => is_same(digest, event.said),
    }
}

/// Whether the event keeps the rule of prefixes.
pub(crate) fn has_prefix(event: &Event) -> bool
    ensures { IsTrue result ↔ HasPrefix event.now }
{
    match event {
        Event::Icp(event) => is_prefix_of(event.prefix, event),
        Event::Dip(event) => has_own_prefix(event),
        Event::Rot(_) | Event::Ixn(_) | Event::Drt(_) | Event::Rct(_) => true,
    }
}
