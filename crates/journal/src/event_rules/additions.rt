//! What a claim adds to the support of its event.
ghost use Rattle.std.specs.Prelude.{◌≡◌, ◌==◌, ℕ, true, false, slice_get, IfNone, IfSome};
ghost use Rattle.std.specs.Option.{option_copied};
ghost use Rattle.journal.specs.EventRules.Additions.{adds, is_number};
ghost use Rattle.journal.specs.EventRules.Claims.{has_this, is_held_as};
ghost use Rattle.journal.specs.EventRules.Parts.{Part, brings_all, opens_at};
ghost use Rattle.key_state.specs.Exposure.{own_rules};
ghost use Rattle.key_state.specs.Kept.{IsKept};
ghost use Rattle.key_state.specs.Same.{are_witnesses, has_key};

use crate::event_rules::signers::opens_commitment;
use crate::event_rules::witnesses::{place_of, witness};
use crate::journal::Claim;
use cesr_codes::{IndexedSig, Key};
use event_body::Event;
use key_state::{KeyState, is_key};

/// The parts that a claim adds to the support of its event, once its signature has a yes.
#[derive(Clone, Copy, PartialEq, Eq, Debug)]
pub struct Additions {
    /// The index of a signature of the controller.
    pub index: Option<u16>,
    /// The place of the commitment that it opens, where the event is a rotation.
    pub reveal: Option<u16>,
    /// The place of its key among the witnesses of the event.
    pub backer: Option<u16>,
}

impl Additions {
    /// What a claim on an event behind a state adds, by its key, which [`crate::event_rules::claimed_key`] finds. It takes no memory.
    /// Where a witness stood twice, one of its places is given; in the list of an event that follows a state each stands once.
    pub fn of(state: Option<&KeyState>, event: &Event, claim: &Claim, key: &Key) -> Additions
        requires { IsKept event.now }
        ensures { are_witnesses (own_rules (option_copied state.entry) event.now).witnesses ≡ true → (p : Part)
            → adds result p ≡ brings_all (option_copied state.entry) event.now (record { claim = claim.now; key = key.now }) p }
    {
        Additions {
            index: index_of(claim),
            reveal: revealed_by(state, event, claim),
            backer: backer_of(state, event, claim, key),
        }
    }
}

// A place of the key in the event's own list of witnesses. A receipt by its witness's index mostly says it: else the list is gone over.
fn backer_of(state: Option<&KeyState>, event: &Event, claim: &Claim, key: &Key) -> Option<u16>
    requires { IsKept event.now }
    ensures found { IfSome result (λ place. has_this
        (slice_get (own_rules (option_copied state.entry) event.now).witnesses place) key.now ≡ true) }
    ensures none { IfNone result (has_key (own_rules (option_copied state.entry) event.now).witnesses key.now ≡ false) }
{
    if let Claim::Witness(sig) = claim
        && is_witness_at(state, event, sig.index, key)
    {
        return Some(sig.index);
    }
    place_of(state, event, key)
}

// Whether the key stands at the place of the event's own list of witnesses.
fn is_witness_at(state: Option<&KeyState>, event: &Event, place: u16, key: &Key) -> bool
    ensures { result ≡ has_this (slice_get (own_rules (option_copied state.entry) event.now).witnesses place) key.now }
{
    match witness(state, event, usize::from(place)) {
        Some(held) => is_key(&held, key),
        None => false,
    }
}

// The index of a signature of the controller.
fn index_of(claim: &Claim) -> Option<u16>
    ensures { (n : ℕ) → is_number result n ≡ is_held_as (λ s. s.index == n) claim.now }
{
    match claim {
        Claim::Controller(sig) => Some(sig.index),
        Claim::Witness(_) | Claim::Couple(..) => None,
    }
}

// The place of the commitment that a signature of the controller opens.
fn revealed_by(state: Option<&KeyState>, event: &Event, claim: &Claim) -> Option<u16>
    ensures { (n : ℕ) → is_number result n ≡ is_held_as (opens_at (option_copied state.entry) event.now n) claim.now }
{
    match claim {
        Claim::Controller(sig) => reveal_of(state, event, sig),
        Claim::Witness(_) | Claim::Couple(..) => None,
    }
}

/// The place of the commitment to a next key that a signature on the event opens behind a state, where it opens one (KERI,
/// pre-rotation). It takes no memory.
pub fn reveal_of(state: Option<&KeyState>, event: &Event, sig: &IndexedSig) -> Option<u16>
    ensures { (n : ℕ) → is_number result n ≡ opens_at (option_copied state.entry) event.now n sig.now }
{
    let place = sig.ondex?;
    if opens_commitment(state, event, place, sig) {
        Some(place)
    } else {
        None
    }
}
