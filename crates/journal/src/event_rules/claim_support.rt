//! The support of an event, from the claims on it.
ghost use Rattle.std.specs.Prelude.{◌≡◌, ◌==◌, Bool, slice_get};
ghost use Rattle.std.specs.List.{list_any};
ghost use Rattle.std.specs.Option.{option_copied};
ghost use Rattle.cesr_codes.specs.declared.indexed_sig.IndexedSig.{IndexedSig};
ghost use Rattle.journal.specs.EventRules.Claims.{is_held_so, is_so, passes};
ghost use Rattle.journal.specs.EventRules.Parts.{opens_at, parts_by};
ghost use Rattle.key_state.specs.Exposure.{own_rules};

use crate::event_rules::signers::{claimed_key, claimed_sig, opens_commitment};
use crate::event_rules::witnesses::{witness, witness_count};
use crate::event_rules::{Support, Verdicts};
use crate::journal::Claim;
use cesr_codes::IndexedSig;
use event_body::Event;
use key_state::KeyState;

/// The support of an event behind a state, found by going over the claims on it each time: for an event whose parts weren't
/// kept under that state. It takes no memory. Whose verdicts count is said by `verdicts`.
#[derive(Drop)]
pub struct ClaimSupport<'a, V: Verdicts> {
    pub verdicts: &'a V,
    pub claims: &'a [Claim],
    pub state: Option<&'a KeyState>,
    pub event: &'a Event,
}

impl<'a, V: Verdicts> Support for ClaimSupport<'a, V> {
    ghost has = { λ c. parts_by (V.says c.verdicts.now) (V.backs c.verdicts.now) (option_copied c.state) c.event.now c.claims.now };

    fn has_index(&self, index: u16) -> bool {
        is_signed_at(self.verdicts, self.claims, self.state, self.event, index)
    }

    fn reveals(&self, place: u16) -> bool {
        is_opened(self.verdicts, self.claims, self.state, self.event, place)
    }

    fn backs(&self, place: u16) -> bool {
        is_backer(self.verdicts, self.state, self.event, place)
    }

    fn most_backers(&self) -> u64 {
        witness_count(self.state, self.event) as u64
    }
}

// Whether a good signature among the claims has the index.
fn is_signed_at<V: Verdicts>(
    verdicts: &V,
    claims: &[Claim],
    state: Option<&KeyState>,
    event: &Event,
    index: u16,
) -> bool
    ensures { result ≡ list_any (is_held_so (V.says verdicts.now)
        (own_rules (option_copied state.entry) event.now) (λ s. s.index == index)) claims.now }
{
    claims
        .iter()
        .any(|claim| has_index(verdicts, state, event, claim, index))
}

// Whether the claim is a good signature with the index.
fn has_index<V: Verdicts>(
    verdicts: &V,
    state: Option<&KeyState>,
    event: &Event,
    claim: &Claim,
    index: u16,
) -> bool
    ensures { result ≡ is_held_so (V.says verdicts.now) (own_rules (option_copied state.entry) event.now)
        (λ s. s.index == index) claim.now }
{
    match good_sig(verdicts, state, event, claim) {
        Some(sig) => sig.index == index,
        None => false,
    }
}

// The signature of the controller in a claim, where it is good.
fn good_sig<V: Verdicts>(
    verdicts: &V,
    state: Option<&KeyState>,
    event: &Event,
    claim: &Claim,
) -> Option<IndexedSig>
    ensures { (test : IndexedSig → Bool)
        → passes test result ≡ is_held_so (V.says verdicts.now) (own_rules (option_copied state.entry) event.now) test
        claim.now }
{
    let Claim::Controller(sig) = claim else {
        return None;
    };
    let key = claimed_key(state, event, claim)?;
    if verdicts.says_yes(&key, &claimed_sig(claim)) {
        Some(*sig)
    } else {
        None
    }
}

// Whether a good signature among the claims opens the commitment at a place.
fn is_opened<V: Verdicts>(
    verdicts: &V,
    claims: &[Claim],
    state: Option<&KeyState>,
    event: &Event,
    place: u16,
) -> bool
    ensures { result ≡ list_any (is_held_so (V.says verdicts.now)
        (own_rules (option_copied state.entry) event.now) (opens_at (option_copied state.entry) event.now place))
        claims.now }
{
    claims
        .iter()
        .any(|claim| opens_place(verdicts, state, event, claim, place))
}

// Whether the claim is a good signature that opens the commitment at a place.
fn opens_place<V: Verdicts>(
    verdicts: &V,
    state: Option<&KeyState>,
    event: &Event,
    claim: &Claim,
    place: u16,
) -> bool
    ensures { result ≡ is_held_so (V.says verdicts.now) (own_rules (option_copied state.entry) event.now)
        (opens_at (option_copied state.entry) event.now place) claim.now }
{
    match good_sig(verdicts, state, event, claim) {
        Some(sig) => opens_commitment(state, event, place, &sig),
        None => false,
    }
}

// Whether the witness at a place has a good signature, where there is one.
fn is_backer<V: Verdicts>(verdicts: &V, state: Option<&KeyState>, event: &Event, place: u16) -> bool
    ensures { result ≡ is_so (V.backs verdicts.now)
        (slice_get (own_rules (option_copied state.entry) event.now).witnesses place) }
{
    match witness(state, event, usize::from(place)) {
        Some(key) => verdicts.is_backed_by(&key),
        None => false,
    }
}
