//! What an event says for itself: its witness list, and the commitments that its signatures open.
ghost use Rattle.std.specs.Prelude.{◌≡◌, ◌≤◌, length, Some, IfOk};
ghost use Rattle.std.specs.List.{list_any};
ghost use Rattle.key_state.specs.Exposure as exposure;

use crate::KeyState;
use crate::witnesses::list_behind;
use cesr_codes::{Digest, IndexedSig, Key};
use event_body::{Event, Rotation};
use lists::Items;
use said_digest::digest_of;
use std::alloc::{AllocError, Global};

impl KeyState {
    /// The event's own witness list: for a rotation the one that it changes the list to, for an inception the one that
    /// it begins with, and for others the list of the state.
    #[tactic(auto, using(crate::proofs::Behind::own_list))]
    pub fn list_of(&self, alloc: Global, event: &Event) -> Result<Items<Key>, AllocError>
        ensures { IfOk result (λ list. list ≡ (exposure.own_rules (Some self.now) event.now).witnesses) }
    {
        list_behind(alloc, self.list.as_slice(), event)
    }

    /// The places of the commitments that the signatures of a rotation open, rising and each once. Of other events
    /// there are none.
    #[tactic(auto, unfolding(crate::specs::Exposure::exposed))]
    pub fn exposed(
        &self,
        alloc: Global,
        event: &Event,
        sigs: &[IndexedSig],
    ) -> Result<Items<u16>, AllocError>
        ensures { IfOk result (λ places. places ≡ exposure.exposed self.now event.now sigs.now) }
    {
        match event {
            Event::Rot(event) | Event::Drt(event) => {
                opened(alloc, self.next.as_slice(), event.keys.as_slice(), sigs)
            }
            Event::Icp(_) | Event::Ixn(_) | Event::Dip(_) | Event::Rct(_) => Ok(Items::new(alloc)),
        }
    }
}

// The places of the commitments that the signatures open.
#[tactic(auto, using(crate::proofs::Numbers::filter_below), unfolding(crate::specs::Exposure::numbers_below))]
fn opened(
    alloc: Global,
    next: &[Digest],
    keys: &[Key],
    sigs: &[IndexedSig],
) -> Result<Items<u16>, AllocError>
    requires { length next.now ≤ 64 }
    ensures { IfOk result (λ places. places ≡ exposure.opened next.now keys.now sigs.now) }
{
    let mut places = Items::new(alloc);
    for place in 0..next.len() as u16 {
        if is_opened(next, keys, sigs, place) {
            places.push(place)?;
        }
    }
    Ok(places)
}

// Whether a signature opens the commitment at the place.
fn is_opened(next: &[Digest], keys: &[Key], sigs: &[IndexedSig], place: u16) -> bool
    ensures { result ≡ list_any (exposure.opens next.now keys.now place) sigs.now }
{
    sigs.iter().any(|sig| opens(next, keys, place, sig))
}

/// Whether the signature names the place of a commitment, where the key at its index is the one that was committed to
/// (KERI, pre-rotation). It takes no memory.
pub fn opens(next: &[Digest], keys: &[Key], place: u16, sig: &IndexedSig) -> bool
    ensures { result ≡ exposure.opens next.now keys.now place sig.now }
{
    if sig.ondex != Some(place) {
        return false;
    }
    match (next.get(place as usize), keys.get(sig.index as usize)) {
        (Some(digest), Some(key)) => commits(digest, key),
        _ => false,
    }
}

// Whether the digest is that of the key's spelling.
fn commits(digest: &Digest, key: &Key) -> bool
    ensures { result ≡ exposure.commits (Some digest.now) (Some key.now) }
{
    let mut text = [0; 44];
    key.write(&mut text);
    *digest == digest_of(digest.code, &text)
}
