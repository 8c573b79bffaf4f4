//! The signing keys of an event, the keys of claims, and what their signatures open.
ghost use Rattle.std.specs.Prelude.{◌≡◌};
ghost use Rattle.std.specs.Option.{option_copied};
ghost use Rattle.journal.specs.EventRules.Parts.{opens_at};
ghost use Rattle.journal.specs.Journal.History as history;
ghost use Rattle.key_state.specs.Exposure as exposure;

use crate::event_rules::own_rules::own_rules;
use crate::event_rules::witnesses::{has_witness, witness};
use crate::journal::Claim;
use cesr_codes::{IndexedSig, Key, Sig};
use event_body::Event;
use key_state::{KeyState, opens};

/// The keys that sign the event: its own, or for an interaction those of the state before it.
pub fn signing_keys<'a>(state: Option<&'a KeyState>, event: &'a Event) -> &'a [Key]
    ensures { result.now ≡ (exposure.own_rules (option_copied state.entry) event.now).keys }
{
    own_rules(state, event).keys
}

/// The key of a claim on the event: that of its index among the signing keys or the witnesses, or its own where it is a
/// witness.
pub fn claimed_key(state: Option<&KeyState>, event: &Event, claim: &Claim) -> Option<Key>
    ensures { result ≡ history.claimed_key (exposure.own_rules (option_copied state.entry) event.now) claim.now }
{
    match claim {
        Claim::Controller(sig) => signing_keys(state, event)
            .get(usize::from(sig.index))
            .copied(),
        Claim::Witness(sig) => witness(state, event, usize::from(sig.index)),
        Claim::Couple(key, _) => {
            if has_witness(state, event, key) {
                Some(*key)
            } else {
                None
            }
        }
    }
}

/// The signature of a claim.
pub fn claimed_sig(claim: &Claim) -> Sig
    ensures { result ≡ history.claimed_sig claim.now }
{
    match claim {
        Claim::Controller(sig) | Claim::Witness(sig) => sig.sig,
        Claim::Couple(_, sig) => *sig,
    }
}

/// Whether a signature on the event opens the commitment at a place of the state before it, as only that of a rotation
/// may (KERI, pre-rotation). It takes no memory.
pub(crate) fn opens_commitment(
    state: Option<&KeyState>,
    event: &Event,
    place: u16,
    sig: &IndexedSig,
) -> bool
    ensures { result ≡ opens_at (option_copied state.entry) event.now place sig.now }
{
    let Some(before) = state else {
        return false;
    };
    match event {
        Event::Rot(event) | Event::Drt(event) => {
            opens(before.next.as_slice(), event.keys.as_slice(), place, sig)
        }
        Event::Icp(_) | Event::Ixn(_) | Event::Dip(_) | Event::Rct(_) => false,
    }
}
