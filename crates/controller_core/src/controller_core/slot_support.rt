//! What signatures in slots add up to.
ghost use Rattle.std.specs.Prelude.{◌≡◌, Some};
ghost use Rattle.std.specs.Option.{option_copied};
ghost use Rattle.key_state.specs.Exposure as exposure;
ghost use Rattle.controller_core.specs.ControllerCore.Slots as slots;

use crate::controller_core::Slot;
use cesr_codes::{Digest, Key};
use event_body::Event;
use journal::Support;
use key_state::KeyState;
use said_digest::digest_of;

/// The support that an event behind a state has from good signatures in these slots.
#[derive(Drop)]
pub(crate) struct SlotSupport<'a> {
    pub(crate) state: Option<&'a KeyState>,
    pub(crate) event: &'a Event,
    pub(crate) slots: &'a [Slot],
}

impl<'a> Support for SlotSupport<'a> {
    ghost has = { λ s. slots.slots_have (option_copied s.state) s.event.now s.slots.now };

    #[tactic(auto, unfolding(crate::specs::ControllerCore::Slots::slots_have))]
    fn has_index(&self, index: u16) -> bool {
        self.slots.iter().any(|slot| slot.index == index)
    }

    #[tactic(auto, unfolding(crate::specs::ControllerCore::Slots::slots_have))]
    fn reveals(&self, place: u16) -> bool {
        self.slots
            .iter()
            .any(|slot| opens_at(self.state, self.event, place, slot))
    }

    #[tactic(auto, unfolding(crate::specs::ControllerCore::Slots::slots_have))]
    fn backs(&self, _place: u16) -> bool {
        false
    }

    fn most_backers(&self) -> u64 {
        0
    }
}

// Whether the slot opens the commitment at a place of the state before, as only that of a rotation may.
fn opens_at(state: Option<&KeyState>, event: &Event, place: u16, slot: &Slot) -> bool
    ensures { result ≡ slots.slot_opens_at (option_copied state.entry) event.now place slot.now }
{
    let Some(before) = state else {
        return false;
    };
    match event {
        Event::Rot(event) | Event::Drt(event) => {
            opens(before.next.as_slice(), event.keys.as_slice(), place, slot)
        }
        Event::Icp(_) | Event::Ixn(_) | Event::Dip(_) | Event::Rct(_) => false,
    }
}

// Whether the slot names the place of a commitment, and the key at its index is the one that was committed to.
fn opens(next: &[Digest], keys: &[Key], place: u16, slot: &Slot) -> bool
    ensures { result ≡ slots.slot_opens next.now keys.now place slot.now }
{
    if slot.ondex != Some(place) {
        return false;
    }
    match (next.get(place as usize), keys.get(slot.index as usize)) {
        (Some(digest), Some(key)) => commits(digest, key),
        _ => false,
    }
}

// Whether the digest is that of the key's spelling.
fn commits(digest: &Digest, key: &Key) -> bool
    ensures { result ≡ exposure.commits (Some digest.now) (Some key.now) }
{
    let mut text = [0; 44];
    key.write(&mut text);
    *digest == digest_of(digest.code, &text)
}
