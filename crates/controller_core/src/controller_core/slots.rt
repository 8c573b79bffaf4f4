//! Whether slots are enough.
ghost use Rattle.std.specs.Prelude.{◌≡◌};
ghost use Rattle.std.specs.List.{list_all};
ghost use Rattle.std.specs.Option.{option_copied};
ghost use Rattle.journal.specs.EventRules.Parts.{has_signed};
ghost use Rattle.key_state.specs.Kept.{IsKept};
ghost use Rattle.controller_core.specs.ControllerCore.Slots as specs;

use crate::controller_core::Slot;
use crate::controller_core::slot_support::SlotSupport;
use event_body::Event;
use journal::{meets_before, meets_own, signing_keys};
use key_state::KeyState;

// How many signatures one group counts.
const MOST: usize = 4_095;

/// Whether there are no more slots than one group counts, each is in range, and good signatures in them sign the event
/// behind the state.
#[tactic(auto, unfolding(crate::specs::ControllerCore::Slots::are_enough))]
pub(crate) fn are_enough(state: Option<&KeyState>, event: &Event, slots: &[Slot]) -> bool
    requires { IsKept event.now }
    ensures { result ≡ specs.are_enough (option_copied state.entry) event.now slots.now }
{
    slots.len() <= MOST
        && are_in_range(slots, signing_keys(state, event).len())
        && are_signed(state, event, slots)
}

// Whether each slot is that of one of so many keys, and is spelled.
fn are_in_range(slots: &[Slot], keys: usize) -> bool
    ensures { result ≡ list_all (specs.is_in_range keys) slots.now }
{
    slots.iter().all(|slot| slot.is_in_range(keys))
}

// Whether good signatures in the slots meet the thresholds.
fn are_signed(state: Option<&KeyState>, event: &Event, slots: &[Slot]) -> bool
    requires { IsKept event.now }
    ensures { result ≡ has_signed (specs.slots_have (option_copied state.entry) event.now slots.now)
        (option_copied state.entry) event.now }
{
    let support = SlotSupport {
        state,
        event,
        slots,
    };
    meets_own(&support, state, event) && meets_before(&support, state, event)
}
