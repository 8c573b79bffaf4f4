//! The last state of an identifier, among the numbers of a hint.
ghost use Rattle.std.specs.Prelude.{◌≡◌, slice_get};
ghost use Rattle.std.specs.List.Sorted.{IsStrictlyIncreasing};
ghost use Rattle.validator_core.specs.Tables.AcceptedLog.Hints.{IsLast, is_state_of};

use cesr_codes::Prefix;
use key_state::KeyState;

/// The greatest of the numbers that is the place of a state of this identifier.
pub(crate) fn last_at(states: &[KeyState], numbers: &[u32], prefix: &Prefix) -> Option<u32>
    requires rising { IsStrictlyIncreasing numbers.now }
    ensures { IsLast (λ k. is_state_of prefix.now (slice_get states.now k)) numbers.now result }
{
    for i in (0..numbers.len()).rev() {
        let place = numbers[i];
        if is_state_at(states, place, prefix) {
            return Some(place);
        }
    }
    None
}

// Whether the state at a place is of this identifier.
fn is_state_at(states: &[KeyState], place: u32, prefix: &Prefix) -> bool
    ensures { result ≡ is_state_of prefix.now (slice_get states.now place) }
{
    match states.get(place as usize) {
        Some(state) => state.prefix == *prefix,
        None => false,
    }
}
