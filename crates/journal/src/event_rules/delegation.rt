//! Delegation.
ghost use Rattle.std.specs.Prelude.{◌≡◌};
ghost use Rattle.std.specs.Option.{option_copied};
ghost use Rattle.journal.specs.Journal.Seals as seals;

use cesr_codes::Prefix;
use event_body::Event;
use key_state::KeyState;

/// The delegator of a delegated event: its own of an inception, that of the state before a rotation.
pub fn delegator_of(state: Option<&KeyState>, event: &Event) -> Option<Prefix>
    ensures { result ≡ seals.delegator_of (option_copied state.entry) event.now }
{
    match event {
        Event::Dip(event) => event.delegator,
        Event::Drt(_) => state?.delegator,
        Event::Icp(_) | Event::Rot(_) | Event::Ixn(_) | Event::Rct(_) => None,
    }
}
