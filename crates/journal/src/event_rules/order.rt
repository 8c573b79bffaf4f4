//! Which event stands behind which.
ghost use Rattle.std.specs.Prelude.{◌≡◌, ◌&&◌, ◌==◌, ◌+◌, Some};
ghost use Rattle.std.specs.Option.{option_copied};
ghost use Rattle.event_body.specs.EventBody.Events as events;
ghost use Rattle.journal.specs.Journal.Logs as logs;
ghost use Rattle.key_state.specs.KeyStates.{are_same};
ghost use Rattle.key_state.specs.Kept.{IsKept};
ghost use Rattle.key_state.specs.Same.{same_prefix};

use event_body::Event;
use key_state::KeyState;

/// Whether the event may come next: an inception where there is no state, else an event that follows the state. It takes
/// no memory.
pub fn takes(state: Option<&KeyState>, event: &Event) -> bool
    ensures { result ≡ logs.takes (option_copied state.entry) event.now }
{
    match state {
        Some(state) => state.misfit(event).is_none(),
        None => event.is_inception(),
    }
}

/// Whether the event stands right behind an earlier one of its identifier: it has the next number, and names that one's
/// digest.
pub fn is_behind(event: &Event, earlier: &Event) -> bool
    requires { IsKept earlier.now }
    ensures { result ≡ (same_prefix (events.prefix_of earlier.now) (events.prefix_of event.now)
        && (events.sn_of earlier.now + 1 == events.sn_of event.now)
        && are_same (events.prior_of event.now) (Some (events.said_of earlier.now))) }
{
    earlier.prefix() == event.prefix()
        && earlier.sn().checked_add(1) == Some(event.sn())
        && event.prior() == Some(earlier.said())
}
