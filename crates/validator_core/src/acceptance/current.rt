//! An event of the tables, and the current state of its identifier.
ghost use Rattle.std.specs.Prelude.{◌≡◌, slice_get, IfSome};
ghost use Rattle.std.specs.Option.{option_copied, option_map};
ghost use Rattle.validator_core.specs.Acceptance.Standing.{AreSoundTables};
ghost use Rattle.validator_core.specs.Tables.AcceptedLog.Values.{last_place, state_there};
ghost use Rattle.validator_core.specs.Tables.View.{log_of};
ghost use Rattle.event_body.specs.EventBody.Events as events;
ghost use Rattle.journal.specs.Journal.Logs as logs;
ghost use Rattle.key_state.specs.Kept.{IsKept};
ghost use Rattle.key_state.specs.States.{IsState};

use crate::tables::Tables;
use cesr_codes::Prefix;
use event_body::Event;
use key_state::{KeyState, spelled_is_kept};

/// The event of the body of a number.
pub(crate) fn event_of(tables: &Tables, number: u32) -> Option<&Event>
    requires { AreSoundTables tables.now }
    ensures event { option_copied result ≡ option_map (λ b. b.event) (slice_get tables.now.held number) }
    ensures kept { IfSome (option_copied result) IsKept }
{
    spelled_is_kept();
    tables.event(number)
}

/// The current state of an identifier, and its place in the log.
#[derive(Clone, Copy)]
pub(crate) struct CurrentState<'a> {
    pub(crate) place: Option<u32>,
    pub(crate) state: Option<&'a KeyState>,
}

/// The current state of an event's identifier, with its place.
pub(crate) fn current_of<'a>(tables: &'a Tables, event: &Event) -> CurrentState<'a>
    requires { AreSoundTables tables.now }
    ensures place { result.place ≡ last_place (events.prefix_of event.now) tables.now.log.states }
    ensures state { option_copied result.state ≡ logs.state (log_of tables.now) (events.prefix_of event.now) }
{
    let place = tables.log().current_place(&event.prefix());
    CurrentState {
        place,
        state: state_at(tables, place),
    }
}

// The state at a place, where one is given.
fn state_at(tables: &Tables, place: Option<u32>) -> Option<&KeyState>
    ensures { option_copied result ≡ state_there tables.now.log.states place }
{
    tables.log().state(place?)
}

/// The current state of an event's identifier.
pub(crate) fn state_of<'a>(tables: &'a Tables, event: &Event) -> Option<&'a KeyState>
    requires { AreSoundTables tables.now }
    ensures { option_copied result ≡ logs.state (log_of tables.now) (events.prefix_of event.now) }
{
    current(tables, &event.prefix())
}

/// The current state of an identifier.
pub(crate) fn current<'a>(tables: &'a Tables, prefix: &Prefix) -> Option<&'a KeyState>
    requires { AreSoundTables tables.now }
    ensures { option_copied result ≡ logs.state (log_of tables.now) prefix.now }
{
    tables.log().current(prefix)
}

/// What is true of each state that there is.
pub(crate) fn is_state(state: Option<&KeyState>)
    ensures { IfSome (option_copied state.entry) IsState }
{
    if let Some(state) = state {
        let _sn = state.est_sn;
    }
}
