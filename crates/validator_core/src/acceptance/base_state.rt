//! Whether an event stands, and on which state.
ghost use Rattle.std.specs.Prelude.{◌≡◌, ℕ, List, true, Some, is_some, slice_get};
ghost use Rattle.std.specs.Option.{option_copied};
ghost use Rattle.validator_core.specs.Acceptance.Standing.{AreSoundTables};
ghost use Rattle.validator_core.specs.Tables.AcceptedLog.Values.{last_place};
ghost use Rattle.validator_core.specs.Tables.View.{body_of, log_of};
ghost use Rattle.claim_table.specs.CoreLaws.Waking as waking;
ghost use Rattle.event_body.specs.EventBody.Events as events;
ghost use Rattle.journal.specs.Journal.Logs as logs;
ghost use Rattle.validator_core.specs.Acceptance.Current.{IsOnCurrent, state_on};

use crate::acceptance::{Footing, footing_of};
use crate::tables::Tables;
use event_body::Event;
use key_state::KeyState;

/// Whether the event stands.
pub(crate) fn stands(tables: &Tables, event: &Event) -> bool
    requires { AreSoundTables tables.now }
    ensures { (bytes : List ℕ) → result ≡ logs.stands (log_of tables.now) (body_of bytes event.now) }
{
    footing_of(tables, event).is_some()
}

/// Whether the event, which the current state of its identifier takes, stands on that state, which is at the place, or is an
/// inception. So it is where no two accepted events have one name, as ever but where digests collide.
pub(crate) fn is_on_current(tables: &Tables, event: &Event, current: Option<u32>) -> bool
    requires standing { AreSoundTables tables.now }
    requires last { current ≡ last_place (events.prefix_of event.now) tables.now.log.states }
    ensures { (bytes : List ℕ) → result ≡ true
        → logs.takes (logs.state (log_of tables.now) (events.prefix_of event.now)) event.now ≡ true
        → IsOnCurrent (log_of tables.now) (body_of bytes event.now) }
{
    if !tables.has_clash() {
        return true;
    }
    match footing_of(tables, event) {
        Some(Footing::Inception) => true,
        Some(Footing::Behind(place)) => is_place(current, place),
        None => false,
    }
}

// Whether it is this place.
fn is_place(current: Option<u32>, place: u32) -> bool
    ensures { result ≡ true → current ≡ Some place }
{
    match current {
        Some(last) => last == place,
        None => false,
    }
}

/// The state that an event stands on, with live events that may come after those that it follows.
pub(crate) fn footing_state(tables: &Tables, footing: Footing) -> Option<&KeyState>
    ensures { option_copied result ≡ state_on tables.now.log.states footing }
{
    match footing {
        Footing::Inception => None,
        Footing::Behind(place) => tables.log().state(place),
    }
}

/// Whether it is an inception, or the event before it is accepted.
pub(crate) fn is_behind_some(tables: &Tables, event: &Event) -> bool
    ensures { (bytes : List ℕ) → result ≡ waking.is_there (log_of tables.now) (body_of bytes event.now) }
{
    event.is_inception() || follows_some(tables, event)
}

/// Whether the event before it is accepted.
pub(crate) fn follows_some(tables: &Tables, event: &Event) -> bool
    ensures { (bytes : List ℕ) → result ≡ is_some (logs.predecessor (log_of tables.now) (body_of bytes event.now)) }
{
    tables.predecessor(event).is_some()
}

/// Whether the event of the body of a number isn't accepted.
pub(crate) fn is_waiting(tables: &Tables, number: u32, event: &Event) -> bool
    requires { AreSoundTables tables.now }
    ensures { (bytes : List ℕ) → slice_get tables.now.held number ≡ Some (body_of bytes event.now)
        → result ≡ waking.is_waiting (log_of tables.now) (body_of bytes event.now) }
{
    !event.is_receipt() && !tables.is_accepted(number)
}
