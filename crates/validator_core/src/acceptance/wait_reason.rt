//! Why an event waits.
ghost use Rattle.std.specs.Prelude.{◌≡◌, ◌&&◌, ◌||◌, ℕ, List, None, Some, not, is_some, slice_get};
ghost use Rattle.std.specs.Option.{option_copied};
ghost use Rattle.validator_core.specs.Acceptance.Standing.{AreSoundTables, told_of};
ghost use Rattle.validator_core.specs.Tables.View.{body_of, log_of};
ghost use Rattle.event_body.specs.EventBody.Events as events;
ghost use Rattle.journal.specs.Journal.Logs as logs;
ghost use Rattle.journal.specs.Journal.Waiting as waiting;
ghost use Rattle.journal.specs.declared.journal.body.Body.{Body};

use crate::acceptance::base_state::{follows_some, is_behind_some, is_waiting, stands};
use crate::acceptance::current::{current_of, event_of};
use crate::acceptance::seals::{is_forbidden, is_local};
use crate::acceptance::wants::wanting;
use crate::tables::Tables;
use event_body::Event;
use journal::{Mode, Why, takes};
use key_state::KeyState;

/// Why the event of a number waits: the first reason that applies, and none for a receipt or an accepted event. It takes no
/// memory.
pub fn why_waits(tables: &Tables, mode: Mode, number: u32) -> Option<Why>
    requires { AreSoundTables tables.now }
    ensures held { (b : Body) → slice_get tables.now.held number ≡ Some b
        → result ≡ waiting.why_waits mode (told_of tables.now) (log_of tables.now) b }
    ensures none { slice_get tables.now.held number ≡ None → result ≡ None }
{
    let event = event_of(tables, number)?;
    if !is_waiting(tables, number, event) {
        return None;
    }
    let current = current_of(tables, event);
    if is_lost(tables, mode, current.state, event) {
        return Some(Why::Never);
    }
    if !is_behind_some(tables, event) {
        return Some(Why::Predecessor);
    }
    wanting(tables, mode, number, current, event)
}

// Whether by what is accepted it can't be: its log has another inception, it doesn't follow its predecessor, or no longer fits
// its log, or its delegator forbids it.
fn is_lost(tables: &Tables, mode: Mode, state: Option<&KeyState>, event: &Event) -> bool
    requires { AreSoundTables tables.now }
    ensures { (bytes : List ℕ) → result
        ≡ waiting.is_lost mode (log_of tables.now) (option_copied state.entry) (body_of bytes event.now) }
{
    is_late(state, event)
        || is_cut_off(tables, state, event)
        || (!is_local(mode) && is_forbidden(tables, state, event))
}

// Whether it is an inception where there is a state.
fn is_late(state: Option<&KeyState>, event: &Event) -> bool
    ensures { result ≡ (events.is_inception event.now && is_some (option_copied state.entry)) }
{
    event.is_inception() && state.is_some()
}

// Whether its predecessor is there, and it doesn't stand behind it or isn't taken by the current state.
fn is_cut_off(tables: &Tables, state: Option<&KeyState>, event: &Event) -> bool
    requires { AreSoundTables tables.now }
    ensures { (bytes : List ℕ) → result
        ≡ (is_some (logs.predecessor (log_of tables.now) (body_of bytes event.now))
        && (not (logs.stands (log_of tables.now) (body_of bytes event.now))
        || not (logs.takes (option_copied state.entry) event.now))) }
{
    follows_some(tables, event) && (!stands(tables, event) || !takes(state, event))
}
