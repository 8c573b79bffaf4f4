//! Whether an event is ready to be accepted.
ghost use Rattle.std.specs.Prelude.{◌≡◌, Some, slice_get};
ghost use Rattle.validator_core.specs.Acceptance.Standing.{AreSoundTables, told_of};
ghost use Rattle.validator_core.specs.Tables.View.{log_of};
ghost use Rattle.journal.specs.Journal.Readiness as readiness;
ghost use Rattle.journal.specs.declared.journal.body.Body.{Body};

use crate::acceptance::base_state::is_waiting;
use crate::acceptance::current::{current_of, event_of};
use crate::acceptance::wants::wanting;
use crate::tables::Tables;
use journal::{Mode, takes};

/// Whether the event of a number is ready to be accepted. It takes no memory.
pub fn is_ready(tables: &Tables, mode: Mode, number: u32) -> bool
    requires { AreSoundTables tables.now }
    ensures { (b : Body) → slice_get tables.now.held number ≡ Some b
        → result ≡ readiness.is_ready mode (told_of tables.now) (log_of tables.now) b }
{
    let Some(event) = event_of(tables, number) else {
        return false;
    };
    let current = current_of(tables, event);
    if !takes(current.state, event) {
        return false;
    }
    // Mostly a signature or a receipt is wanting: whether the event is accepted already is asked last.
    if wanting(tables, mode, number, current, event).is_some() {
        return false;
    }
    is_waiting(tables, number, event)
}
