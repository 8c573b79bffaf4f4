//! Whether an event counts where conflicts are looked for.
ghost use Rattle.std.specs.Prelude.{◌≡◌, Some, slice_get};
ghost use Rattle.validator_core.specs.Acceptance.Standing.{AreSoundTables, told_of};
ghost use Rattle.validator_core.specs.Tables.View.{log_of};
ghost use Rattle.journal.specs.Journal.Conflicts as conflicts;
ghost use Rattle.journal.specs.declared.journal.body.Body.{Body};

use crate::acceptance::base_state::footing_state;
use crate::acceptance::current::{event_of, is_state};
use crate::acceptance::footing_of;
use crate::acceptance::row_support::RowSupport;
use crate::tables::Tables;
use journal::{meets_before, meets_own};

/// Whether the event of a number stands and is signed under the state that it follows: then it may conflict with others. It
/// takes no memory.
pub fn counts(tables: &Tables, number: u32) -> bool
    requires { AreSoundTables tables.now }
    ensures { (b : Body) → slice_get tables.now.held number ≡ Some b
        → result ≡ conflicts.counts (told_of tables.now) (log_of tables.now) b }
{
    let Some(event) = event_of(tables, number) else {
        return false;
    };
    if event.is_receipt() {
        return false;
    }
    let Some(footing) = footing_of(tables, event) else {
        return false;
    };
    let state = footing_state(tables, footing);
    is_state(state);
    let rows = RowSupport {
        claims: tables.claims(),
        number,
    };
    meets_own(&rows, state, event) && meets_before(&rows, state, event)
}
