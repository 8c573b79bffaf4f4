//! Whether what an event waits for in the log is there.
ghost use Rattle.std.specs.Prelude.{◌≡◌, ◌&&◌, Some, slice_get};
ghost use Rattle.validator_core.specs.Acceptance.Standing.{AreSoundTables};
ghost use Rattle.claim_table.specs.CoreLaws.Waking as waking;
ghost use Rattle.validator_core.specs.Tables.View.{log_of};
ghost use Rattle.journal.specs.declared.journal.body.Body.{Body};

use crate::acceptance::base_state::is_behind_some;
use crate::acceptance::current::{event_of, state_of};
use crate::acceptance::seals::is_seal_there;
use crate::tables::Tables;
use journal::Mode;

/// Whether what the event of a number waits for in the log is there: the event before it and, in `Full` mode, its seal. It
/// takes no memory.
pub fn is_there(tables: &Tables, mode: Mode, number: u32) -> bool
    requires { AreSoundTables tables.now }
    ensures { (b : Body) → slice_get tables.now.held number ≡ Some b
        → result ≡ (waking.is_there (log_of tables.now) b && waking.is_anchored mode (log_of tables.now) b) }
{
    let Some(event) = event_of(tables, number) else {
        return false;
    };
    is_behind_some(tables, event) && is_seal_there(tables, mode, state_of(tables, event), event)
}
