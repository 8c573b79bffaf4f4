//! What is wanting in an event that the current state of its identifier takes.
ghost use Rattle.std.specs.Prelude.{◌≡◌, ◌<◌, length};
ghost use Rattle.std.specs.Option.{option_copied};
ghost use Rattle.validator_core.specs.Acceptance.Standing.{AreSoundTables};
ghost use Rattle.validator_core.specs.Tables.AcceptedLog.Values.{last_place};
ghost use Rattle.validator_core.specs.Tables.View.{log_of};
ghost use Rattle.event_body.specs.EventBody.Events as events;
ghost use Rattle.journal.specs.Journal.Seals as seals;
ghost use Rattle.key_state.specs.Kept.{IsKept};
ghost use Rattle.validator_core.specs.Acceptance.Wants as specs;

use crate::acceptance::base_state::is_on_current;
use crate::acceptance::current::{CurrentState, is_state};
use crate::acceptance::entry_support::EntrySupport;
use crate::acceptance::row_support::RowSupport;
use crate::acceptance::seals::{is_anchored, is_local};
use crate::tables::{Tables, name_of};
use event_body::Event;
use journal::{Mode, Support, Why, is_backed, meets_before, meets_own};
use key_state::KeyState;

/// The first that is wanting in the event of a number, which the current state of its identifier takes. Mostly the event
/// stands on that state, and what it adds up to is kept; where digests collide its claims are gone over.
pub(crate) fn wanting(
    tables: &Tables,
    mode: Mode,
    number: u32,
    current: CurrentState,
    event: &Event,
) -> Option<Why>
    requires standing { AreSoundTables tables.now }
    requires last { current.place ≡ last_place (events.prefix_of event.now) tables.now.log.states }
    requires kept { IsKept event.now }
    requires held { number < length tables.now.held }
    ensures { specs.IsWanting mode tables.now number event.now (option_copied current.entry.state) result }
{
    let state = current.state;
    is_state(state);
    if is_on_current(tables, event, current.place) {
        let rows = RowSupport {
            claims: tables.claims(),
            number,
        };
        return wanting_by(tables, mode, &rows, state, event);
    }
    let entries = EntrySupport {
        tables,
        entries: tables.told(&name_of(event)),
        number,
        state,
        event,
    };
    wanting_by(tables, mode, &entries, state, event)
}

// The first that is wanting, by what supports the event.
fn wanting_by<S: Support>(
    tables: &Tables,
    mode: Mode,
    support: &S,
    state: Option<&KeyState>,
    event: &Event,
) -> Option<Why>
    requires standing { AreSoundTables tables.now }
    requires kept { IsKept event.now }
    ensures { result ≡ specs.wants_by mode (S.has support.now) (option_copied state.entry) event.now
        (seals.anchored (log_of tables.now) (option_copied state.entry) event.now) }
{
    if !meets_own(support, state, event) {
        return Some(Why::Signatures);
    }
    if !meets_before(support, state, event) {
        return Some(Why::Next);
    }
    if is_local(mode) {
        return None;
    }
    if !is_backed(support, state, event) {
        return Some(Why::Receipts);
    }
    if !is_anchored(tables, state, event) {
        return Some(Why::Seal);
    }
    None
}
