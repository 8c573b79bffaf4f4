//! Whether an event is one that another may wait for.
ghost use Rattle.std.specs.Prelude.{◌≡◌, ◌&&◌, ℕ, List, not, slice_get};
ghost use Rattle.validator_core.specs.Tables.View.{body_of, log_of};
ghost use Rattle.validator_core.specs.Acceptance.Standing.{AreSoundTables};
ghost use Rattle.claim_table.specs.CoreLaws.Waking as waking;
ghost use Rattle.event_body.specs.EventBody.Events as events;
ghost use Rattle.journal.specs.Journal.Logs as logs;
ghost use Rattle.journal.specs.Journal.Readiness as readiness;
ghost use Rattle.journal.specs.Journal.Seals as seals;
ghost use Rattle.key_state.specs.Kept.{IsKept};
ghost use Rattle.validator_core.specs.TableChanges.Awaited as awaited;

use crate::tables::Tables;
use cesr_codes::Prefix;
use event_backing::{holds_seal_of, sealed_by_parts};
use event_body::Event;
use journal::{Mode, delegator_of, is_behind};
use key_state::spelled_is_kept;

/// Whether the event of the second number may wait for that of the first, which comes next: this is right before it or, in
/// `Full` mode, the first of its delegator that seals it. It takes no memory.
pub(crate) fn is_awaited_at(tables: &Tables, mode: Mode, number: u32, waiting: u32) -> bool
    requires sound { AreSoundTables tables.now }
    ensures { result ≡ awaited.is_awaited_there mode (log_of tables.now) (slice_get tables.now.held number)
        (slice_get tables.now.held waiting) }
{
    spelled_is_kept();
    let Some(event) = tables.event(number) else {
        return false;
    };
    let Some(waiting) = tables.event(waiting) else {
        return false;
    };
    is_awaited(tables, mode, event, waiting)
}

// Whether the one event may wait for the other.
fn is_awaited(tables: &Tables, mode: Mode, event: &Event, waiting: &Event) -> bool
    requires sound { AreSoundTables tables.now }
    requires kept { IsKept event.now }
    ensures { (bs cs : List ℕ) → result
        ≡ awaited.is_awaited mode (log_of tables.now) (body_of cs event.now) (body_of bs waiting.now) }
{
    is_behind(waiting, event) || is_full(mode) && seals_first(tables, event, waiting)
}

// Whether seals are waited for.
fn is_full(mode: Mode) -> bool
    ensures { result ≡ not (readiness.is_local mode) }
{
    match mode {
        Mode::Full => true,
        Mode::Local => false,
    }
}

// Whether the event is the first of the other one's delegator that seals it.
fn seals_first(tables: &Tables, event: &Event, waiting: &Event) -> bool
    requires sound { AreSoundTables tables.now }
    ensures { (bs cs : List ℕ) → result
        ≡ waking.seals_first (log_of tables.now) (body_of cs event.now) (body_of bs waiting.now) }
{
    if !waiting.is_delegated() {
        return false;
    }
    match delegator(tables, waiting) {
        Some(delegator) => holds_first_seal(tables, event, waiting, &delegator),
        None => false,
    }
}

// The delegator of an event behind the log.
fn delegator(tables: &Tables, event: &Event) -> Option<Prefix>
    requires sound { AreSoundTables tables.now }
    ensures { result ≡ seals.delegator_of (logs.state (log_of tables.now) (events.prefix_of event.now)) event.now }
{
    delegator_of(tables.log().current(&event.prefix()), event)
}

// Whether the event is of the delegator and seals the other one, and no accepted one does.
fn holds_first_seal(tables: &Tables, event: &Event, waiting: &Event, delegator: &Prefix) -> bool
    ensures { (bs cs : List ℕ) → result
        ≡ (logs.is_of delegator.now (body_of cs event.now) && seals.seals event.now waiting.now
        && not (seals.is_sealed (log_of tables.now) delegator.now waiting.now)) }
{
    event.prefix() == *delegator
        && holds_seal(event, waiting)
        && !tables.is_sealed(delegator, waiting)
}

// Whether the event holds the seal of the other one.
fn holds_seal(event: &Event, sealed: &Event) -> bool
    ensures { result ≡ seals.seals event.now sealed.now }
{
    sealed_by_parts();
    holds_seal_of(event, &sealed.prefix(), sealed.sn(), &sealed.said())
}
