//! One more accepted event.
ghost use Rattle.std.specs.Prelude.{◌≡◌, ◌<◌, Some, IfErr, IfNone, IfOk, IfSome, IsTrue, OnOk, false, length, slice_get, true};
ghost use Rattle.std.specs.Option.{option_copied};
ghost use Rattle.event_body.specs.EventBody.Events.{is_interaction, prefix_of as event_prefix};
ghost use Rattle.key_state.specs.Kept.{IsKept};
ghost use Rattle.key_state.specs.declared.state_fault.StateFault.TheVariants.{OutOfMemory};
ghost use Rattle.journal.specs.declared.journal.body.Body.{Body};
ghost use Rattle.journal.specs.Journal.Grown.{fits};
ghost use Rattle.journal.specs.Journal.Logs.{stepped, takes};
ghost use Rattle.validator_core.specs.Tables.AcceptedLog.Values.{last_of};
ghost use Rattle.validator_core.specs.Tables.View.{log_of};
ghost use Rattle.validator_core.specs.Acceptance.Standing.{Accepts, Extends, AreSoundTables};
ghost use Rattle.validator_core.specs.TableChanges.Turning.{IsAppended, MakesState};

use crate::table_changes::behind::{numbers_behind, raise_behind};
use crate::tables::{AcceptedLog, Tables};
use event_body::Event;
use key_state::{KeyState, StateFault, first, spelled_is_kept};
use std::alloc::{AllocError, Global};

/// Accepts the event of a number, which fits behind the log: it is last there, and all claims on the events that stand right
/// behind it are raised. After an error some of that may be there: the tables are to be cut back.
pub fn accept(alloc: Global, tables: &mut Tables, number: u32) -> Result<(), AllocError>
    requires sound { AreSoundTables tables.old }
    requires held { number < length tables.old.held }
    requires fits { (b : Body) → slice_get tables.old.held number ≡ Some b → IsTrue (fits (log_of tables.old) b) }
    ensures ok { OnOk result ((b : Body) → slice_get tables.old.held number ≡ Some b → Accepts b tables.old tables.new) }
    ensures extends { Extends tables.old tables.new }
{
    let behind = numbers_behind(alloc, tables, number)?;
    append(alloc, tables, number)?;
    raise_behind(tables, behind.as_slice())
}

// Adds the event of a number to the log.
fn append(alloc: Global, tables: &mut Tables, number: u32) -> Result<(), AllocError>
    requires sound { AreSoundTables tables.old }
    requires held { number < length tables.old.held }
    requires fits { (b : Body) → slice_get tables.old.held number ≡ Some b → IsTrue (fits (log_of tables.old) b) }
    ensures ok { OnOk result ((b : Body) → slice_get tables.old.held number ≡ Some b
        → IsAppended b number tables.old tables.new) }
    ensures extends { Extends tables.old tables.new }
{
    spelled_is_kept();
    match state_of(alloc, tables, number)? {
        Some(state) => tables.establish(number, state),
        None => tables.interact(number),
    }
}

// The state that the event of a number makes, and none where it is an interaction, which goes onto a state.
fn state_of(alloc: Global, tables: &Tables, number: u32) -> Result<Option<KeyState>, AllocError>
    requires sound { AreSoundTables tables.now }
    requires held { number < length tables.now.held }
    requires fits { (b : Body) → slice_get tables.now.held number ≡ Some b → IsTrue (fits (log_of tables.now) b) }
    ensures some { IfOk result (λ made. IfSome made (λ s. (b : Body) → slice_get tables.now.held number ≡ Some b
        → MakesState (log_of tables.now) b s)) }
    ensures none { IfOk result (λ made. IfNone made ((b : Body) → slice_get tables.now.held number ≡ Some b
        → is_interaction b.event ≡ true)) }
{
    spelled_is_kept();
    match tables.event(number) {
        Some(event) => state_made(alloc, tables.log(), event),
        None => unreachable!(),
    }
}

// The state that an event makes, and none where it is an interaction.
fn state_made(
    alloc: Global,
    log: &AcceptedLog,
    event: &Event,
) -> Result<Option<KeyState>, AllocError>
    requires kept { IsKept event.now }
    requires takes { takes (last_of (event_prefix event.now) log.now.states) event.now ≡ true }
    ensures some { IfOk result (λ made. IfSome made (λ s. (is_interaction event.now ≡ false)
        × (stepped (last_of (event_prefix event.now) log.now.states) event.now ≡ Some s))) }
    ensures none { IfOk result (λ made. IfNone made (is_interaction event.now ≡ true)) }
{
    if let Event::Ixn(_) = event {
        return Ok(None);
    }
    match state_after(alloc, log.current(&event.prefix()), event) {
        Ok(state) => Ok(Some(state)),
        Err(StateFault::OutOfMemory) => Err(AllocError),
        Err(StateFault::Misfit(_)) => unreachable!(),
    }
}

// The state after an event that may come next.
fn state_after(
    alloc: Global,
    state: Option<&KeyState>,
    event: &Event,
) -> Result<KeyState, StateFault>
    requires kept { IsKept event.now }
    requires takes { takes (option_copied state) event.now ≡ true }
    ensures state { IfOk result (λ s. stepped (option_copied state.entry) event.now ≡ Some s) }
    ensures fault { IfErr result (λ fault. fault ≡ OutOfMemory) }
{
    match state {
        Some(state) => state.after(alloc, event),
        None => first(alloc, event),
    }
}
