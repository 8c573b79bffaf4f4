//! The claims that entries tell of, raised where the events that they are on stand.
ghost use Rattle.std.specs.Prelude.{◌≡◌, ◌<◌, false, length, slice_get, IfNone, IfSome, None, OnOk, OnErr, Some};
ghost use Rattle.validator_core.specs.Acceptance.Footing.{IsFooting};
ghost use Rattle.validator_core.specs.Acceptance.Standing.{Extends, AreSoundTables, told_of};
ghost use Rattle.validator_core.specs.Tables.Raised.{RaisesSome, claims_at};
ghost use Rattle.validator_core.specs.Tables.View.{log_of, with_rows};
ghost use Rattle.journal.specs.Journal.History.{claims_on};
ghost use Rattle.journal.specs.Journal.Logs.{stands};
ghost use Rattle.journal.specs.declared.journal.body.Body.{Body};
ghost use Rattle.validator_core.specs.TableChanges.Entries.{IsLogged, IsReceipted, RaisesFound, place_in};

use crate::acceptance::{Footing, footing_of};
use crate::tables::{Name, Tables};
use key_state::spelled_is_kept;
use std::alloc::{AllocError, Global};

/// Raises all claims on the body of a number, where its event stands. After an error some of them are raised.
pub fn raise_if_standing(tables: &mut Tables, number: u32) -> Result<(), AllocError>
    requires { IsLogged tables.old }
    ensures ok { OnOk result ((b : Body) → slice_get tables.old.held number ≡ Some b
        → RaisesFound number b (claims_on (told_of tables.old) b) tables.old tables.new) }
    ensures err { OnErr result (RaisesSome number tables.old tables.new) }
{
    spelled_is_kept();
    match footing_at(tables, number) {
        None => Ok(()),
        Some(on) => tables.raise_body(number, place_of(on)),
    }
}

/// Raises the claims on the body of a number that came by an entry, where its event stands. After an error some of them are
/// raised.
pub(crate) fn raise_entry_if_standing(
    tables: &mut Tables,
    number: u32,
    entry: u32,
) -> Result<(), AllocError>
    requires { IsLogged tables.old }
    ensures ok { OnOk result ((b : Body) → slice_get tables.old.held number ≡ Some b
        → RaisesFound number b (claims_at tables.old.held b (slice_get tables.old.entries entry)) tables.old
        tables.new) }
    ensures unheld { OnOk result (slice_get tables.old.held number ≡ None → tables.new ≡ tables.old) }
    ensures err { OnErr result (RaisesSome number tables.old tables.new) }
{
    spelled_is_kept();
    match footing_at(tables, number) {
        None => Ok(()),
        Some(on) => tables.raise_entry(number, entry, place_of(on)),
    }
}

/// Raises the claims of a receipt, which came by the last entry, on each event that it speaks of, where that stands.
pub(crate) fn raise_receipt(
    alloc: Global,
    tables: &mut Tables,
    name: &Name,
    entry: u32,
) -> Result<(), AllocError>
    requires { IsReceipted name.now entry tables.old }
    ensures ok { OnOk result (AreSoundTables tables.new) }
    ensures rows { tables.new ≡ with_rows tables.new.claims.rows tables.old }
    ensures extends { Extends tables.old tables.new }
{
    let numbers = Vec::from_slice(alloc, tables.named(name))?;
    for number in &numbers {
        raise_entry_if_standing(tables, *number, entry)?;
    }
    Ok(())
}

// What the event of a number stands on, and none where it doesn't stand or no body has the number.
fn footing_at(tables: &Tables, number: u32) -> Option<Footing>
    requires { IsLogged tables.now }
    ensures held { IfSome result (λ on. number < length tables.now.held) }
    ensures none { IfNone result ((b : Body) → slice_get tables.now.held number ≡ Some b
        → stands (log_of tables.now) b ≡ false) }
    ensures some { IfSome result (λ on. (b : Body) → slice_get tables.now.held number ≡ Some b
        → IsFooting (log_of tables.now) tables.now.log b on) }
{
    let event = tables.event(number)?;
    footing_of(tables, event)
}

// The place of the state that an event is behind, where it is behind one.
fn place_of(on: Footing) -> Option<u32>
    ensures { result ≡ place_in on }
{
    match on {
        Footing::Inception => None,
        Footing::Behind(place) => Some(place),
    }
}
