//! The events that stand right behind the last accepted one.
ghost use Rattle.std.specs.Prelude.{◌≡◌, ◌<◌, [], ℕ, Some, Contains, IfOk, OnOk, false, length, position, slice_get, true};
ghost use Rattle.std.specs.List.Sorted.{IsStrictlyIncreasing};
ghost use Rattle.journal.specs.declared.journal.body.Body.{Body};
ghost use Rattle.journal.specs.Journal.Logs.{precedes};
ghost use Rattle.validator_core.specs.Tables.View.{View, log_of, with_rows};
ghost use Rattle.validator_core.specs.Acceptance.Standing.{Extends, AreSoundTables};
ghost use Rattle.validator_core.specs.TableChanges.Awaited.{HasAllBehind};
ghost use Rattle.validator_core.specs.TableChanges.Turning.{IsBehindLast, IsTurning, TurnsOne};
ghost use Rattle.validator_core.specs.TableChanges.Entries.{IsLogged};

use crate::table_changes::standing_claims::raise_if_standing;
use crate::tables::Tables;
use std::alloc::{AllocError, Global};

/// The numbers of the events that wait for one with the digest of this event, rising.
pub(crate) fn numbers_behind(
    alloc: Global,
    tables: &Tables,
    number: u32,
) -> Result<Vec<u32>, AllocError>
    requires sound { AreSoundTables tables.now }
    ensures rising { IfOk result (λ numbers. IsStrictlyIncreasing numbers.items) }
    ensures held { IfOk result (λ numbers. (n : ℕ) → Contains numbers.items n → n < length tables.now.held) }
    ensures all { IfOk result (λ numbers. HasAllBehind tables.now number numbers.items) }
{
    match tables.event(number) {
        Some(event) => copied(alloc, tables.waiting().woken_by(&event.said())),
        None => Ok(Vec::new(alloc)),
    }
}

/// A copy of numbers.
pub(crate) fn copied(alloc: Global, numbers: &[u32]) -> Result<Vec<u32>, AllocError>
    ensures { IfOk result (λ copy. copy.items ≡ numbers.now) }
{
    Vec::from_slice(alloc, numbers)
}

/// Raises all claims on those of the events that stand right behind the last accepted one, and behind no earlier one.
pub(crate) fn raise_behind(tables: &mut Tables, numbers: &[u32]) -> Result<(), AllocError>
    requires logged { IsLogged tables.old }
    requires held { (n : ℕ) → Contains numbers.now n → n < length tables.old.held }
    requires rising { IsStrictlyIncreasing numbers.now }
    ensures ok { OnOk result ((v : View) (c : Body) → IsTurning v c [] tables.old
        → IsTurning v c numbers.now tables.new) }
    ensures extends { Extends tables.old tables.new }
{
    for number in numbers {
        raise_new(tables, *number)?;
    }
    Ok(())
}

// Raises all claims on the event of a number, where it stands right behind the last accepted one, and behind no earlier one.
fn raise_new(tables: &mut Tables, number: u32) -> Result<(), AllocError>
    requires logged { IsLogged tables.old }
    requires held { number < length tables.old.held }
    ensures ok { OnOk result (TurnsOne number tables.old tables.new) }
    ensures rows { tables.new ≡ with_rows tables.new.claims.rows tables.old }
    ensures extends { Extends tables.old tables.new }
{
    if is_behind_last(tables, number) {
        raise_if_standing(tables, number)
    } else {
        Ok(())
    }
}

// Whether the last accepted event is the first that stands right before the event of a number.
fn is_behind_last(tables: &Tables, number: u32) -> bool
    requires logged { IsLogged tables.now }
    ensures then { (b : Body) → slice_get tables.now.held number ≡ Some b → result ≡ true
        → IsBehindLast (log_of tables.now) b }
    ensures otherwise { (b : Body) → slice_get tables.now.held number ≡ Some b → result ≡ false
        → IsBehindLast (log_of tables.now) b → ⊥ }
{
    match place_before(tables, number) {
        Some(place) => place as usize + 1 == tables.log().len(),
        None => false,
    }
}

// The place in the log of the first event that stands right before the event of a number.
fn place_before(tables: &Tables, number: u32) -> Option<u32>
    ensures { (b : Body) → slice_get tables.now.held number ≡ Some b
        → result ≡ position (precedes b) (log_of tables.now) }
{
    tables.predecessor(tables.event(number)?)
}
