//! Events are accepted as long as one is ready.
ghost use Rattle.std.specs.Prelude.{◌≡◌, ◌+◌, ◌-◌, ◌<◌, ◌^◌, min, Some, IfNone, IfSome, OnOk, false, length, slice_get, true};
ghost use Rattle.std.specs.List.Sorted.{IsStrictlySortedBy};
ghost use Rattle.std.specs.Ordering.{nat_cmp};
ghost use Rattle.journal.specs.declared.journal.body.Body.{Body};
ghost use Rattle.journal.specs.Journal.Readiness as ready;
ghost use Rattle.validator_core.specs.Tables.View.{log_of};
ghost use Rattle.validator_core.specs.Acceptance.Standing.{Extends, AreSoundTables, told_of};
ghost use Rattle.validator_core.specs.Acceptance.ReadyRuns.{AcceptsReady};
ghost use Rattle.validator_core.specs.TableChanges.ReadyEvents.{AcceptsNext, IsNext, IsOver, IsReadyAt};

use crate::acceptance::is_ready;
use crate::table_changes::log_end::accept;
use crate::table_changes::woken::{add_due, numbers_woken};
use crate::tables::Tables;
use journal::Mode;
use keri_outside::Steps;
use std::alloc::{AllocError, Global};
use std::collections::BTreeSet;

/// Accepts events as long as one of the candidates is ready, the earliest first. What one more accepted event wakes is a
/// candidate (again), and nothing else comes in. Each candidate is looked at when it is taken out. After an error some events
/// may be accepted: the tables are to be cut back.
pub fn accept_ready(
    alloc: Global,
    tables: &mut Tables,
    mode: Mode,
    due: &mut BTreeSet<u32>,
    steps: &mut Steps,
) -> Result<(), AllocError>
    requires sound { AreSoundTables tables.old }
    ensures ok { OnOk result (AcceptsReady mode due.old.keys tables.old tables.new steps.old steps.new) }
    ensures extends { Extends tables.old tables.new }
{
    while let Some(number) = next_ready(tables, mode, due, steps) {
        accept_next(alloc, tables, mode, number, due)?;
    }
    Ok(())
}

// Accepts the event of a number, which is ready: what it wakes is a candidate.
fn accept_next(
    alloc: Global,
    tables: &mut Tables,
    mode: Mode,
    number: u32,
    due: &mut BTreeSet<u32>,
) -> Result<(), AllocError>
    requires sound { AreSoundTables tables.old }
    requires held { number < length tables.old.held }
    requires ready { (b : Body) → slice_get tables.old.held number ≡ Some b
        → ready.is_ready mode (told_of tables.old) (log_of tables.old) b ≡ true }
    requires rising { IsStrictlySortedBy nat_cmp due.old.keys }
    ensures ok { OnOk result ((b : Body) → slice_get tables.old.held number ≡ Some b
        → AcceptsNext mode b tables.old tables.new due.old.keys due.new.keys) }
    ensures extends { Extends tables.old tables.new }
{
    let woken = numbers_woken(alloc, tables, mode, number)?;
    accept(alloc, tables, number)?;
    add_due(tables, mode, woken.as_slice(), due)
}

// The least of the candidates whose event is ready: it and those below are taken out, with a look at each.
fn next_ready(
    tables: &Tables,
    mode: Mode,
    due: &mut BTreeSet<u32>,
    steps: &mut Steps,
) -> Option<u32>
    requires sound { AreSoundTables tables.now }
    ensures some { IfSome result (λ n. IsNext mode tables.now due.old.keys due.new.keys n steps.old steps.new) }
    ensures none { IfNone result (IsOver mode tables.now due.old.keys steps.old steps.new) }
{
    while let Some(number) = due.pop_first() {
        if is_due(tables, mode, number, steps) {
            return Some(number);
        }
    }
    None
}

// Whether the event of a number is ready. It is one look.
fn is_due(tables: &Tables, mode: Mode, number: u32, steps: &mut Steps) -> bool
    requires sound { AreSoundTables tables.now }
    ensures ready { result ≡ true → IsReadyAt mode tables.now number }
    ensures not_ready { result ≡ false → (b : Body) → slice_get tables.now.held number ≡ Some b
        → ready.is_ready mode (told_of tables.now) (log_of tables.now) b ≡ false }
    ensures step { steps.new ≡ min (steps.old + 1) (2 ^ 64 - 1) }
{
    tables.waiting().look(number, steps).is_some() && is_ready(tables, mode, number)
}
