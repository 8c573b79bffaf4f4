//! What one more accepted event may make ready.
ghost use Rattle.std.specs.Prelude.{◌≡◌, ◌==◌, ◌&&◌, ◌⊎◌, ℕ, Some, Contains, IfOk, OnOk, filter, not, slice_get, true};
ghost use Rattle.std.specs.List.{list_any};
ghost use Rattle.std.specs.List.Sorted.{IsStrictlySortedBy};
ghost use Rattle.std.specs.Ordering.{nat_cmp};
ghost use Rattle.claim_table.specs.CoreLaws.Waking as waking;
ghost use Rattle.claim_table.specs.CoreLaws.Waking.{is_anchored};
ghost use Rattle.event_backing.specs.EventSeals.{IsEventSeal, holds_seal};
ghost use Rattle.event_backing.specs.declared.event_seal.EventSeal.{EventSeal as EventSealValue};
ghost use Rattle.escrow.specs.Escrow.Escrow.{Waits};
ghost use Rattle.journal.specs.declared.journal.body.Body.{Body};
ghost use Rattle.validator_core.specs.Tables.View.{log_of};
ghost use Rattle.validator_core.specs.Acceptance.Standing.{AreSoundTables};
ghost use Rattle.validator_core.specs.TableChanges.Awaited.{HasAllWoken, IsNextAt, has_all_awaited, is_awaited_there};

use crate::acceptance::is_there;
use crate::table_changes::behind::copied;
use crate::table_changes::wait_target::is_awaited_at;
use crate::tables::Tables;
use escrow::Waiting;
use event_backing::{EventSeal, sealed_by_parts, seals};
use event_body::Event;
use journal::Mode;
use std::alloc::{AllocError, Global};
use std::collections::BTreeSet;

/// The numbers of the waiting events that the acceptance of this one may wake. A number may stand there twice.
pub(crate) fn numbers_woken(
    alloc: Global,
    tables: &Tables,
    mode: Mode,
    number: u32,
) -> Result<Vec<u32>, AllocError>
    requires sound { AreSoundTables tables.now }
    ensures all { IfOk result (λ numbers. HasAllWoken mode tables.now number numbers.items) }
    ensures waits { IfOk result (λ numbers. (n : ℕ) → Contains numbers.items n
        → is_awaited_there mode (log_of tables.now) (slice_get tables.now.held number)
        (slice_get tables.now.held n) ≡ true) }
{
    let named = numbers_named(alloc, tables, mode, number)?;
    waiters(alloc, tables, mode, number, named.as_slice())
}

// Those of the numbers whose events may wait for this one.
fn waiters(
    alloc: Global,
    tables: &Tables,
    mode: Mode,
    number: u32,
    numbers: &[u32],
) -> Result<Vec<u32>, AllocError>
    requires sound { AreSoundTables tables.now }
    ensures { IfOk result (λ those. those.items
        ≡ filter (λ n. is_awaited_there mode (log_of tables.now) (slice_get tables.now.held number)
        (slice_get tables.now.held n)) numbers.now) }
{
    let mut those = Vec::new(alloc);
    for waiting in numbers {
        if is_awaited_at(tables, mode, number, *waiting) {
            those.push(*waiting)?;
        }
    }
    Ok(those)
}

// The numbers of the waiting events that name the digest of this one as the one before them and, in `Full` mode, of those
// whose digest it seals. A number may stand there twice.
fn numbers_named(
    alloc: Global,
    tables: &Tables,
    mode: Mode,
    number: u32,
) -> Result<Vec<u32>, AllocError>
    requires sound { AreSoundTables tables.now }
    ensures all { IfOk result (λ numbers. HasAllWoken mode tables.now number numbers.items) }
{
    sealed_by_parts();
    let Some(event) = tables.event(number) else {
        return Ok(Vec::new(alloc));
    };
    let numbers = copied(alloc, tables.waiting().woken_by(&event.said()))?;
    match mode {
        Mode::Full => with_sealed(alloc, numbers, tables.waiting(), event),
        Mode::Local => Ok(numbers),
    }
}

// The numbers, and those of the waiting events that have the digest of one of the event's seals.
fn with_sealed(
    alloc: Global,
    numbers: Vec<u32>,
    waiting: &Waiting,
    event: &Event,
) -> Result<Vec<u32>, AllocError>
    ensures kept { IfOk result (λ all. (n : ℕ) → Contains numbers.items n → Contains all.items n) }
    ensures sealed { IfOk result (λ all. (n : ℕ) (seal : EventSealValue) → IsEventSeal seal
        → holds_seal event.now seal.prefix seal.sn seal.said ≡ true
        → Waits n (λ w. w.said ≡ seal.said) waiting.now → Contains all.items n) }
{
    let mut numbers = numbers;
    let seals = seals(alloc, event)?;
    push_named(&mut numbers, waiting, seals.as_slice())?;
    Ok(numbers)
}

// Adds the numbers of the waiting events that have the digest of one of the seals.
fn push_named(
    numbers: &mut Vec<u32>,
    waiting: &Waiting,
    seals: &[EventSeal],
) -> Result<(), AllocError>
    ensures kept { (n : ℕ) → Contains numbers.old.items n → Contains numbers.new.items n }
    ensures named { OnOk result ((n : ℕ) (seal : EventSealValue) → Contains seals.now seal
        → Waits n (λ w. w.said ≡ seal.said) waiting.now → Contains numbers.new.items n) }
{
    for seal in seals {
        numbers.extend_from_slice(waiting.named(&seal.said))?;
    }
    Ok(())
}

/// Adds to the candidates those of the events that wait and have all that they wait for in the log, and no others.
pub(crate) fn add_due(
    tables: &Tables,
    mode: Mode,
    numbers: &[u32],
    due: &mut BTreeSet<u32>,
) -> Result<(), AllocError>
    requires sound { AreSoundTables tables.now }
    ensures kept { (n : ℕ) → Contains due.old.keys n → Contains due.new.keys n }
    ensures there { OnOk result ((n : ℕ) (b : Body) → Contains numbers.now n → slice_get tables.now.held n ≡ Some b
        → has_all_awaited mode (log_of tables.now) b ≡ true → Contains due.new.keys n) }
    ensures few { OnOk result ((n : ℕ) → Contains due.new.keys n
        → Contains due.old.keys n ⊎ (Contains numbers.now n × IsNextAt mode tables.now n)) }
    ensures rising { IsStrictlySortedBy nat_cmp due.old.keys → IsStrictlySortedBy nat_cmp due.new.keys }
{
    for number in numbers {
        add_if_there(tables, mode, *number, due)?;
    }
    Ok(())
}

// Adds the number of an event to the candidates, where it waits and has all that it waits for in the log.
fn add_if_there(
    tables: &Tables,
    mode: Mode,
    number: u32,
    due: &mut BTreeSet<u32>,
) -> Result<(), AllocError>
    requires sound { AreSoundTables tables.now }
    ensures kept { (n : ℕ) → Contains due.old.keys n → Contains due.new.keys n }
    ensures there { OnOk result ((b : Body) → slice_get tables.now.held number ≡ Some b
        → has_all_awaited mode (log_of tables.now) b ≡ true → Contains due.new.keys number) }
    ensures few { OnOk result ((n : ℕ) → Contains due.new.keys n
        → Contains due.old.keys n ⊎ ((number ≡ n) × IsNextAt mode tables.now n)) }
    ensures rising { IsStrictlySortedBy nat_cmp due.old.keys → IsStrictlySortedBy nat_cmp due.new.keys }
{
    if !is_next(tables, mode, number) {
        return Ok(());
    }
    due.insert(number)?;
    Ok(())
}

// Whether the event of a number isn't accepted, and has all that it waits for in the log.
fn is_next(tables: &Tables, mode: Mode, number: u32) -> bool
    requires sound { AreSoundTables tables.now }
    ensures { (b : Body) → slice_get tables.now.held number ≡ Some b
        → result ≡ (not (list_any (λ m. m == number) tables.now.log.numbers)
        && (waking.is_there (log_of tables.now) b && is_anchored mode (log_of tables.now) b)) }
{
    !tables.is_accepted(number) && is_there(tables, mode, number)
}
