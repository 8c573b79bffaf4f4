//! The events that wait.
ghost use Rattle.std.specs.Prelude.{IfOk, slice_get, string_bytes};
ghost use Rattle.report_lines.specs.Report.{IsListing, body_cmp, waiting_of, waits_lines};
ghost use Rattle.report_lines.specs.Rows.{AreRows, IsRow, if_waits};

use crate::row::Row;
use crate::rows::{add_row, ordered_lines};
use crate::waits_line;
use lists::length_u32;
use std::alloc::{AllocError, Global};
use validator_core::Core;

/// The lines of the events that wait.
pub(crate) fn waiting_lines(alloc: Global, core: &Core) -> Result<String, AllocError>
    ensures { IfOk result (λ text. IsListing body_cmp (waits_lines core.now) (waiting_of core.now) (string_bytes text)) }
{
    let rows = waiting_rows(alloc, core)?;
    ordered_lines(alloc, rows)
}

// The rows of the events that wait.
fn waiting_rows(alloc: Global, core: &Core) -> Result<Vec<Row<'_>>, AllocError>
    ensures { IfOk result (λ rows. AreRows (waits_lines core.now) (waiting_of core.now) rows.items) }
{
    let mut rows = Vec::new(alloc);
    for place in 0..core.len() {
        let number = length_u32(place)?;
        let row = waiting_row(alloc, core, number)?;
        add_row(&mut rows, row)?;
    }
    Ok(rows)
}

// The row of a body, where it waits.
fn waiting_row(alloc: Global, core: &Core, number: u32) -> Result<Option<Row<'_>>, AllocError>
    ensures { IfOk result (λ row. IsRow (waits_lines core.now) (if_waits core.now (slice_get core.now.held number)) row) }
{
    match (
        core.body(number),
        core.event(number),
        core.why_waits(number),
    ) {
        (Some(body), Some(event), Some(why)) => {
            let lines = waits_line(alloc, event, why)?;
            Ok(Some(Row::new(body, event, lines)))
        }
        _ => Ok(None),
    }
}
