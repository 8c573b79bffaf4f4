//! Lists of rows.
ghost use Rattle.std.specs.Prelude.{◌≡◌, ◌++◌, ℕ, List, IfOk, OnOk, option_to_list, string_bytes};
ghost use Rattle.std.specs.List.Sorted.{IsPermutation, IsSorted};
ghost use Rattle.journal.specs.declared.journal.body.Body.{Body};
ghost use Rattle.report_lines.specs.Report.{body_cmp, IsListing};
ghost use Rattle.report_lines.specs.Rows.{AreRows, body_of};

use crate::row::Row;
use std::alloc::{AllocError, Global};

/// The lines of the rows, in order.
pub(crate) fn ordered_lines(alloc: Global, rows: Vec<Row<'_>>) -> Result<String, AllocError>
    ensures { (lines : Body → List ℕ) (bodies : List Body) → AreRows lines bodies rows.entry.items
        → IfOk result (λ text. IsListing body_cmp lines bodies (string_bytes text)) }
{
    let mut rows = rows;
    sort_rows(&mut rows)?;
    let mut text = String::new(alloc);
    for row in &rows {
        text.push_str(row.lines.as_str())?;
    }
    Ok(text)
}

fn sort_rows(rows: &mut Vec<Row<'_>>) -> Result<(), AllocError>
    ensures members { IsPermutation rows.old.items rows.new.items }
    ensures sorted { OnOk result (IsSorted (λ a b. body_cmp (body_of a) (body_of b)) rows.new.items) }
{
    rows.sort_by(|a, b| a.compare(b))
}

/// Adds the row, where there is one.
pub(crate) fn add_row<'a>(rows: &mut Vec<Row<'a>>, row: Option<Row<'a>>) -> Result<(), AllocError>
    ensures { OnOk result (rows.new.items ≡ rows.old.items ++ option_to_list row.entry) }
{
    if let Some(row) = row {
        rows.push(row)?;
    }
    Ok(())
}
