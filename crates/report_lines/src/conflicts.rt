//! The conflicts.
ghost use Rattle.std.specs.Prelude.{◌≡◌, IfOk, flat_map, string_bytes};
ghost use Rattle.journal.specs.Journal.Journals.{chosen};
ghost use Rattle.report_lines.specs.Conflicts.{named_line};
ghost use Rattle.report_lines.specs.Report.{AreConflictLines, saids_of};

use crate::conflict_line;
use cesr_codes::Digest;
use journal::Conflict;
use std::alloc::{AllocError, Global};
use validator_core::Core;

/// The lines of the conflicts, and whether there are any.
#[derive(Drop)]
pub(crate) struct ConflictLines {
    pub(crate) text: String,
    pub(crate) has_conflicts: bool,
}

/// The lines of the conflicts of a core.
pub(crate) fn conflict_lines(alloc: Global, core: &Core) -> Result<ConflictLines, AllocError>
    ensures { IfOk result (λ lines. AreConflictLines core.now (string_bytes lines.text) lines.has_conflicts) }
{
    let conflicts = core.conflicts()?;
    let text = named_lines(alloc, core, conflicts.as_slice())?;
    let has_conflicts = !conflicts.is_empty();
    Ok(ConflictLines {
        text,
        has_conflicts,
    })
}

// The lines of these conflicts.
fn named_lines(alloc: Global, core: &Core, conflicts: &[Conflict]) -> Result<String, AllocError>
    ensures { IfOk result (λ text. string_bytes text ≡ flat_map (named_line core.now.held) conflicts.now) }
{
    let mut text = String::new(alloc);
    for conflict in conflicts {
        let line = line_of(alloc, core, conflict)?;
        text.push_str(line.as_str())?;
    }
    Ok(text)
}

// The line of a conflict.
fn line_of(alloc: Global, core: &Core, conflict: &Conflict) -> Result<String, AllocError>
    ensures { IfOk result (λ line. string_bytes line ≡ named_line core.now.held conflict.now) }
{
    let saids = saids_of_numbers(alloc, core, conflict.bodies.as_slice())?;
    conflict_line(alloc, &conflict.prefix, conflict.sn, saids.as_slice())
}

// The digests of the bodies of these numbers.
fn saids_of_numbers(alloc: Global, core: &Core, numbers: &[u32]) -> Result<Vec<Digest>, AllocError>
    ensures { IfOk result (λ saids. saids.items ≡ saids_of (chosen core.now.held numbers.now)) }
{
    let mut saids = Vec::new(alloc);
    for number in numbers {
        if let Some(event) = core.event(*number) {
            saids.push(event.said())?;
        }
    }
    Ok(saids)
}
