//! Where a core stands.
ghost use Rattle.std.specs.Prelude.{IfOk, string_bytes};
ghost use Rattle.report_lines.specs.Report.{IsStandingText};

use crate::conflicts::{ConflictLines, conflict_lines};
use crate::log_lines::accepted_lines;
use crate::wait_lines::waiting_lines;
use std::alloc::{AllocError, Global};
use validator_core::Core;

/// The lines of where a core stands, and whether there are conflicts.
#[derive(Drop)]
pub struct CoreStanding {
    pub text: String,
    pub has_conflicts: bool,
}

/// The lines of what a core accepted, of what waits, and of what conflicts: for each identifier, in byte order of its
/// prefix's text, its events and its state; then for each waiting event, by prefix, number and bytes, why it waits; then
/// for each place at which signed bodies differ the digests of these bodies.
pub fn standing_of(alloc: Global, core: &Core) -> Result<CoreStanding, AllocError>
    ensures { IfOk result (λ standing. IsStandingText core.now (string_bytes standing.text) standing.has_conflicts) }
{
    let mut text = accepted_lines(alloc, core)?;
    let waits = waiting_lines(alloc, core)?;
    text.push_str(waits.as_str())?;
    let ConflictLines {
        text: lines,
        has_conflicts,
    } = conflict_lines(alloc, core)?;
    text.push_str(lines.as_str())?;
    Ok(CoreStanding {
        text,
        has_conflicts,
    })
}
