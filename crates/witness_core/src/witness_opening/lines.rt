//! The lines that say why there is no shelf, or no witness, each with its line feed.
ghost use Rattle.std.specs.Prelude.{◌≡◌, IfOk, string_bytes};
ghost use Rattle.witness_core.specs.WitnessOpening.Lines.{log_text, old_text, shelf_text};

use std::alloc::{AllocError, Global};

/// The line of a file that is no shelf, which shows first at the place.
pub(crate) fn shelf_line(alloc: Global, place: u64) -> Result<String, AllocError>
    ensures { IfOk result (λ line. string_bytes line ≡ shelf_text place) }
{
    format!(in alloc; "shelf {place}\n")
}

/// The same of a file that is no old shelf.
pub(crate) fn old_line(alloc: Global, place: u64) -> Result<String, AllocError>
    ensures { IfOk result (λ line. string_bytes line ≡ old_text place) }
{
    format!(in alloc; "old {place}\n")
}

/// The line of a shelf whose list is no log, which shows first at the payload of this number.
pub fn log_line(alloc: Global, number: u32) -> Result<String, AllocError>
    ensures { IfOk result (λ line. string_bytes line ≡ log_text number) }
{
    format!(in alloc; "log {number}\n")
}
