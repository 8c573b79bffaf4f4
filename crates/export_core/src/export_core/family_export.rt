//! The export.
ghost use Rattle.std.specs.Prelude.{◌≡◌, IfOk, IfSome, is_none, true, false};
ghost use Rattle.std.specs.List.{list_any};
ghost use Rattle.export_core.specs.ExportCore.Export.{IsExport};
ghost use Rattle.journal.specs.declared.journal.mode.Mode.TheVariants.{Full};
ghost use Rattle.journal.specs.Journal.Logs.{is_of};
ghost use Rattle.validator_core.specs.ValidatorCore.View.{accepted_by};

use crate::export_core::exported_events::{Exported, exported_of};
use cesr_codes::Prefix;
use std::alloc::{AllocError, Global};
use validator_core::Core;

/// The accepted events of an identifier, of its delegator, of that one's delegator and so on, in order of acceptance and
/// superseded ones included, each as messages of its body and of its claims that have a yes; and how many events these are.
pub fn export(alloc: Global, core: &Core, prefix: &Prefix) -> Result<Option<Exported>, AllocError>
    requires full { core.now.mode ≡ Full }
    requires no_base { core.now.base ≡ 0 }

    // A full validator that one reader alone tells of the text, with yes to all, accepts just these events, where no two of
    // them have one digest.
    ensures exported { IfOk result (λ exported. IfSome exported (λ e.
        IsExport core.now prefix.now e.text.items e.count)) }

    // There is none only where no event of the identifier is accepted.
    ensures unknown { IfOk result (λ exported. is_none exported ≡ true
        → list_any (is_of prefix.now) (accepted_by core.now) ≡ false) }
{
    if core.state(prefix).is_none() {
        return Ok(None);
    }
    let exported = exported_of(alloc, core, prefix)?;
    Ok(Some(exported))
}
