//! What the file of a shelf is, before it is opened.
ghost use Rattle.std.specs.Prelude.{◌≡◌, ◌↔◌, [], IsTrue, IfOk, IfSome, OnOk};
ghost use Rattle.lists.specs.KeriSpecs.Causes.{HasCause};
ghost use Rattle.shelf_log.specs.KeriDisk.Calls.{Keeps};
ghost use Rattle.shelf_log.specs.KeriDisk.Images.{IsDurable};

use keri_outside::Failed;
use shelf_log::Disk;

/// Whether the file is empty. It syncs first, and writes nothing.
#[tactic(auto, using(shelf_log::proofs::KeriDiskLemmas::Moments::keeps_both, shelf_log::proofs::KeriDiskLemmas::Moments::durable_kept))]
pub(crate) fn is_empty<D: Disk>(disk: &mut D) -> Result<bool, Failed>
    ensures empty { IfOk result (λ is_empty. IfSome (D.shown disk.old).file
        (λ file. IsTrue is_empty ↔ (file ≡ []))) }
    ensures durable { OnOk result (IsDurable (D.shown disk.new)) }
    ensures keeps { Keeps (D.shown disk.old) (D.shown disk.new) }
    ensures cause { HasCause (D.shown disk.old).faults (D.shown disk.new).faults result }
{
    disk.sync()?;
    Ok(disk.size()? == 0)
}
