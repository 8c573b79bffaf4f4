//! One payload more on a disk.
ghost use Rattle.std.specs.Prelude.{◌≡◌, ◌+◌, ◌<◌, ◌++◌, [], ◌∷◌, ◌⊎◌, OnOk, OnErr, IfErr, MatchResult, length};
ghost use Rattle.lists.specs.KeriSpecs.Causes.{HasCause};
ghost use Rattle.shelf_log.specs.KeriDisk.Calls.{IsInFile};
ghost use Rattle.shelf_log.specs.ShelfLog.Answers.{HasDiskCause};
ghost use Rattle.shelf_log.specs.ShelfLog.Format.{shelf_front, IsSized};
ghost use Rattle.shelf_log.specs.ShelfLog.OnDisk.{HoldsDurably, Stores, StoresStaged};
ghost use Rattle.shelf_log.specs.declared.shelf_log.version.Version.TheVariants.{Two};
ghost use Rattle.shelf_log.specs.declared.shelf_log.fault.ShelfFault.TheVariants.{DiskFault, OutOfMemory};

use crate::keri_disk::Disk;
use crate::shelf_log::ShelfFault;
use crate::shelf_log::durable::put_durably;
use crate::shelf_log::record::staged_record;
use keri_outside::Failed;
use lists::Items;
use std::alloc::Global;

/// Adds a payload to the list and to the disk, whose closed gate stands at `end`. After a refusal the list is as before.
pub(crate) fn add<D: Disk>(
    alloc: Global,
    disk: &mut D,
    list: &mut Items<Items<u8>>,
    end: u64,
    payload: &[u8],
) -> Result<(), ShelfFault>
    requires inside { IsInFile (end + 1) 0 (D.shown disk.old).file }
    requires few { end < 1073741824 }
    requires sized { IsSized Two payload.now }
    ensures ok { OnOk result (list.new ≡ list.old ++ payload.now ∷ []) }
    ensures err { OnErr result (list.new ≡ list.old) }
    ensures refused { IfErr result (λ fault. (fault ≡ DiskFault) ⊎ ((fault ≡ OutOfMemory) × (disk.new ≡ disk.old))) }
    ensures stores { HoldsDurably (D.shown disk.old) list.old → end ≡ length (shelf_front Two list.old)
        → Stores list.old payload.now (D.shown disk.old) (D.shown disk.new) result }
    ensures cause { MatchResult result (λ _. (D.shown disk.new).faults ≡ (D.shown disk.old).faults)
        (λ fault. HasDiskCause (D.shown disk.old) (D.shown disk.new) fault) }
{
    let staged = staged_record(alloc, payload)?;
    let kept = Items::from_vec(Vec::from_slice(alloc, payload)?);
    list.push(kept)?;
    if store(disk, end, &staged).is_err() {
        list.truncate(list.len() - 1);
        return Err(ShelfFault::DiskFault);
    }
    Ok(())
}

// Writes the staged record behind the closed gate at `end`, and when that is on the disk opens the gate.
fn store<D: Disk>(disk: &mut D, end: u64, staged: &[u8]) -> Result<(), Failed>
    requires inside { IsInFile (end + 1) 0 (D.shown disk.old).file }
    requires few { end < 1073741824 }
    ensures stores { StoresStaged end staged.now (D.shown disk.old) (D.shown disk.new) result }
    ensures cause { HasCause (D.shown disk.old).faults (D.shown disk.new).faults result }
{
    put_durably(disk, end + 1, staged)?;
    put_durably(disk, end, &[1])
}
