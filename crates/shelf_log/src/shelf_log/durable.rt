//! Changes of a file with a sync behind them.
ghost use Rattle.std.specs.Prelude.{take, length};
ghost use Rattle.lists.specs.KeriSpecs.Causes.{HasCause};
ghost use Rattle.shelf_log.specs.KeriDisk.Images.{overwritten, Torn, CutShort};
ghost use Rattle.shelf_log.specs.KeriDisk.Calls.{IsInFile};
ghost use Rattle.shelf_log.specs.ShelfLog.Durable.{ChangesDurably};

use crate::keri_disk::Disk;
use keri_outside::Failed;

// Writes the bytes and syncs.
pub(crate) fn put_durably<D: Disk>(disk: &mut D, offset: u64, bytes: &[u8]) -> Result<(), Failed>
    requires { IsInFile offset 0 (D.shown disk.old).file }
    ensures puts { ChangesDurably (λ file. overwritten file offset bytes.now) (Torn offset (length bytes.now))
        (D.shown disk.old) (D.shown disk.new) result }
    ensures cause { HasCause (D.shown disk.old).faults (D.shown disk.new).faults result }
{
    disk.write_at(offset, bytes)?;
    disk.sync()
}

// Cuts the file and syncs.
pub(crate) fn cut_durably<D: Disk>(disk: &mut D, size: u64) -> Result<(), Failed>
    requires { IsInFile size 0 (D.shown disk.old).file }
    ensures cuts { ChangesDurably (take size) (CutShort size) (D.shown disk.old) (D.shown disk.new) result }
    ensures cause { HasCause (D.shown disk.old).faults (D.shown disk.new).faults result }
{
    disk.cut(size)?;
    disk.sync()
}
