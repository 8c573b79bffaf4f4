//! A disk over a file.
ghost use Rattle.std.specs.Prelude.{◌≡◌, ◌≤◌, ◌∷◌, [], IfOk};
ghost use Rattle.lists.specs.KeriSpecs.Causes.{Rose};
ghost use Rattle.lists.specs.KeriSpecs.Shown.{after};
ghost use Rattle.disk_file.specs.Untold.{disk_faults, file_under};
ghost use Rattle.disk_file.specs.declared.file_call.FileCall.TheVariants.{Locked};

use crate::transfer::{read_all, write_all};
use crate::{OpenError, RawFile};
use keri_outside::Failed;
use shelf_log::Disk;
use std::fs::TryLockError;

/// A disk over a regular file that nobody else has locked until this value is dropped. It shows no content.
#[derive(Drop)]
pub struct DiskOver<F> {
    pub(crate) file: F,
    faults: u64,
}

impl<F: RawFile> DiskOver<F> {
    /// A disk over a file, which it locks.
    pub fn alone(mut file: F) -> Result<DiskOver<F>, OpenError>
    where
        F: Drop,
        ensures locked { IfOk result (λ disk. F.calls (file_under disk) ≡ after (F.calls file) (Locked ∷ [])) }
        ensures none_yet { IfOk result (λ disk. disk_faults disk ≡ 0) }
    {
        if !file.is_regular()? {
            return Err(OpenError::NotAFile);
        }
        match file.lock() {
            Ok(()) => Ok(DiskOver { file, faults: 0 }),
            Err(TryLockError::WouldBlock) => Err(OpenError::Busy),
            Err(TryLockError::Error(error)) => Err(OpenError::Io(error)),
        }
    }

    // Counts a fault. The count stands still at its greatest number.
    fn fail(&mut self) -> Failed
        ensures later { disk_faults self.old ≤ disk_faults self.new }
        ensures rose { Rose (disk_faults self.old) (disk_faults self.new) }
        ensures same { file_under self.new ≡ file_under self.old }
    {
        self.faults = self.faults.saturating_add(1);
        Failed
    }
}

impl<F: RawFile> Disk for DiskOver<F> {
    ghost use Rattle.std.specs.Prelude.{length, take, OnOk};
    ghost use Rattle.std.proofs.lemmas.Option.{none-some};
    ghost use Rattle.lists.specs.KeriSpecs.Causes.{HasCause};
    ghost use Rattle.shelf_log.specs.KeriDisk.Images.{overwritten, Torn, CutShort};
    ghost use Rattle.shelf_log.specs.KeriDisk.Calls.{IsSizeOf, AreBytesAt, Keeps, Syncs, Changes};
    ghost use Rattle.disk_file.specs.Calls.{Does, PassesAll};
    ghost use Rattle.disk_file.specs.Untold.{disk_shown};
    ghost use Rattle.disk_file.specs.declared.file_call.FileCall.TheVariants.{Sized, Read, Wrote, Cut, Synced};

    ghost shown = { disk_shown };

    fn size(&mut self) -> Result<u64, Failed>
        ensures call { Does (F.calls (file_under self.old)) (F.calls (file_under self.new)) result (λ size. Sized size) }
        ensures size { IfOk result (IsSizeOf (disk_shown self.old).file) }
        ensures keeps { Keeps (disk_shown self.old) (disk_shown self.new) }
        ensures cause { HasCause (disk_faults self.old) (disk_faults self.new) result }
    {
        match self.file.size() {
            Ok(size) => Ok(size),
            Err(_) => Err(self.fail()),
        }
    }

    fn read(&mut self, offset: u64, buf: &mut [u8]) -> Result<(), Failed>
        ensures calls { PassesAll Read offset buf.new (F.calls (file_under self.old)) (F.calls (file_under self.new)) result }
        ensures bytes { OnOk result (AreBytesAt (disk_shown self.old).file offset buf.new) }
        ensures keeps { Keeps (disk_shown self.old) (disk_shown self.new) }
        ensures cause { HasCause (disk_faults self.old) (disk_faults self.new) result }
    {
        match read_all(&mut self.file, offset, buf) {
            Ok(()) => Ok(()),
            Err(Failed) => Err(self.fail()),
        }
    }

    fn write_at(&mut self, offset: u64, bytes: &[u8]) -> Result<(), Failed>
        ensures calls { PassesAll Wrote offset bytes.now (F.calls (file_under self.old)) (F.calls (file_under self.new)) result }
        ensures written { Changes (λ file. overwritten file offset bytes.now) (Torn offset (length bytes.now))
            (disk_shown self.old) (disk_shown self.new) result }
        ensures cause { HasCause (disk_faults self.old) (disk_faults self.new) result }
    {
        match write_all(&mut self.file, offset, bytes) {
            Ok(()) => Ok(()),
            Err(Failed) => Err(self.fail()),
        }
    }

    fn cut(&mut self, size: u64) -> Result<(), Failed>
        ensures call { Does (F.calls (file_under self.old)) (F.calls (file_under self.new)) result (λ _. Cut size) }
        ensures cut { Changes (take size) (CutShort size) (disk_shown self.old) (disk_shown self.new) result }
        ensures cause { HasCause (disk_faults self.old) (disk_faults self.new) result }
    {
        match self.file.cut(size) {
            Ok(()) => Ok(()),
            Err(_) => Err(self.fail()),
        }
    }

    fn sync(&mut self) -> Result<(), Failed>
        ensures call { Does (F.calls (file_under self.old)) (F.calls (file_under self.new)) result (λ _. Synced) }
        ensures synced { Syncs (disk_shown self.old) (disk_shown self.new) result }
        ensures cause { HasCause (disk_faults self.old) (disk_faults self.new) result }
    {
        match self.file.sync() {
            Ok(()) => Ok(()),
            Err(_) => Err(self.fail()),
        }
    }

    // There is no image, and nothing is read.
    ghost reads_an_image = { λ disk file e. absurd (none-some file e) };

    ghost counts_now = { λ disk t c _ x. x };

    ghost only_now = { λ disk c x. x };
}
