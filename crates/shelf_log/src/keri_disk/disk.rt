//! A file on a disk.
ghost use Rattle.std.specs.Prelude.{◌≡◌, ◌≤◌, List, ℕ, length, take, Some, IfOk, OnOk};
ghost use Rattle.lists.specs.KeriSpecs.Causes.{HasCause};
ghost use Rattle.shelf_log.specs.KeriDisk.Images.{DiskShown, overwritten, Torn, CutShort};
ghost use Rattle.shelf_log.specs.KeriDisk.Calls.{IsInFile, IsSizeOf, AreBytesAt, Keeps, Syncs, Changes};

use keri_outside::Failed;

/// One file on a disk, of which a crash may leave more than one content until it is synced.
pub trait Disk {
    /// What it shows.
    ghost shown: { Self → DiskShown };

    /// The size of the file, in bytes.
    fn size(&mut self) -> Result<u64, Failed>
        ensures size { IfOk result (IsSizeOf (shown self.old).file) }
        ensures keeps { Keeps (shown self.old) (shown self.new) }
        ensures cause { HasCause (shown self.old).faults (shown self.new).faults result };

    /// Fills the buffer with the bytes from an offset on.
    fn read(&mut self, offset: u64, buf: &mut [u8]) -> Result<(), Failed>
        requires { IsInFile offset (length buf.old) (shown self.old).file }
        ensures bytes { OnOk result (AreBytesAt (shown self.old).file offset buf.new) }
        ensures keeps { Keeps (shown self.old) (shown self.new) }
        ensures cause { HasCause (shown self.old).faults (shown self.new).faults result };

    /// Writes the bytes from an offset on, over what is there and past the end.
    fn write_at(&mut self, offset: u64, bytes: &[u8]) -> Result<(), Failed>
        requires { IsInFile offset 0 (shown self.old).file }
        ensures written { Changes (λ file. overwritten file offset bytes.now) (Torn offset (length bytes.now))
            (shown self.old) (shown self.new) result }
        ensures cause { HasCause (shown self.old).faults (shown self.new).faults result };

    /// Cuts the file to a size.
    fn cut(&mut self, size: u64) -> Result<(), Failed>
        requires { IsInFile size 0 (shown self.old).file }
        ensures cut { Changes (take size) (CutShort size) (shown self.old) (shown self.new) result }
        ensures cause { HasCause (shown self.old).faults (shown self.new).faults result };

    /// After it a crash leaves what a read gives.
    fn sync(&mut self) -> Result<(), Failed>
        ensures synced { Syncs (shown self.old) (shown self.new) result }
        ensures cause { HasCause (shown self.old).faults (shown self.new).faults result };

    // The file as it reads is one of its images.
    ghost reads_an_image: { (disk : Self) (file : List ℕ) → (shown disk).file ≡ Some file → (shown disk).images file };

    // This moment is one of those since an earlier one.
    ghost counts_now: { (disk : Self) (t : ℕ) (c : List ℕ) → t ≤ (shown disk).moment → (shown disk).images c → (shown disk).images_since t c };

    // Since this moment there is no other.
    ghost only_now: { (disk : Self) (c : List ℕ) → (shown disk).images_since (shown disk).moment c → (shown disk).images c };
}
