//! Files as the system has them.
ghost use Rattle.std.specs.Prelude.{List, Option, take};
ghost use Rattle.std.specs.Io.{ReadsAtMost, WritesAtMost};
ghost use Rattle.disk_file.specs.Calls.{Does};
ghost use Rattle.disk_file.specs.declared.file_call.FileCall.{FileCall};

use std::fs::TryLockError;
use std::io;

/// An open file, each of whose methods is one call of the system.
pub trait RawFile {
    /// The calls that came about, where they are shown.
    ghost calls: { Self → Option (List FileCall) };

    /// Whether it is a regular file.
    fn is_regular(&self) -> io::Result<bool>;

    /// Its size, in bytes.
    fn size(&mut self) -> io::Result<u64>
        ensures { Does (calls self.old) (calls self.new) result (λ size. FileCall.Sized size) };

    /// Reads bytes from a place on to the front of the buffer, and says how many.
    fn read_at(&mut self, place: u64, buf: &mut [u8]) -> io::Result<usize>
        ensures bound { ReadsAtMost result buf.new }
        ensures call { Does (calls self.old) (calls self.new) result (λ n. FileCall.Read place (take n buf.new)) };

    /// Writes bytes of the front from a place on, and says how many.
    fn write_at(&mut self, place: u64, bytes: &[u8]) -> io::Result<usize>
        ensures bound { WritesAtMost result bytes.now }
        ensures call { Does (calls self.old) (calls self.new) result (λ n. FileCall.Wrote place (take n bytes.now)) };

    /// Cuts it to a size.
    fn cut(&mut self, size: u64) -> io::Result<()>
        ensures { Does (calls self.old) (calls self.new) result (λ _. FileCall.Cut size) };

    /// Waits until its bytes and its size are on the disk.
    fn sync(&mut self) -> io::Result<()>
        ensures { Does (calls self.old) (calls self.new) result (λ _. FileCall.Synced) };

    /// Locks it until it is closed, unless somebody else has it locked.
    fn lock(&mut self) -> Result<(), TryLockError>
        ensures { Does (calls self.old) (calls self.new) result (λ _. FileCall.Locked) };
}
