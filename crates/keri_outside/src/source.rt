//! What is read.
ghost use Rattle.std.specs.Prelude.{◌<◌, List, ℕ, length, Option};
ghost use Rattle.lists.specs.KeriSpecs.Causes.{HasCause};
ghost use Rattle.lists.specs.KeriSpecs.Shown.{Reads};

use crate::Failed;

/// Bytes that come in, in pieces of any length.
pub trait Source {
    /// The bytes left, where that is shown.
    ghost left: { Self → Option (List ℕ) };

    /// How often it has failed.
    ghost faults: { Self → ℕ };

    /// Reads a piece to the front of the buffer, and says how long it is: 0 at the end of input alone.
    fn read(&mut self, buf: &mut [u8]) -> Result<usize, Failed>
        requires { 0 < length buf.old }
        ensures bytes { Reads (left self.old) (left self.new) result buf.new }
        ensures cause { HasCause (faults self.old) (faults self.new) result };
}
