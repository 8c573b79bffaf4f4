//! What is written.
ghost use Rattle.std.specs.Prelude.{List, ℕ, Option};
ghost use Rattle.lists.specs.KeriSpecs.Causes.{HasCause};
ghost use Rattle.lists.specs.KeriSpecs.Shown.{Puts};

use crate::Failed;

/// Bytes that go out.
pub trait Sink {
    /// The bytes written, where that is shown.
    ghost written: { Self → Option (List ℕ) };

    /// How often it has failed.
    ghost faults: { Self → ℕ };

    /// Adds the bytes, or where it fails a front of them.
    fn put(&mut self, bytes: &[u8]) -> Result<(), Failed>
        ensures bytes { Puts (written self.old) (written self.new) result bytes.now }
        ensures cause { HasCause (faults self.old) (faults self.new) result };
}
