//! Primitives of 44 characters.
ghost use Rattle.std.specs.Prelude.{◌≡◌};

use cesr_codes::{Digest, Key, Prefix, Spelled};

/// A primitive whose spelling has 44 characters.
pub(crate) trait Primitive: Spelled {
    /// Fills the array with its spelling.
    fn write_text(&self, out: &mut [u8; 44])
        ensures { out.new ≡ Self.spelling self.now };
}

impl Primitive for Digest {
    fn write_text(&self, out: &mut [u8; 44]) {
        self.write(out);
    }
}

impl Primitive for Prefix {
    fn write_text(&self, out: &mut [u8; 44]) {
        self.write(out);
    }
}

impl Primitive for Key {
    fn write_text(&self, out: &mut [u8; 44]) {
        self.write(out);
    }
}
