//! Readers and writers of which it doesn't change whether they show what they hold.
ghost use Rattle.std.specs.Prelude.{◌≡◌, Bool, true, is_some, refl};

use std::io::{Read, Write};

/// A reader that shows at all times what is left, or never.
pub trait SteadyRead: Read {
    /// Whether it shows it.
    ghost shows_left: { Bool };

    ghost steady: { (reader : Self) → is_some (Self.remaining reader) ≡ shows_left };
}

/// A writer that shows at all times what it holds, or never.
pub trait SteadyWrite: Write {
    /// Whether it shows it.
    ghost shows_written: { Bool };

    ghost steady: { (writer : Self) → is_some (Self.contents writer) ≡ shows_written };
}

// The form in memory of a reader, which shows what is left.
impl SteadyRead for &[u8] {
    ghost shows_left = { true };

    ghost steady = { λ reader. refl };
}

// The form in memory of a writer, which shows what it holds.
impl SteadyWrite for Vec<u8> {
    ghost shows_written = { true };

    ghost steady = { λ writer. refl };
}
