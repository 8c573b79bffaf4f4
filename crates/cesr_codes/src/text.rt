//! Spellings as text.
ghost use Rattle.std.specs.Prelude.{◌≡◌};
ghost use Rattle.std.specs.Str.{IsAscii};

use std::str;

/// The characters of a primitive as text.
pub(crate) fn as_text(characters: &[u8]) -> &str
    requires { IsAscii characters.now }
    ensures { result.now ≡ characters.now }
{
    let Ok(text) = str::from_utf8(characters) else {
        unreachable!();
    };
    text
}
