//! Codes at the front of primitives.
ghost use Rattle.std.specs.Prelude.{◌≡◌, ℕ, List};
ghost use Rattle.cesr_codes.specs.Table.{Layout, has_other_index};
ghost use Rattle.cesr_codes.specs.Reading.{FindsCode, HasSizes, head};

use crate::CodeFault;

/// The codes that a type of primitives holds (CESR code table).
pub(crate) trait Code: Copy {
    /// What the code table has for the type.
    ghost layouts: { List Layout };

    /// What it has for a code.
    ghost layout_of: { Self → Layout };

    /// The raw bytes behind each of them.
    ghost bytes: { ℕ };

    /// The code at the front, or the first of the two rules on codes that the text fails.
    fn at_front(text: &[u8]) -> Result<Self, CodeFault>
        ensures { FindsCode layouts layout_of text.now result };

    /// The characters of the code and of its indices.
    fn head(self) -> usize
        ensures { result ≡ head (layout_of self) };

    /// Whether the text has another index in place of `AA`.
    fn has_other_index(self, text: &[u8]) -> bool
        ensures { result ≡ has_other_index (layout_of self) text.now };

    ghost sized: { (code : Self) → HasSizes bytes (layout_of code) };
}
