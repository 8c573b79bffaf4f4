//! Codes of indexed signatures.
ghost use Rattle.std.specs.Prelude.{◌≡◌, ◌≤◌, length};
ghost use Rattle.cesr_codes.specs.Codes.{AreIndices, indexed_layout, is_big};
ghost use Rattle.cesr_codes.specs.Reading.{head};
ghost use Rattle.cesr_codes.specs.Table.{total};

use crate::CodeFault;
use crate::character::digit;
use crate::code::Code;

/// The code of an indexed signature: `A` and `2A` where it has its key's place in the next list too, `B` and `2B` where
/// it has that in the current list alone.
#[derive(Clone, Copy)]
pub(crate) enum IndexedCode {
    Both,
    Current,
    BigBoth,
    BigCurrent,
}

impl IndexedCode {
    /// Whether the indices have two characters each.
    pub(crate) fn is_big(self) -> bool
        ensures { result ≡ is_big self }
    {
        matches!(self, IndexedCode::BigBoth | IndexedCode::BigCurrent)
    }

    /// The characters of the whole signature.
    pub(crate) fn total(self) -> usize
        ensures { result ≡ total (indexed_layout self) }
    {
        if self.is_big() { 92 } else { 88 }
    }

    /// The index and the other index behind the code.
    pub(crate) fn indices(self, text: &[u8]) -> (u16, Option<u16>)
        requires { head (indexed_layout self) ≤ length text.now }
        ensures { AreIndices self text.now result.0 result.1 }
    {
        match self {
            IndexedCode::Both => {
                let index = digit(text[1]);
                (index, Some(index))
            }
            IndexedCode::Current => (digit(text[1]), None),
            IndexedCode::BigBoth => (
                digit(text[2]) * 64 + digit(text[3]),
                Some(digit(text[4]) * 64 + digit(text[5])),
            ),
            IndexedCode::BigCurrent => (digit(text[2]) * 64 + digit(text[3]), None),
        }
    }
}

impl Code for IndexedCode {
    ghost use Rattle.cesr_codes.specs.Codes.{indexed_layout, indexed_sizes};
    ghost use Rattle.cesr_codes.specs.Table.{indexed_layouts};

    ghost layouts = { indexed_layouts };

    ghost layout_of = { indexed_layout };

    ghost bytes = { 64 };

    ghost sized = { indexed_sizes };

    fn at_front(text: &[u8]) -> Result<IndexedCode, CodeFault> {
        match text {
            [] | [b'2'] => Err(CodeFault::Short),
            [b'A', ..] => Ok(IndexedCode::Both),
            [b'B', ..] => Ok(IndexedCode::Current),
            [b'2', b'A', ..] => Ok(IndexedCode::BigBoth),
            [b'2', b'B', ..] => Ok(IndexedCode::BigCurrent),
            _ => Err(CodeFault::CodeNotHeld),
        }
    }

    fn head(self) -> usize {
        if self.is_big() { 6 } else { 2 }
    }

    fn has_other_index(self, text: &[u8]) -> bool {
        match self {
            IndexedCode::BigCurrent => !matches!(text, [_, _, _, _, b'A', b'A', ..]),
            _ => false,
        }
    }
}
