//! Signatures with the places of their keys.
ghost use Rattle.std.specs.Prelude.{◌≡◌, true};
ghost use Rattle.cesr_codes.specs.Indices.{has_form};

use crate::character::symbol;
use crate::indexed_code::IndexedCode;
use crate::text::as_text;
use crate::{CodeFault, Sig, primitive};
use std::fmt;

/// A signature with its key's place in the current list and, where it has one, in the next list.
#[derive(Clone, Copy, PartialEq, Eq, PartialOrd, Ord, Hash, Debug)]
pub struct IndexedSig {
    /// Whether each index has two characters: then it is at most 4,095, and otherwise at most 63.
    pub big: bool,
    /// The place in the current list.
    pub index: u16,
    /// The place in the next list. A small signature has none, or the same number.
    pub ondex: Option<u16>,
    pub sig: Sig,
    ghost form: { has_form big index ondex ≡ true },
}

impl IndexedSig {
    ghost use Rattle.std.specs.Prelude.{◌≡◌, ◌++◌, ℕ, List, drop, length, IfSome, IfNone, false, true};
    ghost use Rattle.lists.specs.KeriSpecs.Base64.{base64_text};
    ghost use Rattle.cesr_codes.specs.Indices.{has_form, indexed_code, index_text};
    ghost use Rattle.cesr_codes.specs.Indexed.{IsIndexed, indexed_text};
    ghost use Rattle.cesr_codes.specs.Reading.{Reads};
    ghost use Rattle.cesr_codes.specs.Table.{indexed_layouts, verdict};

    /// The signature of these parts, where a code spells it.
    pub fn new(big: bool, index: u16, ondex: Option<u16>, sig: Sig) -> Option<IndexedSig>
        ensures some { IfSome result (λ made. (made.big ≡ big) × (made.index ≡ index) × (made.ondex ≡ ondex)
            × (made.sig ≡ sig)) }
        ensures none { IfNone result (has_form big index ondex ≡ false) }
    {
        if IndexedSig::has_form(big, index, ondex) {
            Some(IndexedSig {
                big,
                index,
                ondex,
                sig,
            })
        } else {
            None
        }
    }

    // Whether a code spells the indices.
    fn has_form(big: bool, index: u16, ondex: Option<u16>) -> bool
        ensures { result ≡ has_form big index ondex }
    {
        match (big, ondex) {
            (false, None) => index < 64,
            (false, Some(ondex)) => index < 64 && ondex == index,
            (true, None) => index < 4_096,
            (true, Some(ondex)) => index < 4_096 && ondex < 4_096,
        }
    }

    /// The indexed signature that stands at the front, and the length of its spelling.
    pub fn read(bytes: &[u8]) -> Result<(IndexedSig, usize), CodeFault>
        // What is read stands at the front, and a fault is the first in their order.
        ensures exact { Reads (verdict indexed_layouts) indexed_text IsIndexed bytes.now result }

        // What is spelled at the front is read, whatever follows.
        ensures whole { (indexed : IndexedSig) (rest : List ℕ) → IsIndexed indexed
            → bytes.now ≡ indexed_text indexed ++ rest → result ≡ Ok (indexed, length (indexed_text indexed)) }
    {
        IndexedSig::read_exact(bytes)
    }

    // The indexed signature, or the first fault.
    fn read_exact(bytes: &[u8]) -> Result<(IndexedSig, usize), CodeFault>
        ensures { Reads (verdict indexed_layouts) indexed_text IsIndexed bytes.now result }
    {
        let mut raw = [0u8; 64];
        let code = primitive::read::<IndexedCode>(bytes, &mut raw)?;
        let (index, ondex) = code.indices(bytes);
        let big = code.is_big();
        let sig = Sig { raw };
        let indexed = IndexedSig {
            big,
            index,
            ondex,
            sig,
        };
        Ok((indexed, code.total()))
    }

    /// Fills the front of the array with the spelling, and answers its length, 88 or 92.
    pub fn write(&self, out: &mut [u8; 92]) -> usize
        ensures written { out.new ≡ indexed_text self.now ++ drop result out.old }
        ensures counted { result ≡ length (indexed_text self.now) }
    {
        if self.big {
            let head = self.big_head();
            primitive::write(&head, &self.sig.raw, out);
            92
        } else {
            let head = self.small_head();
            primitive::write(&head, &self.sig.raw, &mut out[..88]);
            88
        }
    }

    // The code and the index of a small one.
    fn small_head(&self) -> [u8; 2]
        requires { self.now.big ≡ false }
        ensures { result ≡ indexed_code false self.now.ondex ++ index_text false self.now.index self.now.ondex }
    {
        match self.ondex {
            Some(_) => [b'A', symbol(self.index)],
            None => [b'B', symbol(self.index)],
        }
    }

    // The code and the two indices of a big one.
    fn big_head(&self) -> [u8; 6]
        requires { self.now.big ≡ true }
        ensures { result ≡ indexed_code true self.now.ondex ++ index_text true self.now.index self.now.ondex }
    {
        let (greater, lesser) = (symbol(self.index / 64), symbol(self.index % 64));
        match self.ondex {
            Some(ondex) => [
                b'2',
                b'A',
                greater,
                lesser,
                symbol(ondex / 64),
                symbol(ondex % 64),
            ],
            None => [b'2', b'B', greater, lesser, b'A', b'A'],
        }
    }
}

impl fmt::Display for IndexedSig {
    ghost use Rattle.std.specs.Prelude.{Some};
    ghost use Rattle.cesr_codes.specs.Indexed.{indexed_text};

    ghost output = { λ indexed. Some (indexed_text indexed) };

    fn fmt<W: fmt::Write>(&self, f: &mut fmt::Formatter<W>) -> fmt::Result {
        let mut text = [0u8; 92];
        let count = self.write(&mut text);
        f.write_str(as_text(&text[..count]))
    }
}
