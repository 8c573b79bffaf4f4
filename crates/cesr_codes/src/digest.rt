//! Digests of 32 bytes.
ghost use Rattle.std.specs.Prelude.{◌≡◌, ◌++◌, List, ℕ};
ghost use Rattle.cesr_codes.specs.Reading.{FindsCode, Reads};
ghost use Rattle.cesr_codes.specs.Spelling.{IsDigest, digest_code, digest_text};
ghost use Rattle.cesr_codes.specs.Table.{digest_layouts, verdict};
ghost use Rattle.cesr_codes.specs.declared.digest.Digest.{Digest};

use crate::code::Code;
use crate::text::as_text;
use crate::{CodeFault, primitive};
use std::fmt;

/// The code of a digest: `E` for Blake3-256, `I` for SHA2-256.
#[derive(Clone, Copy, PartialEq, Eq, PartialOrd, Ord, Hash, Debug)]
pub enum DigestCode {
    Blake3,
    Sha256,
}

impl DigestCode {
    fn character(self) -> u8
        ensures { result ≡ digest_code self }
    {
        match self {
            DigestCode::Blake3 => b'E',
            DigestCode::Sha256 => b'I',
        }
    }
}

impl Code for DigestCode {
    ghost use Rattle.cesr_codes.specs.Codes.{digest_layout, digest_sizes};
    ghost use Rattle.cesr_codes.specs.Table.{digest_layouts};

    ghost layouts = { digest_layouts };

    ghost layout_of = { digest_layout };

    ghost bytes = { 32 };

    ghost sized = { digest_sizes };

    fn at_front(text: &[u8]) -> Result<DigestCode, CodeFault> {
        match text {
            [] => Err(CodeFault::Short),
            [b'E', ..] => Ok(DigestCode::Blake3),
            [b'I', ..] => Ok(DigestCode::Sha256),
            _ => Err(CodeFault::CodeNotHeld),
        }
    }

    fn head(self) -> usize {
        1
    }

    fn has_other_index(self, _: &[u8]) -> bool {
        false
    }
}

/// A digest.
#[derive(Clone, Copy, PartialEq, Eq, PartialOrd, Ord, Hash, Debug)]
pub struct Digest {
    pub code: DigestCode,
    pub raw: [u8; 32],
}

impl Digest {
    /// The digest that stands at the front, and the length of its spelling.
    pub fn read(bytes: &[u8]) -> Result<(Digest, usize), CodeFault>
        // What is read stands at the front, and a fault is the first in their order.
        ensures exact { Reads (verdict digest_layouts) digest_text IsDigest bytes.now result }

        // What is spelled at the front is read, whatever follows.
        ensures whole { (digest : Digest) (rest : List ℕ) → IsDigest digest
            → bytes.now ≡ digest_text digest ++ rest → result ≡ Ok (digest, 44) }
    {
        Digest::read_exact(bytes)
    }

    fn read_exact(bytes: &[u8]) -> Result<(Digest, usize), CodeFault>
        ensures { Reads (verdict digest_layouts) digest_text IsDigest bytes.now result }
    {
        let mut raw = [0u8; 32];
        let code = primitive::read::<DigestCode>(bytes, &mut raw)?;
        Ok((Digest { code, raw }, 44))
    }

    /// Fills the array with the spelling.
    pub fn write(&self, out: &mut [u8; 44])
        ensures { out.new ≡ digest_text self.now }
    {
        primitive::write(&[self.code.character()], &self.raw, out);
    }
}

impl fmt::Display for Digest {
    ghost use Rattle.std.specs.Prelude.{Some};
    ghost use Rattle.cesr_codes.specs.Spelling.{digest_text};

    ghost output = { λ digest. Some (digest_text digest) };

    fn fmt<W: fmt::Write>(&self, f: &mut fmt::Formatter<W>) -> fmt::Result {
        let mut text = [0u8; 44];
        self.write(&mut text);
        f.write_str(as_text(&text))
    }
}
