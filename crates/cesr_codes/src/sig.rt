//! Signatures of 64 bytes.
ghost use Rattle.std.specs.Prelude.{◌≡◌, ◌++◌, List, ℕ};
ghost use Rattle.cesr_codes.specs.Reading.{Reads};
ghost use Rattle.cesr_codes.specs.Spelling.{IsSig, sig_text};
ghost use Rattle.cesr_codes.specs.Table.{sig_layouts, verdict};
ghost use Rattle.cesr_codes.specs.declared.sig.Sig.{Sig};

use crate::code::Code;
use crate::text::as_text;
use crate::{CodeFault, primitive};
use std::fmt;

/// The code of an Ed25519 signature.
#[derive(Clone, Copy)]
struct SigCode;

impl Code for SigCode {
    ghost use Rattle.cesr_codes.specs.Codes.{sig_layout, sig_sizes};
    ghost use Rattle.cesr_codes.specs.Table.{sig_layouts};

    ghost layouts = { sig_layouts };

    ghost layout_of = { λ _. sig_layout };

    ghost bytes = { 64 };

    ghost sized = { λ _. sig_sizes };

    fn at_front(text: &[u8]) -> Result<SigCode, CodeFault> {
        match text {
            [] | [b'0'] => Err(CodeFault::Short),
            [b'0', b'B', ..] => Ok(SigCode),
            _ => Err(CodeFault::CodeNotHeld),
        }
    }

    fn head(self) -> usize {
        2
    }

    fn has_other_index(self, _: &[u8]) -> bool {
        false
    }
}

/// An Ed25519 signature.
#[derive(Clone, Copy, PartialEq, Eq, PartialOrd, Ord, Hash, Debug)]
pub struct Sig {
    pub raw: [u8; 64],
}

impl Sig {
    /// The signature that stands at the front, and the length of its spelling.
    pub fn read(bytes: &[u8]) -> Result<(Sig, usize), CodeFault>
        // What is read stands at the front, and a fault is the first in their order.
        ensures exact { Reads (verdict sig_layouts) sig_text IsSig bytes.now result }

        // What is spelled at the front is read, whatever follows.
        ensures whole { (sig : Sig) (rest : List ℕ) → IsSig sig → bytes.now ≡ sig_text sig ++ rest
            → result ≡ Ok (sig, 88) }
    {
        Sig::read_exact(bytes)
    }

    // The signature, or the first fault.
    fn read_exact(bytes: &[u8]) -> Result<(Sig, usize), CodeFault>
        ensures { Reads (verdict sig_layouts) sig_text IsSig bytes.now result }
    {
        let mut raw = [0u8; 64];
        let _ = primitive::read::<SigCode>(bytes, &mut raw)?;
        Ok((Sig { raw }, 88))
    }

    /// Fills the array with the spelling.
    pub fn write(&self, out: &mut [u8; 88])
        ensures { out.new ≡ sig_text self.now }
    {
        primitive::write(b"0B", &self.raw, out);
    }
}

impl fmt::Display for Sig {
    ghost use Rattle.std.specs.Prelude.{Some};
    ghost use Rattle.cesr_codes.specs.Spelling.{sig_text};

    ghost output = { λ sig. Some (sig_text sig) };

    fn fmt<W: fmt::Write>(&self, f: &mut fmt::Formatter<W>) -> fmt::Result {
        let mut text = [0u8; 88];
        self.write(&mut text);
        f.write_str(as_text(&text))
    }
}
