//! Identifier prefixes.
ghost use Rattle.std.specs.Prelude.{◌≡◌, ◌++◌, List, ℕ};
ghost use Rattle.cesr_codes.specs.Reading.{Reads};
ghost use Rattle.cesr_codes.specs.Spelling.{IsPrefix, prefix_text};
ghost use Rattle.cesr_codes.specs.Table.{prefix_layouts, verdict};
ghost use Rattle.cesr_codes.specs.declared.prefix.Prefix.{Prefix};

use crate::text::as_text;
use crate::{CodeFault, Digest, Key};
use std::fmt;

/// The prefix of an identifier: its one key, or the digest of its inception.
#[derive(Clone, Copy, PartialEq, Eq, PartialOrd, Ord, Hash, Debug)]
pub enum Prefix {
    Basic(Key),
    Said(Digest),
}

impl Prefix {
    /// The prefix that stands at the front, and the length of its spelling.
    pub fn read(bytes: &[u8]) -> Result<(Prefix, usize), CodeFault>
        // What is read stands at the front, and a fault is the first in their order.
        ensures exact { Reads (verdict prefix_layouts) prefix_text IsPrefix bytes.now result }

        // What is spelled at the front is read, whatever follows.
        ensures whole { (prefix : Prefix) (rest : List ℕ) → IsPrefix prefix
            → bytes.now ≡ prefix_text prefix ++ rest → result ≡ Ok (prefix, 44) }
    {
        Prefix::read_exact(bytes)
    }

    fn read_exact(bytes: &[u8]) -> Result<(Prefix, usize), CodeFault>
        ensures { Reads (verdict prefix_layouts) prefix_text IsPrefix bytes.now result }
    {
        let fault = match Key::read(bytes) {
            Ok((key, count)) => return Ok((Prefix::Basic(key), count)),
            Err(fault) => fault,
        };
        if fault != CodeFault::CodeNotHeld {
            return Err(fault);
        }
        match Digest::read(bytes) {
            Ok((digest, count)) => Ok((Prefix::Said(digest), count)),
            Err(fault) => Err(fault),
        }
    }

    /// Fills the array with the spelling.
    pub fn write(&self, out: &mut [u8; 44])
        ensures { out.new ≡ prefix_text self.now }
    {
        match self {
            Prefix::Basic(key) => key.write(out),
            Prefix::Said(digest) => digest.write(out),
        }
    }
}

impl fmt::Display for Prefix {
    ghost use Rattle.std.specs.Prelude.{Some};
    ghost use Rattle.cesr_codes.specs.Spelling.{prefix_text};

    ghost output = { λ prefix. Some (prefix_text prefix) };

    fn fmt<W: fmt::Write>(&self, f: &mut fmt::Formatter<W>) -> fmt::Result {
        let mut text = [0u8; 44];
        self.write(&mut text);
        f.write_str(as_text(&text))
    }
}
