//! Public keys of 32 bytes.
ghost use Rattle.std.specs.Prelude.{◌≡◌, ◌++◌, List, ℕ};
ghost use Rattle.cesr_codes.specs.Reading.{FindsCode, Reads};
ghost use Rattle.cesr_codes.specs.Spelling.{IsKey, key_code, key_text};
ghost use Rattle.cesr_codes.specs.Table.{key_layouts, verdict};
ghost use Rattle.cesr_codes.specs.declared.key.Key.{Key};

use crate::code::Code;
use crate::text::as_text;
use crate::{CodeFault, primitive};
use std::fmt;

/// The code of an Ed25519 public key: `B` for one that can't be rotated, `D` for one that can.
#[derive(Clone, Copy, PartialEq, Eq, PartialOrd, Ord, Hash, Debug)]
pub enum KeyCode {
    Fixed,
    Rotating,
}

impl KeyCode {
    fn character(self) -> u8
        ensures { result ≡ key_code self }
    {
        match self {
            KeyCode::Fixed => b'B',
            KeyCode::Rotating => b'D',
        }
    }
}

impl Code for KeyCode {
    ghost use Rattle.cesr_codes.specs.Codes.{key_layout, key_sizes};
    ghost use Rattle.cesr_codes.specs.Table.{key_layouts};

    ghost layouts = { key_layouts };

    ghost layout_of = { key_layout };

    ghost bytes = { 32 };

    ghost sized = { key_sizes };

    fn at_front(text: &[u8]) -> Result<KeyCode, CodeFault> {
        match text {
            [] => Err(CodeFault::Short),
            [b'B', ..] => Ok(KeyCode::Fixed),
            [b'D', ..] => Ok(KeyCode::Rotating),
            _ => Err(CodeFault::CodeNotHeld),
        }
    }

    fn head(self) -> usize {
        1
    }

    fn has_other_index(self, _: &[u8]) -> bool {
        false
    }
}

/// A public key.
#[derive(Clone, Copy, PartialEq, Eq, PartialOrd, Ord, Hash, Debug)]
pub struct Key {
    pub code: KeyCode,
    pub raw: [u8; 32],
}

impl Key {
    /// The key that stands at the front, and the length of its spelling.
    pub fn read(bytes: &[u8]) -> Result<(Key, usize), CodeFault>
        // What is read stands at the front, and a fault is the first in their order.
        ensures exact { Reads (verdict key_layouts) key_text IsKey bytes.now result }

        // What is spelled at the front is read, whatever follows.
        ensures whole { (key : Key) (rest : List ℕ) → IsKey key → bytes.now ≡ key_text key ++ rest
            → result ≡ Ok (key, 44) }
    {
        Key::read_exact(bytes)
    }

    fn read_exact(bytes: &[u8]) -> Result<(Key, usize), CodeFault>
        ensures { Reads (verdict key_layouts) key_text IsKey bytes.now result }
    {
        let mut raw = [0u8; 32];
        let code = primitive::read::<KeyCode>(bytes, &mut raw)?;
        Ok((Key { code, raw }, 44))
    }

    /// Fills the array with the spelling.
    pub fn write(&self, out: &mut [u8; 44])
        ensures { out.new ≡ key_text self.now }
    {
        primitive::write(&[self.code.character()], &self.raw, out);
    }
}

impl fmt::Display for Key {
    ghost use Rattle.std.specs.Prelude.{Some};
    ghost use Rattle.cesr_codes.specs.Spelling.{key_text};

    ghost output = { λ key. Some (key_text key) };

    fn fmt<W: fmt::Write>(&self, f: &mut fmt::Formatter<W>) -> fmt::Result {
        let mut text = [0u8; 44];
        self.write(&mut text);
        f.write_str(as_text(&text))
    }
}
