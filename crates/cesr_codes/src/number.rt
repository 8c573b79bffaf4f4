//! Numbers of 128 bits.
ghost use Rattle.std.specs.Prelude.{◌≡◌, ◌++◌, List, ℕ};
ghost use Rattle.cesr_codes.specs.Reading.{Reads};
ghost use Rattle.cesr_codes.specs.Spelling.{IsNumber, number_text};
ghost use Rattle.cesr_codes.specs.Table.{number_layouts, verdict};
ghost use Rattle.cesr_codes.specs.declared.number.Number.{Number};

use crate::code::Code;
use crate::text::as_text;
use crate::{CodeFault, primitive};
use std::fmt;

/// The code of a number.
#[derive(Clone, Copy)]
struct NumberCode;

impl Code for NumberCode {
    ghost use Rattle.cesr_codes.specs.Codes.{number_layout, number_sizes};
    ghost use Rattle.cesr_codes.specs.Table.{number_layouts};

    ghost layouts = { number_layouts };

    ghost layout_of = { λ _. number_layout };

    ghost bytes = { 16 };

    ghost sized = { λ _. number_sizes };

    fn at_front(text: &[u8]) -> Result<NumberCode, CodeFault> {
        match text {
            [] | [b'0'] => Err(CodeFault::Short),
            [b'0', b'A', ..] => Ok(NumberCode),
            _ => Err(CodeFault::CodeNotHeld),
        }
    }

    fn head(self) -> usize {
        2
    }

    fn has_other_index(self, _: &[u8]) -> bool {
        false
    }
}

/// A number, as of an event that was first seen.
#[derive(Clone, Copy, PartialEq, Eq, Hash, Debug)]
pub struct Number {
    pub value: u128,
}

impl Number {
    /// The number that stands at the front, and the length of its spelling.
    pub fn read(bytes: &[u8]) -> Result<(Number, usize), CodeFault>
        // What is read stands at the front, and a fault is the first in their order.
        ensures exact { Reads (verdict number_layouts) number_text IsNumber bytes.now result }

        // What is spelled at the front is read, whatever follows.
        ensures whole { (number : Number) (rest : List ℕ) → IsNumber number
            → bytes.now ≡ number_text number ++ rest → result ≡ Ok (number, 24) }
    {
        Number::read_exact(bytes)
    }

    // The number, or the first fault.
    fn read_exact(bytes: &[u8]) -> Result<(Number, usize), CodeFault>
        ensures { Reads (verdict number_layouts) number_text IsNumber bytes.now result }
    {
        let mut raw = [0u8; 16];
        let _ = primitive::read::<NumberCode>(bytes, &mut raw)?;
        let value = u128::from_be_bytes(raw);
        Ok((Number { value }, 24))
    }

    /// Fills the array with the spelling.
    pub fn write(&self, out: &mut [u8; 24])
        ensures { out.new ≡ number_text self.now }
    {
        let raw = self.value.to_be_bytes();
        primitive::write(b"0A", &raw, out);
    }
}

impl fmt::Display for Number {
    ghost use Rattle.std.specs.Prelude.{Some};
    ghost use Rattle.cesr_codes.specs.Spelling.{number_text};

    ghost output = { λ number. Some (number_text number) };

    fn fmt<W: fmt::Write>(&self, f: &mut fmt::Formatter<W>) -> fmt::Result {
        let mut text = [0u8; 24];
        self.write(&mut text);
        f.write_str(as_text(&text))
    }
}
