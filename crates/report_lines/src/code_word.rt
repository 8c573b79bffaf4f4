//! The words of primitives that aren't read.
ghost use Rattle.std.specs.Prelude.{Some};
ghost use Rattle.report_lines.specs.Words.{code_word};

use cesr_codes::CodeFault;
use std::fmt;

/// The word of a primitive's fault.
#[derive(Clone, Copy)]
pub(crate) struct CodeWord(pub(crate) CodeFault);

impl fmt::Display for CodeWord {
    ghost output = { λ word. Some (code_word word.0) };

    fn fmt<W: fmt::Write>(&self, f: &mut fmt::Formatter<W>) -> fmt::Result {
        match self.0 {
            CodeFault::Short => write!(f, "short"),
            CodeFault::CodeNotHeld => write!(f, "code"),
            CodeFault::BadCharacter(place) => write!(f, "character {place}"),
            CodeFault::PadBits => write!(f, "pad-bits"),
            CodeFault::OtherIndex => write!(f, "other-index"),
        }
    }
}
