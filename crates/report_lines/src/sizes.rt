//! The sizes of a message.
ghost use Rattle.std.specs.Prelude.{Some};
ghost use Rattle.report_lines.specs.Lines.{sizes_text};

use std::fmt;

/// The bytes of a body, and the numbers of its signatures and receipts.
#[derive(Clone, Copy, PartialEq, Eq, Debug)]
pub struct Sizes {
    pub bytes: usize,
    pub signatures: usize,
    pub receipts: usize,
}

impl fmt::Display for Sizes {
    ghost output = { λ sizes. Some (sizes_text sizes) };

    fn fmt<W: fmt::Write>(&self, f: &mut fmt::Formatter<W>) -> fmt::Result {
        let Sizes {
            bytes,
            signatures,
            receipts,
        } = *self;
        write!(
            f,
            "size={bytes} signatures={signatures} receipts={receipts}"
        )
    }
}
