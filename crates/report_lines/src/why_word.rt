//! The words of events that wait.
ghost use Rattle.std.specs.Prelude.{Some};
ghost use Rattle.report_lines.specs.Words.{why_word};

use journal::Why;
use std::fmt;

/// The word of why an event waits.
#[derive(Clone, Copy)]
pub(crate) struct WhyWord(pub(crate) Why);

impl fmt::Display for WhyWord {
    ghost output = { λ word. Some (why_word word.0) };

    fn fmt<W: fmt::Write>(&self, f: &mut fmt::Formatter<W>) -> fmt::Result {
        match self.0 {
            Why::Predecessor => write!(f, "predecessor"),
            Why::Signatures => write!(f, "signatures"),
            Why::Next => write!(f, "next"),
            Why::Receipts => write!(f, "receipts"),
            Why::Seal => write!(f, "seal"),
            Why::Never => write!(f, "never"),
        }
    }
}
