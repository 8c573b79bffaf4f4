//! The words of messages that are refused.
ghost use Rattle.std.specs.Prelude.{Some};
ghost use Rattle.report_lines.specs.Words.{reason_word};

use crate::fault_word::FaultWord;
use journal::Reason;
use std::fmt;

/// The word of why a message is refused.
#[derive(Clone, Copy)]
pub(crate) struct ReasonWord(pub(crate) Reason);

impl fmt::Display for ReasonWord {
    ghost output = { λ word. Some (reason_word word.0) };

    fn fmt<W: fmt::Write>(&self, f: &mut fmt::Formatter<W>) -> fmt::Result {
        match self.0 {
            Reason::Body(fault) => FaultWord(fault).fmt(f),
            Reason::Unsigned => write!(f, "unsigned"),
            Reason::WrongGroup => write!(f, "group"),
            Reason::DigestOnly => write!(f, "no-receipts"),
            Reason::TooManySigs => write!(f, "signatures"),
        }
    }
}
