//! The words of streams that are refused.
ghost use Rattle.std.specs.Prelude.{Some};
ghost use Rattle.report_lines.specs.Words.{bad_word};

use crate::code_word::CodeWord;
use cesr_stream::BadReason;
use std::fmt;

/// The word of the rule that a stream fails.
#[derive(Clone, Copy)]
pub(crate) struct BadWord(pub(crate) BadReason);

impl fmt::Display for BadWord {
    ghost output = { λ word. Some (bad_word word.0) };

    fn fmt<W: fmt::Write>(&self, f: &mut fmt::Formatter<W>) -> fmt::Result {
        match self.0 {
            BadReason::NoStart => write!(f, "no-start"),
            BadReason::Version => write!(f, "version"),
            BadReason::TooLarge => write!(f, "too-large"),
            BadReason::GroupNotSupported => write!(f, "not-supported"),
            BadReason::Code(fault) => CodeWord(fault).fmt(f),
            BadReason::Truncated => write!(f, "truncated"),
            BadReason::WrapLength => write!(f, "wrap-length"),
            BadReason::GroupFirst => write!(f, "group-first"),
        }
    }
}
