//! The words of bodies that are refused.
ghost use Rattle.std.specs.Prelude.{Some};
ghost use Rattle.report_lines.specs.Words.{fault_word};

use event_body::BodyFault;
use std::fmt;

/// The word of a body's fault.
#[derive(Clone, Copy)]
pub(crate) struct FaultWord(pub(crate) BodyFault);

impl fmt::Display for FaultWord {
    ghost output = { λ word. Some (fault_word word.0) };

    fn fmt<W: fmt::Write>(&self, f: &mut fmt::Formatter<W>) -> fmt::Result {
        match self.0 {
            BodyFault::Field(fields) => write!(f, "field {fields}"),
            BodyFault::SizeField => write!(f, "size"),
            BodyFault::Said => write!(f, "said"),
            BodyFault::Prefix => write!(f, "prefix"),
            BodyFault::Threshold => write!(f, "threshold"),
            BodyFault::Witnesses => write!(f, "witnesses"),
            BodyFault::TooMany => write!(f, "many"),
            BodyFault::NumberTooLarge => write!(f, "number"),
            BodyFault::TooLarge => write!(f, "large"),
        }
    }
}
