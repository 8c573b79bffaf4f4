//! The words of plans that are refused.
ghost use Rattle.std.specs.Prelude.{Some};
ghost use Rattle.report_lines.specs.Words.{misfit_word, plan_word};

use crate::PlanRefusal;
use crate::fault_word::FaultWord;
use key_state::Misfit;
use std::fmt;

/// The word of why an event doesn't follow a state.
#[derive(Clone, Copy)]
struct MisfitWord(Misfit);

impl fmt::Display for MisfitWord {
    ghost output = { λ word. Some (misfit_word word.0) };

    fn fmt<W: fmt::Write>(&self, f: &mut fmt::Formatter<W>) -> fmt::Result {
        match self.0 {
            Misfit::Sn => write!(f, "sn"),
            Misfit::Prior => write!(f, "prior"),
            Misfit::Ended => write!(f, "ended"),
            Misfit::EstOnly => write!(f, "est-only"),
            Misfit::Kind => write!(f, "kind"),
            Misfit::WitnessChange => write!(f, "witness-change"),
        }
    }
}

/// The words of why no message is made of a plan.
#[derive(Clone, Copy)]
pub(crate) struct PlanWord(pub(crate) PlanRefusal);

impl fmt::Display for PlanWord {
    ghost output = { λ word. Some (plan_word word.0) };

    fn fmt<W: fmt::Write>(&self, f: &mut fmt::Formatter<W>) -> fmt::Result {
        match self.0 {
            PlanRefusal::Line(line) => write!(f, "line {line}"),
            PlanRefusal::Log => write!(f, "log"),
            PlanRefusal::Body(fault) => write!(f, "body {}", FaultWord(fault)),
            PlanRefusal::Misfit(misfit) => write!(f, "misfit {}", MisfitWord(misfit)),
            PlanRefusal::Unsigned => write!(f, "unsigned"),
        }
    }
}
