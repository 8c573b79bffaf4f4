//! Prefixes that plans give.
ghost use Rattle.std.specs.Prelude.{◌≡◌, IfOk};

use crate::plan_text::kind::Kind;
use crate::plan_text::line_fault::LineFault;
use crate::plan_text::primitive::read_primitive;
use cesr_codes::Prefix;

/// The prefix of a plan's identifier.
#[derive(Clone, Copy)]
pub(crate) enum GivenPrefix {
    /// The digest of the inception.
    Said,
    /// The first key of the inception.
    Basic,
    /// That of an identifier that has a log.
    Of(Prefix),
}

impl GivenPrefix {
    ghost use Rattle.std.specs.Prelude.{Ok};
    ghost use Rattle.controller_core.specs.declared.plan_text.given_prefix.GivenPrefix.{GivenPrefix};
    ghost use Rattle.controller_core.specs.PlanText.Entries.{IsGiven, IsWord};
    ghost use Rattle.controller_core.specs.PlanText.Plans.{is_basic};

    /// The prefix that a plan of this kind spells so.
    pub(crate) fn read(kind: Kind, value: &[u8]) -> Result<GivenPrefix, LineFault>
        ensures some { IfOk result (λ given. IsGiven kind given value.now) }
        ensures only { (given : GivenPrefix) → IsGiven kind given value.now → result ≡ Ok given }
    {
        match kind {
            Kind::Icp => GivenPrefix::of_word(value),
            Kind::Dip => Err(LineFault::Refused),
            Kind::Rot | Kind::Drt | Kind::Ixn => Ok(GivenPrefix::Of(read_primitive(value)?)),
        }
    }

    // The prefix of an inception.
    fn of_word(value: &[u8]) -> Result<GivenPrefix, LineFault>
        ensures some { IfOk result (λ given. IsWord given value.now) }
        ensures only { (given : GivenPrefix) → IsWord given value.now → result ≡ Ok given }
    {
        match value {
            b"said" => Ok(GivenPrefix::Said),
            b"basic" => Ok(GivenPrefix::Basic),
            _ => Err(LineFault::Refused),
        }
    }

    /// Whether it is the first key.
    pub(crate) fn is_basic(self) -> bool
        ensures { result ≡ is_basic self }
    {
        matches!(self, GivenPrefix::Basic)
    }
}
