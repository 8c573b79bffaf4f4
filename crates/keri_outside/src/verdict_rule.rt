//! Rules by which verifiers in memory answer.
ghost use Rattle.std.specs.Prelude.{◌≡◌};
ghost use Rattle.keri_outside.specs.Verdicts.{verdict};

use crate::rehearsal::rehearse;
use cesr_codes::{Key, Sig};

/// A rule for verdicts.
#[derive(Clone, Copy, PartialEq, Eq, Debug)]
pub enum VerdictRule {
    /// Yes to the rehearsal's signatures alone.
    Rehearsal,
    /// The same verdict on all.
    Always(bool),
}

impl VerdictRule {
    /// The verdict of the rule.
    pub(crate) fn verdict(self, key: &Key, body: &[u8], sig: &Sig) -> bool
        ensures { result ≡ verdict self key.now body.now sig.now }
    {
        match self {
            VerdictRule::Rehearsal => rehearse(key, body).raw == sig.raw,
            VerdictRule::Always(yes) => yes,
        }
    }
}
