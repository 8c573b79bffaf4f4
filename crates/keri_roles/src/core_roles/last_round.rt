//! What the last round comes to for a command.
ghost use Rattle.std.specs.Prelude.{◌≡◌};
ghost use Rattle.keri_roles.specs.CoreRoles.CoreTold.{fails_last, last_close};

use crate::core_roles::Close;
use reader_hub::LastRound;

/// Whether a verifier failed in the last round.
pub fn verifier_failed_last(rest: LastRound) -> bool
    ensures { result ≡ fails_last rest }
{
    matches!(rest, LastRound::VerifierFailed)
}

/// How a reader closes by what the last round came to.
pub fn last_close_of(rest: LastRound) -> Close
    ensures { result ≡ last_close rest }
{
    match rest {
        LastRound::NoneFailed => Close::End,
        LastRound::VerifierFailed => Close::VerifierFault,
        LastRound::OutOfMemory => Close::OutOfMemory,
    }
}
