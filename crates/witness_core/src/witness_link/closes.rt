//! How a link closes by a fault of its witness, and whether the next one is asked for.
ghost use Rattle.std.specs.Prelude.{◌≡◌};
ghost use Rattle.witness_core.specs.WitnessLink.Closes.{close_by, asks_next as asks_next_by};

use crate::witness_core::WitnessFault;
use run_status::Close;

/// The close by a fault of a witness. One that was broken before takes nothing: its disk had failed, or memory.
pub(crate) fn close_of(fault: WitnessFault) -> Close
    ensures { result ≡ close_by fault }
{
    match fault {
        WitnessFault::DiskFault => Close::DiskFault,
        WitnessFault::SignerFault => Close::SignerFault,
        WitnessFault::VerifierFault => Close::VerifierFault,
        WitnessFault::LimitReached => Close::LimitReached,
        WitnessFault::Broken => Close::DiskFault,
        WitnessFault::OutOfMemory => Close::OutOfMemory,
    }
}

/// Whether after a link that closed so the next one is asked for.
pub fn asks_next(close: Close) -> bool
    ensures { result ≡ asks_next_by close }
{
    match close {
        Close::End | Close::Bad(_) | Close::ReadFault | Close::WriteFault => true,
        Close::VerifierFault | Close::SignerFault | Close::DiskFault => false,
        Close::Malformed(_) | Close::LimitReached | Close::OutOfMemory => false,
    }
}
