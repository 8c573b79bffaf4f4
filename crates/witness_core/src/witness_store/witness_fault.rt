//! Why a witness doesn't take a message to its end.
ghost use Rattle.std.specs.Prelude.{◌≡◌};
ghost use Rattle.witness_core.specs.WitnessStore.Faults.{breaks as breaks_by};
ghost use Rattle.witness_core.specs.declared.witness_store.witness_fault.WitnessFault.TheVariants.{OutOfMemory as NoMemory};

use std::alloc::{AllocError, AllocFailed};
use thiserror::Error;

/// Why a witness doesn't take a message to its end.
#[derive(Clone, Copy, PartialEq, Eq, Debug, Error)]
pub enum WitnessFault {
    /// The disk failed: the witness is broken.
    #[error("the disk failed")]
    DiskFault,
    /// The signer failed: what was accepted is stored.
    #[error("the signer failed")]
    SignerFault,
    /// The verifier failed: what was accepted is stored.
    #[error("the verifier failed")]
    VerifierFault,
    /// There is no room: nothing has changed.
    #[error("no room")]
    LimitReached,
    /// The disk failed, or there was no memory, in an earlier call.
    #[error("broken by an earlier fault")]
    Broken,
    /// There is no memory: the witness is broken.
    #[error("no memory")]
    OutOfMemory,
}

impl From<AllocError> for WitnessFault {
    ghost from_gives = { λ _ e. e ≡ NoMemory };

    fn from(_: AllocError) -> Self {
        WitnessFault::OutOfMemory
    }
}

impl<T: Drop> From<AllocFailed<T>> for WitnessFault {
    ghost from_gives = { λ _ e. e ≡ NoMemory };

    fn from(_: AllocFailed<T>) -> Self {
        WitnessFault::OutOfMemory
    }
}

/// Whether the witness is broken after a fault.
pub fn breaks(fault: WitnessFault) -> bool
    ensures { result ≡ breaks_by fault }
{
    matches!(fault, WitnessFault::DiskFault | WitnessFault::OutOfMemory)
}
