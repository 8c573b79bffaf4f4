//! Why no message is made.
ghost use Rattle.std.specs.Prelude.{◌≡◌};
ghost use Rattle.controller_core.specs.declared.controller_core.plan_fault.PlanFault.TheVariants.{OutOfMemory, SignerFault};

use event_body::BodyFault;
use keri_outside::Failed;
use key_state::Misfit;
use std::alloc::{AllocError, AllocFailed};

/// Why no message is made of a plan.
#[derive(Clone, Copy, PartialEq, Eq, Debug)]
pub enum PlanFault {
    /// The event is no body. This is the first rule that its text fails.
    Body(BodyFault),
    /// The event doesn't follow the state. This is the first rule that it breaks.
    Misfit(Misfit),
    /// The slots aren't enough: there are too many, one is out of range, or they don't meet the thresholds.
    Unsigned,
    /// The signer failed.
    SignerFault,
    /// There was no memory. The plan may be good.
    OutOfMemory,
}

impl From<AllocError> for PlanFault {
    ghost from_gives = { λ _ fault. fault ≡ OutOfMemory };

    fn from(_: AllocError) -> PlanFault {
        PlanFault::OutOfMemory
    }
}

impl<T: Drop> From<AllocFailed<T>> for PlanFault {
    ghost from_gives = { λ _ fault. fault ≡ OutOfMemory };

    fn from(_: AllocFailed<T>) -> PlanFault {
        PlanFault::OutOfMemory
    }
}

impl From<Failed> for PlanFault {
    ghost from_gives = { λ _ fault. fault ≡ SignerFault };

    fn from(_: Failed) -> PlanFault {
        PlanFault::SignerFault
    }
}
