//! Why a part at the front isn't read.
ghost use Rattle.std.specs.Prelude.{◌≡◌, ◌+◌, ◌<◌, ◌^◌};
ghost use Rattle.cesr_stream.specs.Stops.{extent, further};

use crate::BadReason;
use std::alloc::{AllocError, AllocFailed};

/// A rule refuses it at a place in it; or it isn't whole yet; or there was no memory.
#[derive(Clone, Copy, PartialEq, Eq, Debug)]
pub(crate) enum Stop {
    Refused(usize, BadReason),
    Unfinished,
    OutOfMemory,
}

impl Stop {
    /// The same of a part that stands so many bytes further behind.
    pub(crate) fn behind(self, bytes: usize) -> Stop
        requires { bytes + extent self < 2 ^ 64 }
        ensures { result ≡ further bytes self }
    {
        match self {
            Stop::Refused(place, reason) => Stop::Refused(bytes + place, reason),
            Stop::Unfinished => Stop::Unfinished,
            Stop::OutOfMemory => Stop::OutOfMemory,
        }
    }
}

impl From<AllocError> for Stop {
    ghost use Rattle.std.specs.Prelude.{◌≡◌};
    ghost use Rattle.cesr_stream.specs.declared.stop.Stop.TheVariants.{OutOfMemory};

    ghost from_gives = { λ _ stop. stop ≡ OutOfMemory };

    fn from(_: AllocError) -> Self {
        Stop::OutOfMemory
    }
}

impl<T: Drop> From<AllocFailed<T>> for Stop {
    ghost use Rattle.std.specs.Prelude.{◌≡◌};
    ghost use Rattle.cesr_stream.specs.declared.stop.Stop.TheVariants.{OutOfMemory};

    ghost from_gives = { λ _ stop. stop ≡ OutOfMemory };

    fn from(_: AllocFailed<T>) -> Self {
        Stop::OutOfMemory
    }
}
