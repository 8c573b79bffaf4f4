//! What a call of a shelf refuses.
ghost use Rattle.std.specs.Prelude.{◌≡◌};
ghost use Rattle.shelf_log.specs.declared.shelf_log.fault.ShelfFault.TheVariants.{DiskFault, OutOfMemory};

use keri_outside::Failed;
use std::alloc::{AllocError, AllocFailed};

/// Why a call of a shelf came to nothing.
#[derive(Clone, Copy, PartialEq, Eq, Debug)]
pub enum ShelfFault {
    /// The disk failed.
    DiskFault,
    /// The file isn't a shelf, which shows first at this offset.
    NotAShelf(u64),
    /// A limit on records or bytes is reached.
    LimitReached,
    /// The disk failed in an earlier append of this shelf.
    Broken,
    /// There is no memory.
    OutOfMemory,
}

impl From<Failed> for ShelfFault {
    ghost from_gives = { λ _ e. e ≡ DiskFault };

    fn from(_: Failed) -> Self {
        ShelfFault::DiskFault
    }
}

impl From<AllocError> for ShelfFault {
    ghost from_gives = { λ _ e. e ≡ OutOfMemory };

    fn from(_: AllocError) -> Self {
        ShelfFault::OutOfMemory
    }
}

impl<T: Drop> From<AllocFailed<T>> for ShelfFault {
    ghost from_gives = { λ _ e. e ≡ OutOfMemory };

    fn from(_: AllocFailed<T>) -> Self {
        ShelfFault::OutOfMemory
    }
}
