//! Why no value was read.
ghost use Rattle.std.specs.Prelude.{◌≡◌};
ghost use Rattle.json_tree.specs.declared.tree_fault.TreeFault.TheVariants.{OutOfMemory};

use std::alloc::{AllocError, AllocFailed};

#[derive(Clone, Copy, PartialEq, Eq, Debug)]
pub enum TreeFault {
    /// No value that nests at most as deep as is allowed stands at the front.
    NotATree,
    OutOfMemory,
}

impl From<AllocError> for TreeFault {
    ghost from_gives = { λ _ fault. fault ≡ OutOfMemory };

    fn from(_: AllocError) -> TreeFault {
        TreeFault::OutOfMemory
    }
}

impl<T: Drop> From<AllocFailed<T>> for TreeFault {
    ghost from_gives = { λ _ fault. fault ≡ OutOfMemory };

    fn from(_: AllocFailed<T>) -> TreeFault {
        TreeFault::OutOfMemory
    }
}
