//! Why a value is no threshold.
ghost use Rattle.std.specs.Prelude.{◌≡◌};
ghost use Rattle.sith.specs.declared.sith_fault.SithFault.TheVariants.{OutOfMemory};

use std::alloc::{AllocError, AllocFailed};

/// The first rule that a value breaks which is read as a threshold of so many keys, in this order.
#[derive(Clone, Copy, PartialEq, Eq, Debug)]
pub enum SithFault {
    /// It is no hexadecimal text, no list of texts and groups, and no list of such lists. A group is an object with exactly
    /// one member, whose value is a list of texts.
    Form,
    /// The number of the first weight that is not `0`, `1` or a fraction of at most 1. They are counted from 0 in the order
    /// of the text, a group's outer weight before its inner ones. 65,535 stands for every greater number too.
    BadWeight(u16),
    /// A number is not from 1 to the number of keys (for no keys: not 0), a list's single and inner weights aren't as many as
    /// the keys, or it has no clause.
    OutOfRange,
    /// The denominators of a clause's single and outer weights, or of a group's inner weights, have no common multiple up to
    /// 2^64.
    TooFine,
    /// A clause's single and outer weights, or a group's inner weights, sum to less than 1.
    Unreachable,
    /// There was no memory for it.
    OutOfMemory,
}

impl From<AllocError> for SithFault {
    ghost from_gives = { λ _ fault. fault ≡ OutOfMemory };

    fn from(_: AllocError) -> SithFault {
        SithFault::OutOfMemory
    }
}

impl<T: Drop> From<AllocFailed<T>> for SithFault {
    ghost from_gives = { λ _ fault. fault ≡ OutOfMemory };

    fn from(_: AllocFailed<T>) -> SithFault {
        SithFault::OutOfMemory
    }
}
