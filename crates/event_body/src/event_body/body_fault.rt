//! Why a body is refused.
ghost use Rattle.std.specs.Prelude.{◌≡◌};
ghost use Rattle.event_body.specs.declared.event_body.body_fault.ReadBody.TheVariants.{OutOfMemory};

use std::alloc::AllocError;

/// A rule that a body fails.
#[derive(Clone, Copy, PartialEq, Eq, Debug)]
pub enum BodyFault {
    /// The bytes aren't of the form of a kind. So many of its fields are.
    Field(u8),
    /// The version string says another size than the body has.
    SizeField,
    /// The digest `d` isn't that of the body.
    Said,
    /// The prefix isn't one that the inception may have.
    Prefix,
    /// There are no keys, or a threshold isn't one of so many keys or digests.
    Threshold,
    /// A witness stands twice, or the number of witnesses that must agree isn't one of the list.
    Witnesses,
    /// A list has more than 64 members.
    TooMany,
    /// A number has more than 16 digits.
    NumberTooLarge,
    /// The body has more than 65,535 bytes.
    TooLarge,
}

/// Why no event is read.
#[derive(Clone, Copy, PartialEq, Eq, Debug)]
pub enum ReadBody {
    /// The first rule that the body fails.
    Fault(BodyFault),
    /// There was no memory. The body may be good.
    OutOfMemory,
}

impl From<AllocError> for ReadBody {
    ghost from_gives = { λ _ fault. fault ≡ OutOfMemory };

    fn from(_: AllocError) -> ReadBody {
        ReadBody::OutOfMemory
    }
}
