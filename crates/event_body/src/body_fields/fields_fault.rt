//! Why no body was read.

use std::alloc::AllocFailed;

/// Why bytes were not read as a body's fields.
#[derive(Clone, Copy, PartialEq, Eq, Debug)]
pub enum FieldsFault {
    /// The size in the version string isn't the number of bytes.
    OtherSize,
    /// So many fields of a kind stand in the form, and of no kind more.
    Ends(u8),
    OutOfMemory,
}

impl<T: Drop> From<AllocFailed<T>> for FieldsFault {
    ghost use Rattle.std.specs.Prelude.{◌≡◌};
    ghost use Rattle.event_body.specs.declared.body_fields.fields_fault.FieldsFault.TheVariants.{OutOfMemory};

    ghost from_gives = { λ _ fault. fault ≡ OutOfMemory };

    fn from(_: AllocFailed<T>) -> FieldsFault {
        FieldsFault::OutOfMemory
    }
}
