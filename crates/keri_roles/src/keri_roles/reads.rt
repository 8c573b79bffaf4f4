//! What is seen of what was read.

use crate::keri_roles::ReaderEnd;
use keri_outside::{Source, Verifier};

/// Gives what is seen of a reader as one value.
pub(crate) trait Reads {
    ghost use Rattle.run_status.specs.RunStatus.Readers.{Reader};

    ghost reader: { Self → Reader };
}

impl<S: Source, V: Verifier> Reads for ReaderEnd<S, V> {
    ghost use Rattle.run_status.specs.RunStatus.Readers.{reader_seen};

    ghost reader = { reader_seen S.left S.faults V.says V.inquiries V.faults };
}
