//! Why no more of a question or an answer is read.
ghost use Rattle.std.specs.Prelude.{◌≡◌};
ghost use Rattle.verifier_link.specs.Stops.{cut_short, served_at};

use crate::Served;

/// Why a field wasn't read.
#[derive(Clone, Copy)]
pub(crate) enum Stop {
    /// The input ended before the field was whole.
    Ended,
    /// The field is whole, and not of the form.
    Malformed,
    /// The source failed.
    ReadFault,
    /// So many bytes were read as may be, and the source gave more.
    LimitReached,
}

impl Stop {
    /// The same within a question, which the input's end cuts short.
    pub(crate) fn within_question(self) -> Stop
        ensures { result ≡ cut_short self }
    {
        match self {
            Stop::Ended => Stop::Malformed,
            other => other,
        }
    }

    /// How serving ends where the question at this place isn't read.
    pub(crate) fn served_at(self, place: u64) -> Served
        ensures { result ≡ served_at self place }
    {
        match self {
            Stop::Ended => Served::End,
            Stop::Malformed => Served::Malformed(place),
            Stop::ReadFault => Served::ReadFault,
            Stop::LimitReached => Served::LimitReached,
        }
    }
}
