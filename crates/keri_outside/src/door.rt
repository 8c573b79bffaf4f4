//! Where links come.
ghost use Rattle.std.specs.Prelude.{◌≡◌, List, ℕ, Option, IfOk, IfSome};
ghost use Rattle.lists.specs.KeriSpecs.Causes.{HasCause};
ghost use Rattle.lists.specs.KeriSpecs.Shown.{HasNone};
ghost use Rattle.keri_outside.specs.Doors.{Comes};

use crate::{Caller, Failed, Sink, Source};

/// Links of peers, one after the other.
pub trait Door {
    /// What a peer sends.
    type Source: Source + Drop;

    /// What a peer is sent.
    type Sink: Sink + Drop;

    /// The bytes of each link that is left, where that is shown.
    ghost left: { Self → Option (List (List ℕ)) };

    /// How often it has failed.
    ghost faults: { Self → ℕ };

    /// The next link, and none at the end alone. A link's source and sink haven't failed yet, and
    /// nothing is written to its sink.
    fn next(&mut self) -> Result<Option<Caller<Self::Source, Self::Sink>>, Failed>
        ensures comes { Comes (λ caller. Self.Source.left caller.source) (left self.old) (left self.new) result }
        ensures source_none_yet { IfOk result (λ found. IfSome found (λ caller. Self.Source.faults caller.source ≡ 0)) }
        ensures sink_none_yet { IfOk result (λ found. IfSome found (λ caller. Self.Sink.faults caller.sink ≡ 0)) }
        ensures unwritten { IfOk result (λ found. IfSome found (λ caller. HasNone (Self.Sink.written caller.sink))) }
        ensures cause { HasCause (faults self.old) (faults self.new) result };
}
