//! Where peers come.
ghost use Rattle.std.specs.Prelude.{◌≡◌, ◌∷◌, [], List, ℕ, Option, IfOk, IsNone, OnErr, is_some};
ghost use Rattle.lists.specs.KeriSpecs.Shown.{HasNone};
ghost use Rattle.edges.specs.Acts.{ComesIn, Grows};
ghost use Rattle.edges.specs.declared.link_act.LinkAct.{LinkAct};

use crate::{SteadyRead, SteadyWrite};
use std::io;

/// A handle of a link.
pub trait Handle: Sized {
    /// What reads the link.
    type Reader: SteadyRead + Drop;

    /// What writes to the link.
    type Writer: SteadyWrite + Drop;

    /// The number of its peer.
    ghost peer: { Self → ℕ };

    /// The number of the peer that is read.
    ghost read_peer: { Self.Reader → ℕ };

    /// The number of the peer that is written to.
    ghost written_peer: { Self.Writer → ℕ };

    /// The bytes that the peer sends, where that is shown.
    ghost sent: { Self → Option (List ℕ) };

    /// One handle more of the same link, which there always is where it is shown what the peer sends.
    fn again(&self) -> io::Result<Self>
        ensures peer { IfOk result (λ other. peer other ≡ peer self.now) }
        ensures shows { IfOk result (λ other. is_some (sent other) ≡ is_some (sent self.now)) }
        ensures sure { OnErr result (IsNone (sent self.now)) };

    /// It as a reader.
    fn reader(self) -> Self::Reader
        ensures peer { read_peer result ≡ peer self }
        ensures sent { Self.Reader.remaining result ≡ sent self };

    /// It as a writer, which there always is where it is shown what the peer sends. Nothing is written to it yet.
    fn writer(self) -> io::Result<Self::Writer>
        ensures peer { IfOk result (λ writer. written_peer writer ≡ peer self) }
        ensures unwritten { IfOk result (λ writer. HasNone (Self.Writer.contents writer)) }
        ensures sure { OnErr result (IsNone (sent self)) };
}

/// A place at which peers come.
pub trait Listen {
    /// A handle of a link that came.
    type Handle: Handle + Drop;

    /// The bytes of each link that is left, where that is shown.
    ghost left: { Self → Option (List (List ℕ)) };

    /// What it was asked, where that is shown.
    ghost acts: { Self → Option (List LinkAct) };

    /// Waits for the next link.
    fn accept(&mut self) -> io::Result<Self::Handle>
        ensures asked { Grows (acts self.old) (acts self.new) (LinkAct.Asked ∷ []) }
        ensures comes { ComesIn Self.Handle.sent (left self.old) (left self.new) result };

    /// Tells the peer of a link that nothing more goes out to it. It may have gone before.
    fn end(&mut self, link: Self::Handle)
        ensures ended { Grows (acts self.old) (acts self.new) (LinkAct.Ended (Self.Handle.peer link) ∷ []) }
        ensures same { left self.new ≡ left self.old };
}
