//! What is seen of the objects of an outside.

use crate::witness_core::Witness;
use crate::witness_link::Service;
use run_status::Outside;

/// A witness on a disk of an outside.
pub(crate) type WitnessOf<O> = Witness<<O as Outside>::Disk>;

/// What serves links with the objects of an outside.
pub(crate) type ServiceOf<O> = Service<
    <O as Outside>::Disk,
    <O as Outside>::Verifier,
    <O as Outside>::Signer,
>;

/// Gives what is seen of an outside and of its objects as one value. Each outside has it, by the impl below.
pub trait Viewed: Outside {
    ghost use Rattle.witness_core.specs.WitnessRole.Views.{Views};

    /// Of each kind of object, what it shows.
    ghost views: { Views Self Self.Source Self.Verifier Self.Signer Self.Disk Self.Door Self.Door.Sink };
}

impl<O: Outside> Viewed for O {
    ghost use Rattle.run_status.specs.RunRecord.Seen.{door_shown, signer_shown};
    ghost use Rattle.keri_outside.specs.Shown.{sink_shown, source_shown};
    ghost use Rattle.witness_core.specs.WitnessLink.Links.{verifier_shown};

    ghost views = { record {
      sink = λ outside. sink_shown O.Sink.written O.Sink.faults (O.sink outside);
      source = source_shown O.Source.left O.Source.faults;
      verifier = verifier_shown O.Verifier.says O.Verifier.inquiries O.Verifier.faults;
      signer = signer_shown O.Signer.gives O.Signer.signings O.Signer.faults;
      disk = O.Disk.shown;
      door = door_shown O.Door.left O.Door.faults;
      link_sink = sink_shown O.Door.Sink.written O.Door.Sink.faults;
    } };
}
