//! What is seen of a run.

use crate::run_outside::Outside;

/// Gives what is seen of a run as one value. Each outside has it, by the impl below.
pub trait Runs: Outside {
    ghost use Rattle.std.specs.Prelude.{◌≡◌};
    ghost use Rattle.run_status.specs.RunRecord.Run.{Run};
    ghost use Rattle.run_status.specs.RunRecord.Seen.{run_over};
    ghost use Rattle.run_status.specs.declared.run_record.done.Done.{Done as Back};

    /// Of the outside before and after it, and of what it hands back.
    ghost run: { Self → Self → Back Self Self.Source Self.Verifier Self.Signer Self.Disk Self.Door Self.Sink Self.Gate Self.Door.Sink → Run };

    // It can be no other.
    ghost run_is: { run ≡ run_over Self.Source.left Self.Source.faults
        Self.Verifier.says Self.Verifier.inquiries Self.Verifier.faults
        Self.Signer.gives Self.Signer.signings Self.Signer.faults Self.Disk.shown
        Self.Door.left Self.Door.faults Self.Door.Sink.written Self.Door.Sink.faults
        Self.Sink.written Self.Sink.faults Self.shown Self.sink };
}

impl<O: Outside> Runs for O {
    ghost use Rattle.std.specs.Prelude.{refl};
    ghost use Rattle.run_status.specs.RunRecord.Seen.{run_over};

    ghost run = { run_over O.Source.left O.Source.faults
        O.Verifier.says O.Verifier.inquiries O.Verifier.faults
        O.Signer.gives O.Signer.signings O.Signer.faults O.Disk.shown
        O.Door.left O.Door.faults O.Door.Sink.written O.Door.Sink.faults
        O.Sink.written O.Sink.faults O.shown O.sink };

    ghost run_is = { refl };
}
