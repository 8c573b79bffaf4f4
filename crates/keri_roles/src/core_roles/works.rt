//! What is seen of a command's work.

use run_status::Outside;

/// Gives what is seen of a command's work as one value. Each outside has it, by the impl below.
pub trait Works: Outside {
    ghost use Rattle.std.specs.Prelude.{◌≡◌};
    ghost use Rattle.run_status.specs.RunStatus.Readers.{Reader, reader_seen};
    ghost use Rattle.run_status.specs.declared.run_status.reader_end.ReaderEnd.{ReaderEnd as End};
    ghost use Rattle.keri_roles.specs.CoreRoles.Work.{LinksShown, Work, links_over, signed_over, work_over};
    ghost use Rattle.reader_hub.specs.ReaderThreads.Given.{Given, given_by};
    ghost use Rattle.reader_hub.specs.declared.reader_threads.providers.Providers.{Providers as Gave};
    ghost use Rattle.keri_roles.specs.declared.core_roles.outcome.LinkedOutcome.{LinkedOutcome as CameLinked};
    ghost use Rattle.keri_roles.specs.declared.core_roles.outcome.Outcome.{Outcome as Came};
    ghost use Rattle.keri_roles.specs.declared.core_roles.outcome.SignedOutcome.{SignedOutcome as CameSigned};

    /// Of a reader.
    ghost reader: { End Self.Source Self.Verifier → Reader };

    /// Of what a reader is given.
    ghost given: { Gave Self.Source Self.Verifier → Given };

    /// Of the outside before and after it, and of what it came to.
    ghost work: { Self → Self → Came Self.Source Self.Verifier → Work };

    /// The same with its signer.
    ghost signed: { Self → Self → CameSigned Self.Source Self.Verifier Self.Signer → Work };

    /// Of what it came to that read links.
    ghost links: { CameLinked Self.Source Self.Verifier Self.Door Self.Door.Sink → LinksShown };

    // They can be no others.
    ghost reader_is: { reader ≡ reader_seen Self.Source.left Self.Source.faults
        Self.Verifier.says Self.Verifier.inquiries Self.Verifier.faults };

    ghost given_is: { given ≡ given_by Self.Source.left Self.Source.faults
        Self.Verifier.says Self.Verifier.inquiries Self.Verifier.faults };

    ghost work_is: { work ≡ work_over Self.Source.left Self.Source.faults
        Self.Verifier.says Self.Verifier.inquiries Self.Verifier.faults Self.shown };

    ghost signed_is: { signed ≡ signed_over Self.Source.left Self.Source.faults
        Self.Verifier.says Self.Verifier.inquiries Self.Verifier.faults
        Self.Signer.gives Self.Signer.signings Self.Signer.faults Self.shown };

    ghost links_is: { links ≡ links_over Self.Door.left Self.Door.faults
        Self.Door.Sink.written Self.Door.Sink.faults };
}

impl<O: Outside> Works for O {
    ghost use Rattle.std.specs.Prelude.{refl};
    ghost use Rattle.reader_hub.specs.ReaderThreads.Given.{given_by};
    ghost use Rattle.run_status.specs.RunStatus.Readers.{reader_seen};
    ghost use Rattle.keri_roles.specs.CoreRoles.Work.{links_over, signed_over, work_over};

    ghost reader = { reader_seen O.Source.left O.Source.faults
        O.Verifier.says O.Verifier.inquiries O.Verifier.faults };

    ghost given = { given_by O.Source.left O.Source.faults
        O.Verifier.says O.Verifier.inquiries O.Verifier.faults };

    ghost work = { work_over O.Source.left O.Source.faults
        O.Verifier.says O.Verifier.inquiries O.Verifier.faults O.shown };

    ghost signed = { signed_over O.Source.left O.Source.faults
        O.Verifier.says O.Verifier.inquiries O.Verifier.faults
        O.Signer.gives O.Signer.signings O.Signer.faults O.shown };

    ghost links = { links_over O.Door.left O.Door.faults O.Door.Sink.written O.Door.Sink.faults };

    ghost reader_is = { refl };

    ghost given_is = { refl };

    ghost work_is = { refl };

    ghost signed_is = { refl };

    ghost links_is = { refl };
}
