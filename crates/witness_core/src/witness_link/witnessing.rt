//! What serves links: a witness, with its verifier and its signer.
ghost use Rattle.std.specs.Prelude.{◌≡◌, ◌⊎◌, false, List, ℕ};
ghost use Rattle.witness_core.specs.WitnessCore.Outcomes.{AsksSigner};
ghost use Rattle.witness_core.specs.WitnessStore.Payloads.{AreListed};
ghost use Rattle.witness_core.specs.WitnessCore.Telling.{AsksVerdicts};
ghost use Rattle.witness_core.specs.WitnessLink.Links.{Left, ServiceShown, Serving, counts_at, terms_at};
ghost use Rattle.witness_core.specs.WitnessLink.Taking.{IsSound, KeepsSame, TakesMessage};

use crate::witness_core::{Outcome, Witness, WitnessFault};
use cesr_stream::Message;
use keri_outside::{Signer, Verifier};
use key_state::spelled_is_kept;
use shelf_log::Disk;

/// Gives what a witness is at a moment as one value.
pub trait LeftView {
    /// The disk of its shelf.
    type Disk;

    /// What it is.
    ghost left: { Self → Left Self.Disk };
}

impl<D: Disk> LeftView for Witness<D> {
    type Disk = D;

    ghost left = { λ w. record { core = w.core; list = w.shelf.list; broken = w.broken; disk = w.shelf.disk } };
}

/// Gives what serves links as one value.
pub trait ServiceView {
    /// The disk of its witness.
    type Disk;

    /// What it is at a moment.
    ghost serving: { Self → Serving Self.Disk };
}

/// A witness with its verifier and its signer, as far as a link needs them.
pub trait Witnessing: ServiceView {
    /// What is seen of them.
    ghost seen: { Self → ServiceShown };

    /// Takes a message, and gives what becomes of it and the receipts that are due.
    fn take(&mut self, message: &Message) -> Result<Outcome, WitnessFault>
        ensures takes { (seen self.old).witness.broken ≡ false → TakesMessage (terms_at (seen self.old))
            (counts_at (seen self.old)) (counts_at (seen self.new)) message.now
            (seen self.old).witness (seen self.new).witness result }
        ensures same { (seen self.old).witness.broken ≡ false
            → KeepsSame (seen self.old).witness (seen self.new).witness }
        ensures says { (seen self.new).verifier.says ≡ (seen self.old).verifier.says }
        ensures gives { (seen self.new).signer.gives ≡ (seen self.old).signer.gives }
        // The signer is asked for just the receipts that are due, and where it was asked all that is accepted is stored. The
        // verifier is asked for just the verdicts that came.
        ensures asked { AsksSigner (seen self.old).witness.key (seen self.old).witness.core (seen self.new).witness.core
            message.now (seen self.old).signer.signings (seen self.new).signer.signings result }
        ensures stored_where_asked { ((seen self.new).signer.signings ≡ (seen self.old).signer.signings)
            ⊎ AreListed (seen self.new).witness.core (seen self.new).witness.list }
        ensures verdicts { AsksVerdicts (seen self.old).verifier.inquiries (seen self.new).verifier.inquiries
            (seen self.old).witness.core (seen self.new).witness.core };

    /// What is true of the witness where it isn't broken, stated for proofs. Nothing is done here.
    fn sound(&self)
        ensures { (seen self.now).witness.broken ≡ false → IsSound (seen self.now).witness };

    // Since this moment there is no other.
    ghost only_now: { (w : Self) (c : List ℕ) → (seen w).witness.disk.images_since (seen w).witness.disk.moment c
        → (seen w).witness.disk.images c };
}

impl<D: Disk + Drop> Witness<D> {
    ghost use Rattle.witness_core.specs.WitnessLink.Links.{seen_as};

    /// What is true of it where it isn't broken, stated for proofs. Nothing is done here.
    pub(crate) fn sound(&self)
        ensures { self.now.broken ≡ false → IsSound (seen_as D.shown self.now.key self.now.limits
            (record { core = self.now.core; list = self.now.shelf.list; broken = self.now.broken; disk = self.now.shelf.disk })) }
    {
        // What is true of its core, a proof learns here.
        let _journal = self.journal();
        spelled_is_kept();
    }
}

/// A witness, and the verifier and the signer by which it serves links.
#[derive(Drop)]
pub struct Service<D: Disk, V, G> {
    pub(crate) witness: Witness<D>,
    pub(crate) verifier: V,
    pub(crate) signer: G,
}

impl<D: Disk, V, G> Service<D, V, G> {
    /// The witness, with the verifier and the signer by which it is to serve.
    pub fn new(witness: Witness<D>, verifier: V, signer: G) -> Service<D, V, G>
        ensures { result ≡ record { witness = witness; verifier = verifier; signer = signer } }
    {
        Service {
            witness,
            verifier,
            signer,
        }
    }

    /// The three again.
    pub fn into_parts(self) -> (Witness<D>, V, G)
        ensures { result ≡ (self.witness, self.verifier, self.signer) }
    {
        (self.witness, self.verifier, self.signer)
    }
}

impl<D: Disk, V: Verifier, G: Signer> ServiceView for Service<D, V, G> {
    ghost use Rattle.run_status.specs.RunRecord.Seen.{signer_shown};
    ghost use Rattle.witness_core.specs.WitnessLink.Links.{verifier_shown};

    type Disk = D;

    ghost serving = { λ s. record {
      key = s.witness.key;
      limits = s.witness.limits;
      left = record { core = s.witness.core; list = s.witness.shelf.list; broken = s.witness.broken; disk = s.witness.shelf.disk };
      verifier = verifier_shown V.says V.inquiries V.faults s.verifier;
      signer = signer_shown G.gives G.signings G.faults s.signer;
    } };
}

impl<D: Disk + Drop, V: Verifier, G: Signer> Witnessing for Service<D, V, G> {
    ghost use Rattle.witness_core.specs.WitnessLink.Links.{seen_by};

    ghost seen = { λ s. seen_by D.shown (Self.serving s) };

    fn take(&mut self, message: &Message) -> Result<Outcome, WitnessFault> {
        let taken = self
            .witness
            .take(message, &mut self.verifier, &mut self.signer);
        // What is true of its core, a proof learns here.
        let _journal = self.witness.journal();
        spelled_is_kept();
        taken
    }

    fn sound(&self) {
        self.witness.sound();
    }

    ghost only_now = { λ s. D.only_now s.witness.shelf.disk };
}
