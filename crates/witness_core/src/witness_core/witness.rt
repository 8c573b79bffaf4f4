//! The witness.
ghost use Rattle.std.specs.Prelude.{◌≡◌, false};
ghost use Rattle.std.proofs.Props.{props};
ghost use Rattle.cesr_codes.specs.declared.key.KeyCode.TheVariants.{Fixed};
ghost use Rattle.journal.specs.declared.journal.mode.Mode.TheVariants.{Local};
ghost use Rattle.witness_core.specs.WitnessStore.Histories.{history_of};
ghost use Rattle.witness_core.specs.WitnessStore.Storing.{AreStored};

use crate::witness_core::outcome::event_outcome;
use crate::witness_core::take::take_in;
use crate::witness_core::taken::Taken;
use crate::witness_core::{Outcome, StartFault, WitnessFault};
use crate::witness_receipts::Fate;
use crate::witness_store::{Begun, Room, ask_open, begin, breaks, store};
use cesr_codes::Key;
use cesr_stream::Message;
use journal::Journal;
use keri_outside::{Limits, Signer, Steps, Verifier};
use key_state::spelled_is_kept;
use lists::Items;
use shelf_log::{Disk, Shelf};
use std::alloc::Global;
use validator_core::Core;

/// A witness: a core that waits for neither receipts nor seals, and a shelf with the payload of each event that it
/// accepts.
#[derive(Drop)]
pub struct Witness<D: Disk> {
    pub(crate) alloc: Global,
    pub(crate) key: Key,
    pub(crate) limits: Limits,
    pub(crate) core: Core,
    pub(crate) shelf: Shelf<D>,
    pub(crate) steps: Steps,
    pub(crate) room: Room,
    // The disk failed, or there was no memory.
    pub(crate) broken: bool,
    ghost fixed: { key.code ≡ Fixed },
    ghost local: { core.mode ≡ Local },
    ghost core_limits: { core.limits ≡ limits },
    ghost shelf_limits: { shelf.limits ≡ limits },
    ghost stored: { broken ≡ false → AreStored (history_of core) shelf.list shelf.limits shelf.broken
        (D.shown shelf.disk) room } by { Prim.hlevel props },
}

impl<D: Disk + Drop> Witness<D> {
    ghost use Rattle.std.specs.Prelude.{◌≡◌, ◌⊎◌, true, map, All, Err, IfErr, IfOk, MatchResult, OnOk};
    ghost use Rattle.shelf_log.specs.ShelfLog.OnDisk.{AllHold};
    ghost use Rattle.validator_core.specs.ValidatorCore.View.{Follows, IsSoundCore};
    ghost use Rattle.witness_core.specs.WitnessStore.Faults.{StoresStill};
    ghost use Rattle.witness_core.specs.WitnessReceipts.Fates.{IsFate};
    ghost use Rattle.witness_core.specs.WitnessStore.Payloads.{AreListed};
    ghost use Rattle.witness_core.specs.WitnessStore.Starts.{AreNoStart, IsStarted, ReadsAgain};
    ghost use Rattle.witness_core.specs.WitnessStore.Storing.{GoesOn, StoresOn};
    ghost use Rattle.witness_core.specs.declared.witness_store.witness_fault.WitnessFault.TheVariants.{LimitReached as NoRoom};
    ghost use Rattle.witness_core.specs.WitnessCore.Faults.{CausedBy, FullBy, Goes, TakeFault};
    ghost use Rattle.witness_core.specs.WitnessCore.Outcomes.{AreReceipts, AsksSigner, IsOfStored, KeepsList, TellsFate};
    ghost use Rattle.witness_core.specs.WitnessCore.Telling.{AsksVerdicts, IsTakenAs, IsTurnedAway, IsUntold, TellsFault, TellsTaken};

    /// A witness that starts from a shelf: the events of its payloads count as accepted, in their order. Its key can't be
    /// rotated.
    pub fn start(
        alloc: Global,
        key: Key,
        shelf: Shelf<D>,
        limits: Limits,
    ) -> Result<Witness<D>, StartFault<D>>
        requires backer { key.code ≡ Fixed }
        requires limits { shelf.limits ≡ limits }
        requires whole { shelf.broken ≡ false }
        ensures resumed { IfOk result (λ w. IsStarted limits shelf.list w.core × AreListed w.core w.shelf.list) }
        ensures fresh { IfOk result (λ w. (w.broken ≡ false) × (w.key ≡ key) × (w.limits ≡ limits)) }
        ensures same_shelf { MatchResult result (λ w. w.shelf ≡ shelf) (λ f. f.shelf ≡ shelf) }
        ensures refused { IfErr result (λ f. AreNoStart shelf.list f.fault) }
    {
        match begin(alloc, shelf.list(), limits) {
            Ok(Begun { core, room }) => {
                core.sound();
                spelled_is_kept();
                Ok(Witness {
                    alloc,
                    key,
                    limits,
                    core,
                    shelf,
                    steps: Steps::new(),
                    room,
                    broken: false,
                })
            }
            Err(fault) => Err(StartFault { shelf, fault }),
        }
    }

    /// Takes a message, asks each open question, stores each event as soon as it is accepted, and then signs the receipts that
    /// are due.
    pub fn take<V: Verifier, S: Signer>(
        &mut self,
        message: &Message,
        verifier: &mut V,
        signer: &mut S,
    ) -> Result<Outcome, WitnessFault>
        // Broken is answered just after a fault of the disk or want of memory, in an earlier call.
        ensures goes { Goes self.old.broken self.new.broken result }
        ensures stays { self.old.broken ≡ true → self.new ≡ self.old }
        ensures same { (self.new.key ≡ self.old.key) × (self.new.limits ≡ self.old.limits) }

        // There is no room just where the rule says so, and then nothing changes.
        ensures full { self.old.broken ≡ false
            → MatchResult result (λ _. IsTurnedAway self.old.limits self.old.core self.old.shelf.list message.now → ⊥)
            (FullBy (IsTurnedAway self.old.limits self.old.core self.old.shelf.list message.now)) }
        ensures same_at_full { result ≡ Err NoRoom → (self.new.shelf ≡ self.old.shelf)
            × (self.new.broken ≡ self.old.broken) × IsUntold self.old.core self.new.core }

        // The core is told of the message, and of the verdicts that its claims ask for.
        ensures told { self.old.broken ≡ false → MatchResult result
            (λ o. TellsFate (V.says verifier.old) self.old.core message.now o.fate self.new.core)
            (λ fault. TellsFault (V.says verifier.old) self.old.core message.now fault self.new.core) }
        ensures says { V.says verifier.new ≡ V.says verifier.old }
        ensures verdicts { AsksVerdicts (V.inquiries verifier.old) (V.inquiries verifier.new)
            self.old.core self.new.core }
        ensures same_list { IfOk result (λ o. KeepsList o.fate self.old.shelf.list self.new.shelf.list) }

        // What is accepted is stored, whatever the call answers but a fault of the disk and want of memory.
        ensures stored { self.new.broken ≡ false → AreListed self.new.core self.new.shelf.list }
        ensures read { self.new.broken ≡ false → ReadsAgain self.new.core self.new.shelf.list }

        // A stop at any moment leaves what was stored before, and the first few of what was accepted since.
        ensures stores { self.old.broken ≡ false → StoresOn self.old.shelf.list (D.shown self.old.shelf.disk)
            self.new.core self.new.shelf.list (D.shown self.new.shelf.disk) }

        ensures fate { IfOk result (λ o. IsFate self.old.key self.new.core message.now o.fate) }

        // The receipts are those that are due, each is of a stored event, and the signer is asked for no others.
        ensures receipts { IfOk result (AreReceipts self.old.key (S.gives signer.old)
            self.old.core self.new.core message.now) }
        ensures of_stored { IfOk result (λ o. All (IsOfStored self.new.core) o.receipts.items) }
        ensures gives { S.gives signer.new ≡ S.gives signer.old }
        ensures asked { AsksSigner self.old.key self.old.core self.new.core message.now
            (S.signings signer.old) (S.signings signer.new) result }

        // Where the signer was asked, all that is accepted is stored, whatever the call answers.
        ensures stored_where_asked { (S.signings signer.new ≡ S.signings signer.old)
            ⊎ AreListed self.new.core self.new.shelf.list }

        // A fault is answered where its own count rose; the other counts are as they were.
        ensures disk_same { OnOk result ((D.shown self.new.shelf.disk).faults ≡ (D.shown self.old.shelf.disk).faults) }
        ensures verifier_same { OnOk result (V.faults verifier.new ≡ V.faults verifier.old) }
        ensures signer_same { OnOk result (S.faults signer.new ≡ S.faults signer.old) }
        ensures causes { IfErr result (CausedBy (D.shown self.old.shelf.disk).faults (D.shown self.new.shelf.disk).faults
            (V.faults verifier.old) (V.faults verifier.new) (S.faults signer.old) (S.faults signer.new)) }
    {
        if self.broken {
            return Err(WitnessFault::Broken);
        }
        // Till it is known how the call ends.
        self.broken = true;
        match self.take_message(message, verifier, signer) {
            Ok(outcome) => {
                self.broken = false;
                self.core.sound();
                spelled_is_kept();
                Ok(outcome)
            }
            Err(fault) => {
                self.broken = breaks(fault);
                self.core.sound();
                spelled_is_kept();
                Err(fault)
            }
        }
    }

    // Takes a message whole, and then signs the receipts that are due. A message that is refused, or is a receipt, has none.
    // Meanwhile the witness counts as broken, though all that it had accepted is stored.
    fn take_message<V: Verifier, S: Signer>(
        &mut self,
        message: &Message,
        verifier: &mut V,
        signer: &mut S,
    ) -> Result<Outcome, WitnessFault>
        requires broken { self.old.broken ≡ true }
        requires stored { AreStored (history_of self.old.core) self.old.shelf.list self.old.shelf.limits
            self.old.shelf.broken (D.shown self.old.shelf.disk) self.old.room }
        ensures same { (self.new.key ≡ self.old.key) × (self.new.limits ≡ self.old.limits) }
        ensures stored { OnOk result (AreStored (history_of self.new.core) self.new.shelf.list self.new.shelf.limits
            self.new.shelf.broken (D.shown self.new.shelf.disk) self.new.room) }
        ensures kept { IfErr result (λ fault. StoresStill fault (AreStored (history_of self.new.core) self.new.shelf.list
            self.new.shelf.limits self.new.shelf.broken (D.shown self.new.shelf.disk) self.new.room)) }
        ensures goes_on { GoesOn self.old.shelf.list (D.shown self.old.shelf.disk) (history_of self.new.core)
            self.new.shelf.list (D.shown self.new.shelf.disk) }
        ensures same_at_full { IfErr result (λ fault. fault ≡ NoRoom → self.new.shelf ≡ self.old.shelf) }
        ensures full { MatchResult result
            (λ _. IsTurnedAway self.old.limits self.old.core self.old.shelf.list message.now → ⊥)
            (FullBy (IsTurnedAway self.old.limits self.old.core self.old.shelf.list message.now)) }
        ensures told { MatchResult result
            (λ o. TellsFate (V.says verifier.old) self.old.core message.now o.fate self.new.core)
            (λ fault. TellsFault (V.says verifier.old) self.old.core message.now fault self.new.core) }
        ensures says { V.says verifier.new ≡ V.says verifier.old }
        ensures same_list { IfOk result (λ o. KeepsList o.fate self.old.shelf.list self.new.shelf.list) }
        ensures verdicts { AsksVerdicts (V.inquiries verifier.old) (V.inquiries verifier.new)
            self.old.core self.new.core }
        ensures follows { Follows self.old.core self.new.core }
        ensures fate { IfOk result (λ o. IsFate self.old.key self.new.core message.now o.fate) }
        ensures receipts { IfOk result (AreReceipts self.old.key (S.gives signer.old)
            self.old.core self.new.core message.now) }
        ensures of_stored { IfOk result (λ o. All (IsOfStored self.new.core) o.receipts.items) }
        ensures gives { S.gives signer.new ≡ S.gives signer.old }
        ensures asked { AsksSigner self.old.key self.old.core self.new.core message.now
            (S.signings signer.old) (S.signings signer.new) result }
        ensures stored_where_asked { (S.signings signer.new ≡ S.signings signer.old)
            ⊎ AreStored (history_of self.new.core) self.new.shelf.list self.new.shelf.limits self.new.shelf.broken
            (D.shown self.new.shelf.disk) self.new.room }
        ensures disk_same { OnOk result ((D.shown self.new.shelf.disk).faults ≡ (D.shown self.old.shelf.disk).faults) }
        ensures verifier_same { OnOk result (V.faults verifier.new ≡ V.faults verifier.old) }
        ensures signer_same { OnOk result (S.faults signer.new ≡ S.faults signer.old) }
        ensures causes { IfErr result (CausedBy (D.shown self.old.shelf.disk).faults (D.shown self.new.shelf.disk).faults
            (V.faults verifier.old) (V.faults verifier.new) (S.faults signer.old) (S.faults signer.new)) }
    {
        let key = self.key;
        let front = self.shelf.list().len();
        let taken = self.take_whole(message, verifier)?;
        match taken {
            Taken::Refused(reason) => Ok(Outcome {
                fate: Fate::Refused(reason),
                receipts: Vec::new(self.alloc),
            }),
            Taken::NotAnEvent => Ok(Outcome {
                fate: Fate::NotAnEvent,
                receipts: Vec::new(self.alloc),
            }),
            Taken::Event(number) => event_outcome(
                self.alloc, &self.core, &key, front, number, signer,
            ),
        }
    }

    // Takes a message, asks each open question, and after each entry stores what it makes accepted. Meanwhile the witness counts
    // as broken, though all that it had accepted is stored.
    fn take_whole<V: Verifier>(
        &mut self,
        message: &Message,
        verifier: &mut V,
    ) -> Result<Taken, WitnessFault>
        requires broken { self.old.broken ≡ true }
        requires stored { AreStored (history_of self.old.core) self.old.shelf.list self.old.shelf.limits
            self.old.shelf.broken (D.shown self.old.shelf.disk) self.old.room }
        ensures same { (self.new.key ≡ self.old.key) × (self.new.limits ≡ self.old.limits) }
        ensures stored { OnOk result (AreStored (history_of self.new.core) self.new.shelf.list self.new.shelf.limits
            self.new.shelf.broken (D.shown self.new.shelf.disk) self.new.room) }
        ensures kept { IfErr result (λ fault. StoresStill fault (AreStored (history_of self.new.core) self.new.shelf.list
            self.new.shelf.limits self.new.shelf.broken (D.shown self.new.shelf.disk) self.new.room)) }
        ensures goes_on { GoesOn self.old.shelf.list (D.shown self.old.shelf.disk) (history_of self.new.core)
            self.new.shelf.list (D.shown self.new.shelf.disk) }
        ensures same_at_full { IfErr result (λ fault. fault ≡ NoRoom → self.new.shelf ≡ self.old.shelf) }
        ensures full { MatchResult result
            (λ _. IsTurnedAway self.old.limits self.old.core self.old.shelf.list message.now → ⊥)
            (FullBy (IsTurnedAway self.old.limits self.old.core self.old.shelf.list message.now)) }
        ensures told { MatchResult result
            (λ taken. TellsTaken (V.says verifier.old) self.old.core message.now taken self.new.core)
            (λ fault. TellsFault (V.says verifier.old) self.old.core message.now fault self.new.core) }
        ensures says { V.says verifier.new ≡ V.says verifier.old }
        ensures taken { IfOk result (IsTakenAs self.new.core self.old.shelf.list self.new.shelf.list message.now) }
        ensures verdicts { AsksVerdicts (V.inquiries verifier.old) (V.inquiries verifier.new)
            self.old.core self.new.core }
        ensures follows { Follows self.old.core self.new.core }
        ensures disk_same { OnOk result ((D.shown self.new.shelf.disk).faults ≡ (D.shown self.old.shelf.disk).faults) }
        ensures verifier_same { OnOk result (V.faults verifier.new ≡ V.faults verifier.old) }
        ensures causes { IfErr result (TakeFault (D.shown self.old.shelf.disk).faults (D.shown self.new.shelf.disk).faults
            (V.faults verifier.old) (V.faults verifier.new)) }
    {
        let taken = take_in(
            self.alloc,
            &mut self.core,
            &self.shelf,
            &mut self.room,
            &mut self.steps,
            self.limits,
            message,
        )?;
        match taken {
            Taken::Refused(reason) => Ok(Taken::Refused(reason)),
            Taken::NotAnEvent => Ok(Taken::NotAnEvent),
            Taken::Event(number) => {
                store(self.alloc, &self.core, &mut self.shelf, &mut self.room)?;
                ask_open(
                    self.alloc,
                    &mut self.core,
                    &mut self.shelf,
                    &mut self.room,
                    &mut self.steps,
                    verifier,
                )?;
                self.core.sound();
                Ok(Taken::Event(number))
            }
        }
    }

    /// The payloads of the accepted events, in order. It takes no memory.
    pub fn stored(&self) -> &[Items<u8>]
        ensures { result.now ≡ self.now.shelf.list }
    {
        self.shelf.list()
    }

    /// The journal of the core. It takes no memory.
    pub fn journal(&self) -> &Journal
        ensures bodies { result.now.bodies ≡ map (λ b. b.bytes) self.now.core.held }
        ensures entries { result.now.entries ≡ self.now.core.entries }
        ensures sound { IsSoundCore self.now.core }
    {
        self.core.journal()
    }

    /// The shelf.
    pub fn into_shelf(self) -> Shelf<D>
        ensures { result ≡ self.shelf }
    {
        let Witness { core, shelf, .. } = self;
        // Let go of itself, at the function's end, it takes longer to prove.
        drop(core);
        shelf
    }

    /// The journal of the core, and the shelf. It takes no memory.
    pub fn into_parts(self) -> (Journal, Shelf<D>)
        ensures bodies { result.0.bodies ≡ map (λ b. b.bytes) self.core.held }
        ensures entries { result.0.entries ≡ self.core.entries }
        ensures shelf { result.1 ≡ self.shelf }
        ensures stand { self.broken ≡ false → AllHold (D.shown self.shelf.disk) self.shelf.list }
    {
        let Witness { core, shelf, .. } = self;
        (core.into_journal(), shelf)
    }
}
