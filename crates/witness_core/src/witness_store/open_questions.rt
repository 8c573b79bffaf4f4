//! The open questions, which the verifier is asked.
ghost use Rattle.std.specs.Prelude.{◌≡◌, ◌<◌, [], IfErr, OnOk};
ghost use Rattle.validator_core.specs.ValidatorCore.Verdicts.{Asks, IsOpen};
ghost use Rattle.validator_core.specs.ValidatorCore.View.{open_of, unheard_of};
ghost use Rattle.witness_core.specs.WitnessStore.Faults.{AskFault, StoresStill};
ghost use Rattle.witness_core.specs.WitnessStore.Histories.{history_of};
ghost use Rattle.witness_core.specs.WitnessStore.Storing.{AreStored, GoesOn};

use crate::witness_store::WitnessFault;
use crate::witness_store::appends::store;
use crate::witness_store::room::Room;
use journal::Question;
use keri_outside::{Steps, Verifier};
use shelf_log::{Disk, Shelf};
use std::alloc::Global;
use validator_core::{Core, VerdictFault};

/// Asks the verifier each open question, and stores what its verdict makes accepted, until none is open.
pub fn ask_open<D: Disk + Drop, V: Verifier>(
    alloc: Global,
    core: &mut Core,
    shelf: &mut Shelf<D>,
    room: &mut Room,
    steps: &mut Steps,
    verifier: &mut V,
) -> Result<(), WitnessFault>
    requires stored { AreStored (history_of core.old) shelf.old.list shelf.old.limits shelf.old.broken
        (D.shown shelf.old.disk) room.old }
    ensures stored { OnOk result (AreStored (history_of core.new) shelf.new.list shelf.new.limits shelf.new.broken
        (D.shown shelf.new.disk) room.new) }
    ensures kept { IfErr result (λ fault. StoresStill fault (AreStored (history_of core.new) shelf.new.list
        shelf.new.limits shelf.new.broken (D.shown shelf.new.disk) room.new)) }
    ensures goes_on { GoesOn shelf.old.list (D.shown shelf.old.disk) (history_of core.new) shelf.new.list
        (D.shown shelf.new.disk) }
    ensures limits { shelf.new.limits ≡ shelf.old.limits }
    ensures asks { Asks (V.says verifier.old) (V.inquiries verifier.old) (V.inquiries verifier.new)
        core.old core.new (open_of core.new) }
    ensures says { V.says verifier.new ≡ V.says verifier.old }
    ensures none_open { OnOk result (open_of core.new ≡ []) }
    ensures disk_same { OnOk result ((D.shown shelf.new.disk).faults ≡ (D.shown shelf.old.disk).faults) }
    ensures verifier_same { OnOk result (V.faults verifier.new ≡ V.faults verifier.old) }
    ensures fault { IfErr result (AskFault (D.shown shelf.old.disk).faults (D.shown shelf.new.disk).faults
        (V.faults verifier.old) (V.faults verifier.new)) }
{
    while let Some(question) = core.next_question(0) {
        ask_one(alloc, core, shelf, room, steps, verifier, &question)?;
    }
    Ok(())
}

// Asks an open question, and stores what its verdict makes accepted.
fn ask_one<D: Disk + Drop, V: Verifier>(
    alloc: Global,
    core: &mut Core,
    shelf: &mut Shelf<D>,
    room: &mut Room,
    steps: &mut Steps,
    verifier: &mut V,
    question: &Question,
) -> Result<(), WitnessFault>
    requires is_open { IsOpen core.old question.now }
    requires stored { AreStored (history_of core.old) shelf.old.list shelf.old.limits shelf.old.broken
        (D.shown shelf.old.disk) room.old }
    ensures stored { OnOk result (AreStored (history_of core.new) shelf.new.list shelf.new.limits shelf.new.broken
        (D.shown shelf.new.disk) room.new) }
    ensures kept { IfErr result (λ fault. StoresStill fault (AreStored (history_of core.new) shelf.new.list
        shelf.new.limits shelf.new.broken (D.shown shelf.new.disk) room.new)) }
    ensures goes_on { GoesOn shelf.old.list (D.shown shelf.old.disk) (history_of core.new) shelf.new.list
        (D.shown shelf.new.disk) }
    ensures limits { shelf.new.limits ≡ shelf.old.limits }
    ensures asks { Asks (V.says verifier.old) (V.inquiries verifier.old) (V.inquiries verifier.new)
        core.old core.new (open_of core.new) }
    ensures heard { OnOk result (Asks (V.says verifier.old) (V.inquiries verifier.old) (V.inquiries verifier.new)
        core.old core.new []) }
    ensures same { V.says verifier.new ≡ V.says verifier.old }
    ensures fewer { OnOk result (unheard_of core.new < unheard_of core.old) }
    ensures disk_same { OnOk result ((D.shown shelf.new.disk).faults ≡ (D.shown shelf.old.disk).faults) }
    ensures verifier_same { OnOk result (V.faults verifier.new ≡ V.faults verifier.old) }
    ensures fault { IfErr result (AskFault (D.shown shelf.old.disk).faults (D.shown shelf.new.disk).faults
        (V.faults verifier.old) (V.faults verifier.new)) }
{
    match core.ask(verifier, question, steps) {
        Ok(_) => store(alloc, core, shelf, room),
        Err(VerdictFault::VerifierFault) => Err(WitnessFault::VerifierFault),
        Err(VerdictFault::OutOfMemory) => Err(WitnessFault::OutOfMemory),
    }
}
