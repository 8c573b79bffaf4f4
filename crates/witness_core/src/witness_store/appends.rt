//! Storing what is accepted.
ghost use Rattle.std.specs.Prelude.{◌≡◌, ◌<◌, false, length, IfErr, OnOk};
ghost use Rattle.journal.specs.Journal.Grown.{IsGrown};
ghost use Rattle.shelf_log.specs.ShelfLog.OnDisk.{AllHold};
ghost use Rattle.validator_core.specs.ValidatorCore.View.{accepted_by, base_of};
ghost use Rattle.witness_core.specs.WitnessStore.Faults.{StoreFault};
ghost use Rattle.witness_core.specs.WitnessStore.Histories.{history_of};
ghost use Rattle.witness_core.specs.WitnessStore.Room.{HasRoom};
ghost use Rattle.witness_core.specs.WitnessStore.Storing.{Appends, AreStored, IsOnWay};

use crate::witness_store::WitnessFault;
use crate::witness_store::payload::payload_at;
use crate::witness_store::room::Room;
use shelf_log::{Disk, Shelf, ShelfFault};
use std::alloc::Global;
use validator_core::Core;

/// Appends the payloads of the accepted events that the shelf lacks, in order. They were accepted by the last entry.
pub fn store<D: Disk + Drop>(
    alloc: Global,
    core: &Core,
    shelf: &mut Shelf<D>,
    room: &mut Room,
) -> Result<(), WitnessFault>
    requires on_way { IsOnWay (history_of core.now) shelf.old.list }
    requires grown { IsGrown (base_of core.now) }
    requires fits { HasRoom shelf.old.limits (history_of core.now) shelf.old.list room.old }
    requires whole { shelf.old.broken ≡ false }
    requires holds { AllHold (D.shown shelf.old.disk) shelf.old.list }
    ensures stored { OnOk result (AreStored (history_of core.now) shelf.new.list shelf.new.limits shelf.new.broken
        (D.shown shelf.new.disk) room.new) }
    ensures appends { Appends shelf.old.list (D.shown shelf.old.disk) (history_of core.now) shelf.new.list
        (D.shown shelf.new.disk) }
    ensures limits { shelf.new.limits ≡ shelf.old.limits }
    ensures none_failed { OnOk result ((D.shown shelf.new.disk).faults ≡ (D.shown shelf.old.disk).faults) }
    ensures fault { IfErr result (StoreFault (D.shown shelf.old.disk).faults (D.shown shelf.new.disk).faults) }
{
    while shelf.list().len() < core.accepted().len() {
        store_next(alloc, core, shelf, room)?;
    }
    Ok(())
}

// Appends the payload of the first accepted event that the shelf lacks.
fn store_next<D: Disk + Drop>(
    alloc: Global,
    core: &Core,
    shelf: &mut Shelf<D>,
    room: &mut Room,
) -> Result<(), WitnessFault>
    requires on_way { IsOnWay (history_of core.now) shelf.old.list }
    requires lacking { length shelf.old.list < length (accepted_by core.now) }
    requires grown { IsGrown (base_of core.now) }
    requires fits { HasRoom shelf.old.limits (history_of core.now) shelf.old.list room.old }
    requires whole { shelf.old.broken ≡ false }
    requires holds { AllHold (D.shown shelf.old.disk) shelf.old.list }
    ensures fits { OnOk result (HasRoom shelf.new.limits (history_of core.now) shelf.new.list room.new) }
    ensures one_more { OnOk result (length shelf.old.list < length shelf.new.list) }
    ensures whole { OnOk result (shelf.new.broken ≡ false) }
    ensures holds { OnOk result (AllHold (D.shown shelf.new.disk) shelf.new.list) }
    ensures appends { Appends shelf.old.list (D.shown shelf.old.disk) (history_of core.now) shelf.new.list
        (D.shown shelf.new.disk) }
    ensures limits { shelf.new.limits ≡ shelf.old.limits }
    ensures none_failed { OnOk result ((D.shown shelf.new.disk).faults ≡ (D.shown shelf.old.disk).faults) }
    ensures fault { IfErr result (StoreFault (D.shown shelf.old.disk).faults (D.shown shelf.new.disk).faults) }
{
    let place = shelf.list().len();
    let payload = payload_at(alloc, core, place)?;
    match shelf.append(payload.as_slice()) {
        Ok(()) => {
            room.release(core, place);
            Ok(())
        }
        Err(ShelfFault::DiskFault) => Err(WitnessFault::DiskFault),
        Err(ShelfFault::OutOfMemory) => Err(WitnessFault::OutOfMemory),
        Err(ShelfFault::LimitReached) => unreachable!(),
        Err(ShelfFault::Broken) => unreachable!(),
        Err(ShelfFault::NotAShelf(_)) => unreachable!(),
    }
}
