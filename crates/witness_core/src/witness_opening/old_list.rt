//! A file that is filled with the list of an old shelf.
ghost use Rattle.std.specs.Prelude.{◌≡◌, IfOk, IfSome};
ghost use Rattle.shelf_log.specs.KeriDisk.Images.{IsDurable};
ghost use Rattle.shelf_log.specs.ShelfLog.Leftover.{IsLeftover};
ghost use Rattle.witness_core.specs.WitnessOpening.Names.{KeepsNames};
ghost use Rattle.witness_core.specs.WitnessOpening.Opening.{IsOpen};
ghost use Rattle.witness_core.specs.WitnessOpening.Ways.{FillsTo};

use crate::witness_opening::{NotOpened, Opened, OpeningFault, OpeningOf, OpeningView};
use keri_outside::Limits;
use run_status::Outside;
use shelf_log::{OldShelf, Returned, Shelf, Version};
use std::alloc::Global;

/// Makes the disk of the old shelf, whose file is only read, reads its list, and brings that over to the file, which is no shelf.
#[tactic(auto, using(shelf_log::proofs::ShelfLogLemmas::Leftovers::images_no_shelf))]
pub(crate) fn fill<O: Outside>(
    alloc: Global,
    disk: O::Disk,
    old: &str,
    limits: Limits,
    outside: &mut O,
) -> OpeningOf<O::Disk>
    requires durable { IsDurable (O.Disk.shown disk) }
    requires leftover { IfSome (O.Disk.shown disk).file IsLeftover }
    requires none_yet { (O.Disk.shown disk).faults ≡ 0 }
    ensures is_open { IfOk result (λ opened. IsOpen (O.Disk.shown opened.shelf.disk) limits
        opened.shelf.limits opened.shelf.broken opened.shelf.list) }
    ensures fills { FillsTo O.Disk.shown disk limits (O.shown outside.old) (O.shown outside.new) old.now
        (⟦<OpeningOf<O::Disk> as OpeningView>⟧.opening result) }
    ensures same_names { KeepsNames (O.shown outside.old) (O.shown outside.new) }
    ensures same_sink { O.sink outside.new ≡ O.sink outside.old }
{
    let Ok(old) = outside.old_disk(old) else {
        return Err(NotOpened::failed(Some(disk)));
    };
    match Shelf::read_old(alloc, old, limits) {
        Ok(OldShelf { disk: old, list }) => {
            match Shelf::migrate(alloc, list.as_slice(), disk, limits) {
                Ok(shelf) => Ok(Opened {
                    shelf,
                    old: Some(old),
                }),
                Err(returned) => Err(NotOpened::of(returned, Some(old))),
            }
        }
        Err(Returned { disk: old, fault }) => Err(NotOpened {
            fault: OpeningFault::of(Version::One, fault),
            disk: Some(disk),
            old: Some(old),
        }),
    }
}
