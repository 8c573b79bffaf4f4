//! A shelf on a disk that was synced.
ghost use Rattle.std.specs.Prelude.{◌≡◌, [], List, ℕ, IfOk};
ghost use Rattle.witness_core.specs.WitnessOpening.Opening.{IsOpen};
ghost use Rattle.witness_core.specs.WitnessOpening.Ways.{BeginsTo, ReadsTo};

use crate::witness_opening::{NotOpened, Opened, OpeningOf, OpeningView};
use keri_outside::Limits;
use shelf_log::{Disk, Shelf};
use std::alloc::Global;

/// Makes an empty file a shelf.
pub(crate) fn begin<D: Disk + Drop>(alloc: Global, disk: D, limits: Limits) -> OpeningOf<D>
    requires { (c : List ℕ) → (D.shown disk).images c → c ≡ [] }
    ensures is_open { IfOk result (λ opened. IsOpen (D.shown opened.shelf.disk) limits
        opened.shelf.limits opened.shelf.broken opened.shelf.list) }
    ensures begins { BeginsTo D.shown disk (⟦<OpeningOf<D> as OpeningView>⟧.opening result) }
{
    match Shelf::create(alloc, disk, limits) {
        Ok(shelf) => Ok(Opened { shelf, old: None }),
        Err(returned) => Err(NotOpened::of(returned, None)),
    }
}

/// Reads a file as a shelf.
pub(crate) fn read<D: Disk + Drop>(alloc: Global, disk: D, limits: Limits) -> OpeningOf<D>
    ensures is_open { IfOk result (λ opened. IsOpen (D.shown opened.shelf.disk) limits
        opened.shelf.limits opened.shelf.broken opened.shelf.list) }
    ensures reads { ReadsTo D.shown disk limits (⟦<OpeningOf<D> as OpeningView>⟧.opening result) }
{
    match Shelf::read_back(alloc, disk, limits) {
        Ok(shelf) => Ok(Opened { shelf, old: None }),
        Err(returned) => Err(NotOpened::of(returned, None)),
    }
}
