//! Opening a shelf over the outside.
ghost use Rattle.std.specs.Prelude.{◌≡◌, None, Some, IfOk};
ghost use Rattle.std.specs.Option.{option_map};
ghost use Rattle.witness_core.specs.WitnessOpening.Names.{KeepsNames};
ghost use Rattle.witness_core.specs.WitnessOpening.Opening.{IsOpen, OpensTo};

use crate::witness_opening::file_kind::is_empty;
use crate::witness_opening::old_list::fill;
use crate::witness_opening::ways::{begin, read};
use crate::witness_opening::{NotOpened, Opened, OpeningOf, OpeningView};
use keri_outside::{Failed, Limits};
use run_status::Outside;
use shelf_log::is_leftover;
use std::alloc::Global;

/// Opens the shelf of a name. An empty file is made one. Where an old shelf is named, such a file is filled with its list instead,
/// and so is what a stopped migration left.
///
/// A file that is a shelf isn't written, nor is any other; and the old one's never is, nor is it made.
pub fn open_shelf<O: Outside>(
    alloc: Global,
    name: &str,
    old: Option<&str>,
    limits: Limits,
    outside: &mut O,
) -> Result<Opened<O::Disk>, NotOpened<O::Disk>>
    ensures is_open { IfOk result (λ opened. IsOpen (O.Disk.shown opened.shelf.disk) limits
        opened.shelf.limits opened.shelf.broken opened.shelf.list) }
    ensures opens { OpensTo O.Disk.shown limits (O.shown outside.old) (O.shown outside.new) name.now
        (option_map (λ n. n.now) old.entry) (⟦<OpeningOf<O::Disk> as OpeningView>⟧.opening result) }
    ensures same_names { KeepsNames (O.shown outside.old) (O.shown outside.new) }
    ensures same_sink { O.sink outside.new ≡ O.sink outside.old }
{
    match old {
        Some(old) => open_beside(alloc, name, old, limits, outside),
        None => open_alone(alloc, name, limits, outside),
    }
}

// No old shelf is named.
fn open_alone<O: Outside>(
    alloc: Global,
    name: &str,
    limits: Limits,
    outside: &mut O,
) -> OpeningOf<O::Disk>
    ensures is_open { IfOk result (λ opened. IsOpen (O.Disk.shown opened.shelf.disk) limits
        opened.shelf.limits opened.shelf.broken opened.shelf.list) }
    ensures opens { OpensTo O.Disk.shown limits (O.shown outside.old) (O.shown outside.new) name.now
        None (⟦<OpeningOf<O::Disk> as OpeningView>⟧.opening result) }
    ensures same_names { KeepsNames (O.shown outside.old) (O.shown outside.new) }
    ensures same_sink { O.sink outside.new ≡ O.sink outside.old }
{
    let Ok(disk) = outside.disk(name) else {
        return Err(NotOpened::failed(None));
    };
    let mut disk = disk;
    match is_empty(&mut disk) {
        Ok(true) => begin(alloc, disk, limits),
        Ok(false) => read(alloc, disk, limits),
        Err(Failed) => Err(NotOpened::failed(Some(disk))),
    }
}

// An old shelf is named.
fn open_beside<O: Outside>(
    alloc: Global,
    name: &str,
    old: &str,
    limits: Limits,
    outside: &mut O,
) -> OpeningOf<O::Disk>
    ensures is_open { IfOk result (λ opened. IsOpen (O.Disk.shown opened.shelf.disk) limits
        opened.shelf.limits opened.shelf.broken opened.shelf.list) }
    ensures opens { OpensTo O.Disk.shown limits (O.shown outside.old) (O.shown outside.new) name.now
        (Some old.now) (⟦<OpeningOf<O::Disk> as OpeningView>⟧.opening result) }
    ensures same_names { KeepsNames (O.shown outside.old) (O.shown outside.new) }
    ensures same_sink { O.sink outside.new ≡ O.sink outside.old }
{
    let Ok(disk) = outside.disk(name) else {
        return Err(NotOpened::failed(None));
    };
    let mut disk = disk;
    match is_leftover(&mut disk) {
        Ok(true) => fill(alloc, disk, old, limits, outside),
        Ok(false) => read(alloc, disk, limits),
        Err(Failed) => Err(NotOpened::failed(Some(disk))),
    }
}
