//! What a migration that was stopped leaves of its file.
ghost use Rattle.std.specs.Prelude.{◌≤◌, ◌↔◌, IsTrue, IfOk, IfSome, OnOk, length};
ghost use Rattle.lists.specs.KeriSpecs.Causes.{HasCause};
ghost use Rattle.shelf_log.specs.KeriDisk.Calls.{Keeps};
ghost use Rattle.shelf_log.specs.KeriDisk.Images.{IsDurable};
ghost use Rattle.shelf_log.specs.ShelfLog.Leftover.{IsLeftover};

use crate::keri_disk::Disk;
use crate::shelf_log::Version;
use keri_outside::Failed;

/// Whether the file is empty, or what a stopped migration may leave: one byte, or a first byte 0, or another first byte
/// than the mark's with bytes behind it that go on as the mark does. It syncs first, and writes nothing.
#[tactic(auto, using(crate::proofs::KeriDiskLemmas::Moments::keeps_both, crate::proofs::KeriDiskLemmas::Moments::durable_kept))]
pub fn is_leftover<D: Disk>(disk: &mut D) -> Result<bool, Failed>
    ensures leftover { IfOk result (λ is_leftover. IfSome (D.shown disk.old).file
        (λ file. IsTrue is_leftover ↔ IsLeftover file)) }
    ensures durable { OnOk result (IsDurable (D.shown disk.new)) }
    ensures keeps { Keeps (D.shown disk.old) (D.shown disk.new) }
    ensures cause { HasCause (D.shown disk.old).faults (D.shown disk.new).faults result }
{
    disk.sync()?;
    let size = disk.size()?;
    let mut front = [0; 8];
    let front = &mut front[..size.min(8) as usize];
    disk.read(0, front)?;
    Ok(is_front(front))
}

// Whether these are the first bytes of such a file, eight or all of them.
fn is_front(front: &[u8]) -> bool
    requires { length front.now ≤ 8 }
    ensures { IsTrue result ↔ IsLeftover front.now }
{
    match front {
        [] | [_] | [0, ..] => true,
        [b'K', ..] => false,
        [_, behind @ ..] => Version::Two.mark()[1..].starts_with(behind),
    }
}
