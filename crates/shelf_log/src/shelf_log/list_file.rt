//! A file of records, read from its mark to its closed gate.
ghost use Rattle.std.specs.Prelude.{◌≡◌, ◌≢◌, ◌≤◌, ◌⊎◌, ◌↔◌, ◌-◌, [], List, ℕ, OnOk, IfOk, IfErr, IfSome, MatchResult, Ok, Err, IsTrue, length, take};
ghost use Rattle.lists.specs.KeriSpecs.Causes.{HasCause};
ghost use Rattle.shelf_log.specs.KeriDisk.Images.{IsDurable};
ghost use Rattle.shelf_log.specs.KeriDisk.Calls.{IsSizeOf, Keeps};
ghost use Rattle.shelf_log.specs.declared.shelf_log.fault.ShelfFault.TheVariants.{Broken, DiskFault};
ghost use Rattle.shelf_log.specs.ShelfLog.Answers.{HasDiskCause, Reads};
ghost use Rattle.shelf_log.specs.ShelfLog.Format.{mark};
ghost use Rattle.shelf_log.specs.ShelfLog.Scans.{HasRead, IsWithin, Scans};

use crate::keri_disk::Disk;
use crate::shelf_log::piece::End;
use crate::shelf_log::scan::Scan;
use crate::shelf_log::{ShelfFault, Version};
use keri_outside::{Failed, Limits};
use std::alloc::Global;

// Bytes of a file that are read at a time: more than a record has.
const WINDOW: u64 = 1 << 21;

/// Reads the list of a file. It syncs first, and writes nothing.
#[tactic(auto, using(crate::proofs::KeriDiskLemmas::Moments::keeps_both, crate::proofs::KeriDiskLemmas::Moments::durable_kept))]
pub(crate) fn read_list<D: Disk>(
    alloc: Global,
    disk: &mut D,
    version: Version,
    limits: Limits,
) -> Result<Scan, ShelfFault>
    ensures reads { IfSome (D.shown disk.old).file
        (λ file. MatchResult result (λ scan. Reads version limits file (Ok scan.list))
        (λ fault. Reads version limits file (Err fault))) }
    ensures read { IfOk result (λ scan. IsWithin version limits scan) }
    ensures unbroken { IfErr result (λ fault. fault ≢ Broken) }
    ensures durable { MatchResult result (λ _. IsDurable (D.shown disk.new)) (λ fault. fault ≢ DiskFault
        → IsDurable (D.shown disk.new)) }
    ensures keeps { Keeps (D.shown disk.old) (D.shown disk.new) }
    ensures cause { MatchResult result (λ _. (D.shown disk.new).faults ≡ (D.shown disk.old).faults)
        (λ fault. HasDiskCause (D.shown disk.old) (D.shown disk.new) fault) }
{
    disk.sync()?;
    let size = disk.size()?;
    if !has_mark(disk, size, version)? {
        return Err(ShelfFault::NotAShelf(0));
    }
    let mut window = vec![in alloc; 0; WINDOW.min(size - 8) as usize]?;
    let mut scan = Scan::new(alloc, version, limits);
    read_records(disk, size, &mut window, &mut scan)?;
    if scan.is_over {
        return Err(ShelfFault::LimitReached);
    }
    Ok(scan)
}

// Whether the file of this size begins with the version's mark.
fn has_mark<D: Disk>(disk: &mut D, size: u64, version: Version) -> Result<bool, Failed>
    requires size { IsSizeOf (D.shown disk.old).file size }
    ensures mark { IfOk result (λ has. IfSome (D.shown disk.old).file
        (λ file. IsTrue has ↔ (take 8 file ≡ mark version))) }
    ensures long { IfOk result (λ has. IsTrue has → 8 ≤ size) }
    ensures keeps { Keeps (D.shown disk.old) (D.shown disk.new) }
    ensures cause { HasCause (D.shown disk.old).faults (D.shown disk.new).faults result }
{
    if size < 8 {
        return Ok(false);
    }
    let mut front = [0; 8];
    disk.read(0, &mut front)?;
    Ok(front == version.mark())
}

// Reads the records behind the mark, up to the closed gate.
#[tactic(auto, using(crate::proofs::KeriDiskLemmas::Moments::keeps_both))]
fn read_records<D: Disk>(
    disk: &mut D,
    size: u64,
    window: &mut [u8],
    scan: &mut Scan,
) -> Result<(), ShelfFault>
    requires size { IsSizeOf (D.shown disk.old).file size }
    requires window { (length window.old ≡ size - 8) ⊎ (length window.old ≡ 2097152) }
    requires mark { (8 ≤ size) × IfSome (D.shown disk.old).file (λ file. take 8 file ≡ mark scan.old.version) }
    requires none_yet { HasRead scan.old [] }
    ensures read { OnOk result ((list : List (List ℕ)) × HasRead scan.new list) }
    ensures scans { IfSome (D.shown disk.old).file (λ file. Scans file scan.new result) }
    ensures unbroken { IfErr result (λ fault. fault ≢ Broken) }
    ensures of { (scan.new.version ≡ scan.old.version) × (scan.new.limits ≡ scan.old.limits) }
    ensures keeps { Keeps (D.shown disk.old) (D.shown disk.new) }
    ensures cause { MatchResult result (λ _. (D.shown disk.new).faults ≡ (D.shown disk.old).faults)
        (λ fault. HasDiskCause (D.shown disk.old) (D.shown disk.new) fault) }
{
    loop {
        let left = size - scan.offset;
        let count = left.min(window.len() as u64);
        let window = &mut window[..count as usize];
        disk.read(scan.offset, window)?;
        match scan.take_window(window)? {
            End::Closed => return Ok(()),
            End::Part(behind) if count == left => return Err(ShelfFault::NotAShelf(
                scan.offset + behind,
            )),
            End::Part(_) => {}
            End::OutOfRange => return Err(ShelfFault::NotAShelf(scan.offset + 1)),
        }
    }
}
