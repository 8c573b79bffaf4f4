//! What stands behind the first byte of a file that isn't a shelf yet.
ghost use Rattle.std.specs.Prelude.{◌≡◌, ◌≤◌, ◌∷◌, [], length, IfOk, IfSome};
ghost use Rattle.std.specs.List.{All};
ghost use Rattle.lists.specs.KeriSpecs.Causes.{HasCause};
ghost use Rattle.shelf_log.specs.ShelfLog.Blank.{Extends, WritesBehind};
ghost use Rattle.shelf_log.specs.ShelfLog.Format.{IsSized, record_bytes, records, shelf_front, shelf_size};
ghost use Rattle.shelf_log.specs.declared.shelf_log.version.Version.TheVariants.{One, Two};

use crate::keri_disk::Disk;
use crate::shelf_log::Version;
use crate::shelf_log::record::{HEAD, head_of};
use keri_outside::Failed;
use lists::Items;

/// Writes the rest of the mark, the records of the list and a closed gate behind the one byte that is there, and syncs.
/// Answers the offset of the closed gate.
pub(crate) fn write_behind<D: Disk>(disk: &mut D, list: &[Items<u8>]) -> Result<u64, Failed>
    requires sized { All (IsSized One) list.now }
    requires few { shelf_size Two list.now ≤ 1073741824 }
    requires byte { IfSome (D.shown disk.old).file (λ file. file ≡ 0 ∷ []) }
    ensures end { IfOk result (λ end. end ≡ length (shelf_front Two list.now)) }
    ensures writes { WritesBehind list.now (D.shown disk.old) (D.shown disk.new) result }
    ensures cause { HasCause (D.shown disk.old).faults (D.shown disk.new).faults result }
{
    extend(disk, 1, &Version::Two.mark()[1..])?;
    let end = write_records(disk, list)?;
    extend(disk, end, &[0])?;
    disk.sync()?;
    Ok(end)
}

// Writes the records of the list behind the mark. Answers the offset behind them.
fn write_records<D: Disk>(disk: &mut D, list: &[Items<u8>]) -> Result<u64, Failed>
    requires sized { All (IsSized One) list.now }
    requires few { shelf_size Two list.now ≤ 1073741824 }
    requires mark { IfSome (D.shown disk.old).file (λ file. length file ≡ 8) }
    ensures end { IfOk result (λ end. end ≡ length (shelf_front Two list.now)) }
    ensures extends { Extends (records list.now) (D.shown disk.old) (D.shown disk.new) result }
    ensures cause { HasCause (D.shown disk.old).faults (D.shown disk.new).faults result }
{
    let mut offset = 8;
    for payload in list {
        write_record(disk, offset, payload.as_slice())?;
        offset += (HEAD + payload.len()) as u64;
    }
    Ok(offset)
}

// Writes one record at the end of the file.
fn write_record<D: Disk>(disk: &mut D, end: u64, payload: &[u8]) -> Result<(), Failed>
    requires sized { IsSized One payload.now }
    requires few { (1 ≤ end) × (end ≤ 1073741824) }
    requires end { IfSome (D.shown disk.old).file (λ file. length file ≡ end) }
    ensures extends { Extends (record_bytes payload.now) (D.shown disk.old) (D.shown disk.new) result }
    ensures cause { HasCause (D.shown disk.old).faults (D.shown disk.new).faults result }
{
    extend(disk, end, &head_of(payload.len()))?;
    extend(disk, end + HEAD as u64, payload)
}

// Writes the bytes at the end of the file.
fn extend<D: Disk>(disk: &mut D, end: u64, bytes: &[u8]) -> Result<(), Failed>
    requires few { 1 ≤ end }
    requires end { IfSome (D.shown disk.old).file (λ file. length file ≡ end) }
    ensures extends { Extends bytes.now (D.shown disk.old) (D.shown disk.new) result }
    ensures cause { HasCause (D.shown disk.old).faults (D.shown disk.new).faults result }
{
    disk.write_at(end, bytes)
}
