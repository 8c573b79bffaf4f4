//! A list that is brought over to a new file.
ghost use Rattle.std.specs.Prelude.{◌≡◌, ◌≢◌, ◌≤◌, ◌↔◌, false, length, IfOk, IfErr, IsTrue, MatchResult};
ghost use Rattle.std.specs.List.{All};
ghost use Rattle.lists.specs.KeriSpecs.Causes.{HasCause};
ghost use Rattle.shelf_log.specs.KeriDisk.Images.{LeavesOnly};
ghost use Rattle.shelf_log.specs.ShelfLog.Answers.{IsOver, HasDiskCause, MigrationRefuses};
ghost use Rattle.shelf_log.specs.ShelfLog.Format.{IsSized, shelf_front, shelf_size};
ghost use Rattle.shelf_log.specs.ShelfLog.OnDisk.{AllHold, AllLeftover, BringsOver, IsBroughtOver, IsFilledOrLeftover, NoneIsShelf};
ghost use Rattle.shelf_log.specs.declared.shelf_log.version.Version.TheVariants.{One, Two};
ghost use Rattle.shelf_log.specs.declared.shelf_log.fault.ShelfFault.TheVariants.{DiskFault};

use crate::keri_disk::Disk;
use crate::shelf_log::behind::write_behind;
use crate::shelf_log::durable::{cut_durably, put_durably};
use crate::shelf_log::record::HEAD;
use crate::shelf_log::{Returned, Shelf, ShelfFault, Version};
use keri_outside::{Failed, Limits};
use lists::{CopyValue, Items};
use std::alloc::{AllocError, Global};

impl<D: Disk + Drop> Shelf<D> {
    /// Brings a list of payloads of 1 to 65,535 bytes over to a disk that holds no shelf of version 2. What its file held
    /// is lost.
    ///
    /// A stop at any moment leaves no shelf of version 2, or the whole list.
    #[tactic(auto, using(crate::proofs::ShelfLogLemmas::Sizes::counted))]
    pub fn migrate(
        alloc: Global,
        list: &[Items<u8>],
        target: D,
        limits: Limits,
    ) -> Result<Shelf<D>, Returned<D>>
        requires sized { All (IsSized One) list.now }
        requires no_shelf { NoneIsShelf (D.shown target) }
        ensures made { IfOk result (λ shelf. (shelf.list ≡ list.now) × (shelf.limits ≡ limits)
            × (shelf.broken ≡ false) × AllHold (D.shown shelf.disk) list.now) }
        ensures full { MatchResult result (λ _. IsOver Two limits list.now
            → ⊥) (λ returned. MigrationRefuses limits list.now returned.fault) }
        ensures kept { IfErr result (λ returned. returned.fault ≢ DiskFault → returned.disk ≡ target) }
        ensures cause { MatchResult result (λ shelf. (D.shown shelf.disk).faults ≡ (D.shown target).faults)
            (λ returned. HasDiskCause (D.shown target) (D.shown returned.disk) returned.fault) }
        ensures moments { MatchResult result
            (λ shelf. LeavesOnly (D.shown target) (D.shown shelf.disk) (IsBroughtOver list.now))
            (λ returned. LeavesOnly (D.shown target) (D.shown returned.disk) (IsBroughtOver list.now)) }

        // What a stopped migration may leave is that again at any moment of this one, until it stands for the list. So the same
        // can be done again.
        ensures leftover { AllLeftover (D.shown target) → MatchResult result
            (λ shelf. LeavesOnly (D.shown target) (D.shown shelf.disk) (IsFilledOrLeftover list.now))
            (λ returned. LeavesOnly (D.shown target) (D.shown returned.disk) (IsFilledOrLeftover list.now)) }
    {
        if is_over(list, limits) {
            return Err(Returned {
                disk: target,
                fault: ShelfFault::LimitReached,
            });
        }
        let Ok(copies) = copies_of(alloc, list) else {
            return Err(Returned {
                disk: target,
                fault: ShelfFault::OutOfMemory,
            });
        };
        let mut disk = target;
        match write_over(&mut disk, list) {
            Ok(end) => Ok(Shelf::of_list(alloc, disk, copies, end, limits)),
            Err(Failed) => Err(Returned {
                disk,
                fault: ShelfFault::DiskFault,
            }),
        }
    }
}

// Whether the list has more records or bytes than a shelf may have.
fn is_over(list: &[Items<u8>], limits: Limits) -> bool
    requires { All (IsSized One) list.now }
    ensures { IsTrue result ↔ IsOver Two limits list.now }
{
    let mut size = 9;
    for payload in list {
        size += (HEAD + payload.len()) as u64;
        if size > u64::from(limits.shelf_bytes) {
            return true;
        }
    }
    list.len() as u64 > u64::from(limits.records) || size > u64::from(limits.shelf_bytes)
}

// The same list.
fn copies_of(alloc: Global, list: &[Items<u8>]) -> Result<Items<Items<u8>>, AllocError>
    ensures { IfOk result (λ copies. copies ≡ list.now) }
{
    let mut copies = Items::new(alloc);
    for payload in list {
        copies.push(payload.copy(alloc)?)?;
    }
    Ok(copies)
}

// Empties the file, writes all but the first byte of its mark, and when that is on the disk that byte. Answers the
// offset of the closed gate.
fn write_over<D: Disk>(disk: &mut D, list: &[Items<u8>]) -> Result<u64, Failed>
    requires sized { All (IsSized One) list.now }
    requires few { shelf_size Two list.now ≤ 1073741824 }
    ensures end { IfOk result (λ end. end ≡ length (shelf_front Two list.now)) }
    ensures brings { BringsOver list.now (D.shown disk.old) (D.shown disk.new) result }
    ensures cause { HasCause (D.shown disk.old).faults (D.shown disk.new).faults result }
{
    cut_durably(disk, 0)?;
    put_durably(disk, 0, &[0])?;
    let end = write_behind(disk, list)?;
    let first = Version::Two.mark()[0];
    put_durably(disk, 0, &[first])?;
    Ok(end)
}
