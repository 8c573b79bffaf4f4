//! Files of version 1.

use crate::keri_disk::Disk;
use crate::shelf_log::list_file::read_list;
use crate::shelf_log::scan::Scan;
use crate::shelf_log::{Returned, Shelf, Version};
use keri_outside::Limits;
use lists::Items;
use std::alloc::Global;

/// The list of a file of version 1, and its disk.
#[derive(Drop)]
pub struct OldShelf<D> {
    pub disk: D,
    pub list: Items<Items<u8>>,
}

impl<D: Disk + Drop> Shelf<D> {
    ghost use Rattle.std.specs.Prelude.{◌≡◌, ◌≢◌, IfOk, IfErr, IfSome, MatchResult, Ok, Err};
    ghost use Rattle.std.specs.List.{All};
    ghost use Rattle.shelf_log.specs.KeriDisk.Images.{IsDurable};
    ghost use Rattle.shelf_log.specs.KeriDisk.Calls.{Keeps};
    ghost use Rattle.shelf_log.specs.ShelfLog.Answers.{HasDiskCause, Reads};
    ghost use Rattle.shelf_log.specs.ShelfLog.Format.{IsSized};
    ghost use Rattle.shelf_log.specs.declared.shelf_log.version.Version.TheVariants.{One};
    ghost use Rattle.shelf_log.specs.declared.shelf_log.fault.ShelfFault.TheVariants.{Broken, DiskFault};

    /// Reads a file of version 1, whose payloads have 1 to 65,535 bytes. It syncs first, and writes and cuts nothing,
    /// whatever it answers.
    pub fn read_old(alloc: Global, disk: D, limits: Limits) -> Result<OldShelf<D>, Returned<D>>
        ensures sized { IfOk result (λ old. All (IsSized One) old.list) }
        ensures durable { MatchResult result (λ old. IsDurable (D.shown old.disk))
            (λ returned. returned.fault ≢ DiskFault → IsDurable (D.shown returned.disk)) }
        ensures reads { IfSome (D.shown disk).file
            (λ file. MatchResult result (λ old. Reads One limits file (Ok old.list))
            (λ returned. Reads One limits file (Err returned.fault))) }
        ensures unbroken { IfErr result (λ returned. returned.fault ≢ Broken) }
        ensures keeps { MatchResult result (λ old. Keeps (D.shown disk) (D.shown old.disk))
            (λ returned. Keeps (D.shown disk) (D.shown returned.disk)) }
        ensures cause { MatchResult result (λ old. (D.shown old.disk).faults ≡ (D.shown disk).faults)
            (λ returned. HasDiskCause (D.shown disk) (D.shown returned.disk) returned.fault) }
    {
        let mut disk = disk;
        match read_list(alloc, &mut disk, Version::One, limits) {
            Ok(Scan { list, .. }) => Ok(OldShelf { disk, list }),
            Err(fault) => Err(Returned { disk, fault }),
        }
    }
}
