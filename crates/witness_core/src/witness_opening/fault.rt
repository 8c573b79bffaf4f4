//! Why there is no shelf, and what a run makes of that.
ghost use Rattle.std.specs.Prelude.{◌≡◌, ◌≢◌};

use crate::witness_opening::lines::{old_line, shelf_line};
use run_status::Besides;
use shelf_log::{ShelfFault, Version};
use std::alloc::{AllocError, Global};

/// Why a shelf wasn't opened.
#[derive(Clone, Copy, PartialEq, Eq, Debug)]
pub enum OpeningFault {
    /// The file isn't a shelf, which shows first at this place.
    NotAShelf(u64),
    /// The file of the old shelf isn't one, which shows first at this place.
    NotAnOldShelf(u64),
    /// A disk failed, or couldn't be made.
    DiskFault,
    /// A file's list has more records or bytes than a shelf may have.
    LimitReached,
    /// There is no memory.
    OutOfMemory,
}

impl OpeningFault {
    ghost use Rattle.std.specs.Prelude.{[], false, IfOk, string_bytes};
    ghost use Rattle.shelf_log.specs.declared.shelf_log.fault.ShelfFault.TheVariants.{Broken};
    ghost use Rattle.run_status.specs.RunStatus.RunEnds.{found as all_found};
    ghost use Rattle.run_status.specs.RunStatus.Status.{status_of};
    ghost use Rattle.witness_core.specs.WitnessOpening.Answers.{not_a_shelf, refusal};
    ghost use Rattle.witness_core.specs.WitnessOpening.Found.{found_by, status_by, text_of};
    ghost use Rattle.witness_core.specs.declared.witness_opening.fault.OpeningFault.TheVariants.{OutOfMemory as NoMemory};

    /// Why a file of the version isn't read or written. No append came before, so none failed.
    pub(crate) fn of(version: Version, fault: ShelfFault) -> OpeningFault
        requires { fault ≢ Broken }
        ensures { result ≡ refusal version fault }
    {
        match fault {
            ShelfFault::NotAShelf(place) => OpeningFault::of_place(version, place),
            ShelfFault::DiskFault => OpeningFault::DiskFault,
            ShelfFault::LimitReached => OpeningFault::LimitReached,
            ShelfFault::OutOfMemory => OpeningFault::OutOfMemory,
            ShelfFault::Broken => unreachable!(),
        }
    }

    // The file of the version isn't a shelf.
    fn of_place(version: Version, place: u64) -> OpeningFault
        ensures { result ≡ not_a_shelf version place }
    {
        match version {
            Version::One => OpeningFault::NotAnOldShelf(place),
            Version::Two => OpeningFault::NotAShelf(place),
        }
    }

    /// What a run finds by it.
    pub fn found(self) -> Besides
        ensures found { result ≡ found_by self }

        // The status of a run that reads nothing, unless there is no memory.
        ensures status { self ≢ NoMemory → status_of (all_found result [] false) ≡ status_by self }
    {
        match self {
            OpeningFault::NotAShelf(_) | OpeningFault::NotAnOldShelf(_) => Besides {
                shelf_refused: true,
                ..Besides::nothing()
            },
            OpeningFault::DiskFault => Besides {
                disk_failed: true,
                ..Besides::nothing()
            },
            OpeningFault::LimitReached => Besides {
                shelf_full: true,
                ..Besides::nothing()
            },
            OpeningFault::OutOfMemory => Besides::nothing(),
        }
    }

    /// What is to be written of it: the line of a file that is no shelf, or nothing. There is no text where there was no memory.
    pub fn text(self, alloc: Global) -> Result<String, AllocError>
        ensures { IfOk result (λ text. (self ≢ NoMemory) × (string_bytes text ≡ text_of self)) }
    {
        match self {
            OpeningFault::NotAShelf(place) => shelf_line(alloc, place),
            OpeningFault::NotAnOldShelf(place) => old_line(alloc, place),
            OpeningFault::DiskFault | OpeningFault::LimitReached => Ok(String::new(alloc)),
            OpeningFault::OutOfMemory => Err(AllocError),
        }
    }
}
