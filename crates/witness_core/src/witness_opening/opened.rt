//! What opening a shelf comes to.
ghost use Rattle.std.specs.Prelude.{◌≡◌, ◌≢◌};

use crate::witness_opening::OpeningFault;
use shelf_log::{Disk, Returned, Shelf, Version};

/// A shelf that is open, and the disk of the old one, where its list was brought over.
#[derive(Drop)]
pub struct Opened<D: Disk> {
    pub shelf: Shelf<D>,
    pub old: Option<D>,
}

/// Why there is no shelf, and the disks that were made: that of the shelf, and that of the old one.
#[derive(Drop)]
pub struct NotOpened<D> {
    pub fault: OpeningFault,
    pub disk: Option<D>,
    pub old: Option<D>,
}

/// What opening a shelf comes to.
pub(crate) type OpeningOf<D> = Result<Opened<D>, NotOpened<D>>;

/// Gives what opening a shelf comes to as one value.
pub trait OpeningView {
    ghost use Rattle.witness_core.specs.WitnessOpening.Answers.{Opening};

    /// The disk of a shelf.
    type Disk;

    /// The disks that are handed back, and what is answered.
    ghost opening: { Self → Opening Self.Disk };
}

impl<D: Disk> OpeningView for Result<Opened<D>, NotOpened<D>> {
    ghost use Rattle.std.specs.Prelude.{Some, Ok, Err};
    ghost use Rattle.witness_core.specs.WitnessOpening.Answers.{opening_by};

    type Disk = D;

    ghost opening = { opening_by
        (λ opened. record { disk = Some opened.shelf.disk; old = opened.old; answer = Ok opened.shelf.list })
        (λ none. record { disk = none.disk; old = none.old; answer = Err none.fault }) };
}

impl<D: Drop> NotOpened<D> {
    ghost use Rattle.std.specs.Prelude.{None, Some};
    ghost use Rattle.shelf_log.specs.declared.shelf_log.fault.ShelfFault.TheVariants.{Broken};
    ghost use Rattle.shelf_log.specs.declared.shelf_log.version.Version.TheVariants.{Two};
    ghost use Rattle.witness_core.specs.WitnessOpening.Answers.{refusal};
    ghost use Rattle.witness_core.specs.declared.witness_opening.fault.OpeningFault.TheVariants.{DiskFault};

    /// A disk failed, or couldn't be made.
    pub(crate) fn failed(disk: Option<D>) -> NotOpened<D>
        ensures { result ≡ record { fault = DiskFault; disk = disk; old = None } }
    {
        NotOpened {
            fault: OpeningFault::DiskFault,
            disk,
            old: None,
        }
    }

    /// The shelf's file isn't read or written.
    pub(crate) fn of(returned: Returned<D>, old: Option<D>) -> NotOpened<D>
        requires { returned.fault ≢ Broken }
        ensures { result ≡ record { fault = refusal Two returned.fault; disk = Some returned.disk; old = old } }
    {
        let Returned { disk, fault } = returned;
        NotOpened {
            fault: OpeningFault::of(Version::Two, fault),
            disk: Some(disk),
            old,
        }
    }
}
