//! The journal of a run in which nothing is told.
ghost use Rattle.std.specs.Prelude.{◌≡◌};
ghost use Rattle.run_status.specs.RunRecord.NoJournal.{no_journal};

use journal::Journal;
use lists::Items;
use std::alloc::Global;

/// A journal without bodies and entries. It takes no memory.
pub fn nothing_told(alloc: Global) -> Journal
    ensures { result ≡ no_journal }
{
    Journal {
        bodies: Items::new(alloc),
        entries: Items::new(alloc),
    }
}
