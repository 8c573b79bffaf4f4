//! Bodies with the good signatures on them.
ghost use Rattle.std.specs.Prelude.{OnOk, flat_map, slice_get};
ghost use Rattle.journal.specs.Journal.Journals.{chosen};
ghost use Rattle.watcher_core.specs.Named.{PutsBodies, PutsBody};

use crate::messages::put_signed;
use crate::signatures::first_comings;
use journal::Conflict;
use journal_views::StreamText;
use std::alloc::{AllocError, Global};
use validator_core::Core;

/// Puts the bodies of each conflict, each with its good signatures behind it.
pub(crate) fn put_sets(
    alloc: Global,
    core: &Core,
    conflicts: &[Conflict],
    text: &mut StreamText,
) -> Result<(), AllocError>
    ensures { OnOk result (PutsBodies core.now (flat_map (λ c. chosen core.now.held c.bodies) conflicts.now)
        text.old.bytes.items text.new.bytes.items) }
{
    for conflict in conflicts {
        put_bodies(alloc, core, conflict.bodies.as_slice(), text)?;
    }
    Ok(())
}

// Puts the bodies of these numbers, each with its good signatures behind it.
fn put_bodies(
    alloc: Global,
    core: &Core,
    numbers: &[u32],
    text: &mut StreamText,
) -> Result<(), AllocError>
    ensures { OnOk result (PutsBodies core.now (chosen core.now.held numbers.now) text.old.bytes.items
        text.new.bytes.items) }
{
    for number in numbers {
        put_body(alloc, core, *number, text)?;
    }
    Ok(())
}

// Puts the body of a number, where there is one, with its good signatures behind it.
fn put_body(
    alloc: Global,
    core: &Core,
    number: u32,
    text: &mut StreamText,
) -> Result<(), AllocError>
    ensures { OnOk result (PutsBody core.now (slice_get core.now.held number) text.old.bytes.items text.new.bytes.items) }
{
    let Some(bytes) = core.body(number) else {
        return Ok(());
    };
    let came = core.good_signatures(number)?;
    let firsts = first_comings(alloc, came.as_slice())?;
    put_signed(alloc, bytes, firsts.as_slice(), text)
}
