//! The entries of a journal by the names of their bodies.
ghost use Rattle.std.specs.Prelude.{◌≡◌, IfOk};
ghost use Rattle.blame_core.specs.BlameCore.NamedEntries.{HasNamed};
ghost use Rattle.validator_core.specs.Tables.View as tables;

use escrow::Index;
use journal::Entry;
use lists::length_u32;
use std::alloc::{AllocError, Global};
use validator_core::{Core, Name, name_of};

/// The numbers of the entries of a core's journal, by the names of their bodies' events.
pub(crate) fn named_entries(alloc: Global, core: &Core) -> Result<Index<Name>, AllocError>
    ensures { IfOk result (HasNamed core.now) }
{
    let mut named = Index::new(alloc);
    let entries = core.journal().entries.as_slice();
    for i in 0..entries.len() {
        if let Some(event) = core.event(body_number(&entries[i])) {
            named.add(name_of(event), length_u32(i)?)?;
        }
    }
    Ok(named)
}

// The number of an entry's body.
fn body_number(entry: &Entry) -> u32
    ensures { result ≡ tables.number_of entry.now }
{
    match entry {
        Entry::Took { body, .. } | Entry::Heard { body, .. } => *body,
    }
}
