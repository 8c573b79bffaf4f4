//! Signatures, each once.
ghost use Rattle.std.specs.Prelude.{◌≡◌, All, IfOk};
ghost use Rattle.cesr_codes.specs.Indexed.{IsIndexed};
ghost use Rattle.journal.specs.Journal.Replies.{same_indexed};
ghost use Rattle.key_state.specs.Same.{distinct};

use cesr_codes::IndexedSig;
use std::alloc::{AllocError, Global};
use std::collections::BTreeSet;

/// Each signature at its first coming.
pub(crate) fn first_comings(
    alloc: Global,
    sigs: &[IndexedSig],
) -> Result<Vec<IndexedSig>, AllocError>
    ensures firsts { IfOk result (λ firsts. firsts.items ≡ distinct same_indexed sigs.now) }
    ensures raw { IfOk result (λ firsts. All IsIndexed firsts.items) }
{
    let mut seen = BTreeSet::new(alloc);
    let mut firsts = Vec::new(alloc);
    for sig in sigs {
        is_indexed(*sig);
        if seen.insert(*sig)? {
            firsts.push(*sig)?;
        }
    }
    Ok(firsts)
}

// The raw bytes of a signature are bytes, which a proof learns where the value is read.
fn is_indexed(_sig: IndexedSig)
    ensures { IsIndexed _sig }
{}
