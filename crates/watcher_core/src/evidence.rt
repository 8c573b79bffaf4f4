//! The evidence of a core.
ghost use Rattle.std.specs.Prelude.{IfOk};
ghost use Rattle.watcher_core.specs.Evidence.{IsEvidenceText, ReadsAsEvidence};

use crate::bodies::put_sets;
use journal_views::StreamText;
use std::alloc::{AllocError, Global};
use validator_core::Core;

/// The evidence of conflicts, as a stream of bodies and of groups of signatures, and whether there are conflicts.
#[derive(Drop)]
pub struct Evidence {
    pub text: Vec<u8>,
    pub has_conflicts: bool,
}

/// The bodies of each conflict of a core, in order, each byte for byte and with its good signatures behind it: those of its
/// controller that have a yes verdict, each once, in order of first coming, at most 1,024 in a message. The body comes again
/// before each further 1,024. That is the greatest limit of a message's elements, whatever the core's own is.
pub fn evidence_of(alloc: Global, core: &Core) -> Result<Evidence, AllocError>
    ensures text { IfOk result (λ evidence. IsEvidenceText core.now evidence.text.items evidence.has_conflicts) }

    // Whoever reads it reads just these bodies and groups.
    ensures reads { IfOk result (λ evidence. ReadsAsEvidence core.now evidence.text.items) }
{
    core.sound();
    let conflicts = core.conflicts()?;
    let mut text = StreamText::new(alloc);
    put_sets(alloc, core, conflicts.as_slice(), &mut text)?;
    let has_conflicts = !conflicts.is_empty();
    Ok(Evidence {
        text: text.into_bytes(),
        has_conflicts,
    })
}
