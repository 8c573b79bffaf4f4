//! The family of an identifier.
ghost use Rattle.std.specs.Prelude.{◌≡◌, IfOk};
ghost use Rattle.export_core.specs.ExportLaws.Export.{IsFamily, delegator_if};
ghost use Rattle.key_state.specs.Same.{same_prefix};
ghost use Rattle.std.specs.List.{list_any};
ghost use Rattle.validator_core.specs.ValidatorCore.View.{accepted_by, state_of};

use cesr_codes::Prefix;
use std::alloc::{AllocError, Global};
use std::collections::BTreeSet;
use validator_core::Core;

/// The identifier, its delegator, that one's delegator and so on.
pub(crate) fn family_of(
    alloc: Global,
    core: &Core,
    first: &Prefix,
) -> Result<BTreeSet<Prefix>, AllocError>
    ensures { IfOk result (λ family. IsFamily (accepted_by core.now) first.now family.keys) }
{
    let mut family = BTreeSet::new(alloc);
    family.insert(*first)?;
    let mut last = *first;
    // It ends where a delegator is missing or found before. The count is for the prover, which wants a loop to end.
    for _ in 0..u64::MAX {
        let Some(delegator) = delegator_of(core, &last) else {
            return Ok(family);
        };
        if !family.insert(delegator)? {
            return Ok(family);
        }
        last = delegator;
    }
    // There is no memory for so many.
    Err(AllocError)
}

// The delegator of an identifier, where it has one.
fn delegator_of(core: &Core, prefix: &Prefix) -> Option<Prefix>
    ensures { result ≡ delegator_if (state_of core.now prefix.now) }
{
    core.state(prefix)?.delegator
}

/// Whether the identifier is of the family.
pub(crate) fn has_prefix(family: &BTreeSet<Prefix>, prefix: &Prefix) -> bool
    ensures { result ≡ list_any (λ q. same_prefix q prefix.now) family.now.keys }
{
    family.contains(prefix)
}
