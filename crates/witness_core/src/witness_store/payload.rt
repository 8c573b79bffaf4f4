//! The payloads of accepted events.
ghost use Rattle.std.specs.Prelude.{◌≡◌, ◌<◌, ◌≤◌, ◌+◌, [], All, IfOk, OnOk, Some, length, slice_get};
ghost use Rattle.cesr_codes.specs.Indexed.{IsIndexed};
ghost use Rattle.journal_views.specs.EventPayload.Kept.{kept as kept_on};
ghost use Rattle.journal_views.specs.EventPayload.Payloads.{text_in};
ghost use Rattle.journal.specs.declared.journal.body.Body.{Body};
ghost use Rattle.shelf_log.specs.ShelfLog.Format.{IsSized};
ghost use Rattle.shelf_log.specs.declared.shelf_log.version.Version.TheVariants.{Two};
ghost use Rattle.validator_core.specs.ValidatorCore.View.{accepted_by, told_of};
ghost use Rattle.witness_core.specs.WitnessStore.Payloads.{HasKeptOf, payload_now};
ghost use Rattle.witness_core.specs.WitnessStore.Room.{IsKnown, weight};

use cesr_codes::IndexedSig;
use journal_views::{Kept, payload};
use key_state::spelled_is_kept;
use std::alloc::{AllocError, Global};
use validator_core::Core;

/// The payload of the event at a place of the accepted ones: its body, and the signatures that are good now, each
/// part once.
pub(crate) fn payload_at(alloc: Global, core: &Core, place: usize) -> Result<Vec<u8>, AllocError>
    requires { place < length (accepted_by core.now) }
    ensures payload { IfOk result (λ payload. (b : Body) → slice_get (accepted_by core.now) place ≡ Some b
        → payload.items ≡ payload_now (told_of core.now) (accepted_by core.now) b) }
    ensures sized { IfOk result (λ payload. IsSized Two payload.items) }
    ensures known { OnOk result (IsKnown core.now) }
    ensures within { IfOk result (λ payload. (b : Body) → slice_get (accepted_by core.now) place ≡ Some b
        → 5 + length payload.items ≤ weight (told_of core.now) b) }
    ensures read { IfOk result (λ payload. (b : Body) → slice_get (accepted_by core.now) place ≡ Some b
        → text_in payload.items ≡ b.bytes) }
{
    spelled_is_kept();
    let kept = kept_at(alloc, core, place)?;
    let number = core.accepted()[place] as usize;
    let body = &core.journal().bodies.as_slice()[number];
    payload(alloc, body.as_slice(), kept.sigs())
}

// The kept signatures on the event at a place of the accepted ones.
fn kept_at(alloc: Global, core: &Core, place: usize) -> Result<Kept, AllocError>
    ensures kept { IfOk result (λ kept. (b : Body) → slice_get (accepted_by core.now) place ≡ Some b
        → kept.sigs.items ≡ kept_on (told_of core.now) (accepted_by core.now) b) }
    ensures raw { IfOk result (λ kept. (b : Body) → slice_get (accepted_by core.now) place ≡ Some b
        → All IsIndexed kept.sigs.items) }
{
    let mut kept = Kept::new(alloc);
    let sigs = core.signatures_at(place)?;
    add_all(&mut kept, core, place, sigs.as_slice())?;
    Ok(kept)
}

// Adds signatures on the event at a place of the accepted ones.
fn add_all(
    kept: &mut Kept,
    core: &Core,
    place: usize,
    sigs: &[IndexedSig],
) -> Result<(), AllocError>
    ensures { OnOk result ((b : Body) → slice_get (accepted_by core.now) place ≡ Some b
        → HasKeptOf (accepted_by core.now) b [] kept.old
        → HasKeptOf (accepted_by core.now) b sigs.now kept.new) }
{
    for sig in sigs {
        kept.add(*sig, core.reveal_at(place, sig))?;
    }
    Ok(())
}
