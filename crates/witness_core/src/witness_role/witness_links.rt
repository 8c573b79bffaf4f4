//! Links that come at a door, and are served to a witness.
ghost use Rattle.std.specs.Prelude.{◌≡◌, ◌≤◌, ◌<◌, [], false, is_none};
ghost use Rattle.std.specs.Vec.{vec_capacity};
ghost use Rattle.witness_core.specs.WitnessRole.ServedLinks.{IsServingLinks, ServesAllLinksBy};

use crate::witness_core::Witness;
use crate::witness_link::{LeftView, Service, ServiceView};
use crate::witness_role::door_end::DoorEnd;
use crate::witness_role::link_service::serve_coming;
use crate::witness_role::links_kept::{LinksKept, unserved, with_verifier};
use crate::witness_role::viewed::{ServiceOf, Viewed, WitnessOf};
use crate::witness_role::witness_end::{end, end_one};
use command_words::Links;
use keri_outside::{Door, Limits};
use run_status::{Close, Done, Outside, Runs};
use std::alloc::Global;

/// Makes the door of the address, and the verifier and the signer of the helper, and serves the witness the links that come, where
/// all three could be made. There is room for the links.
pub(crate) fn serve_links<O: Outside>(
    alloc: Global,
    helper: &str,
    links: Links<'_>,
    witness: Witness<O::Disk>,
    old: Option<O::Disk>,
    kept: LinksKept<O::Source, O::Verifier, <O::Door as Door>::Sink>,
    outside: &mut O,
) -> Done<O>
    requires no_readers { kept.readers.items ≡ [] }
    requires no_sinks { kept.sinks.items ≡ [] }
    requires readers { links.count ≤ vec_capacity kept.readers }
    requires sinks { links.count ≤ vec_capacity kept.sinks }
    requires one { 0 < vec_capacity kept.readers }
    requires whole { witness.broken ≡ false }
    ensures old { result.old ≡ old }
    ensures no_second { result.second ≡ None }
    ensures serves { IsServingLinks O.Disk.shown witness.key witness.limits helper.now links.entry.address.now links.entry.count
        (⟦<WitnessOf<O> as LeftView>⟧.left witness)
        result.disk (⟦<O as Runs>⟧.run outside.old outside.new result) }
{
    let LinksKept { readers, sinks } = kept;
    let Ok(door) = outside.door(links.address) else {
        let reader = unserved(alloc, None, None, Close::End);
        return end_one(witness, reader, None, old, readers, unasked(None, sinks));
    };
    let Ok(verifier) = outside.verifier(helper) else {
        let reader = unserved(alloc, None, None, Close::VerifierFault);
        return end_one(
            witness,
            reader,
            None,
            old,
            readers,
            unasked(Some(door), sinks),
        );
    };
    let Ok(signer) = outside.signer(helper) else {
        let reader = unserved(alloc, None, Some(verifier), Close::SignerFault);
        return end_one(
            witness,
            reader,
            None,
            old,
            readers,
            unasked(Some(door), sinks),
        );
    };
    let limits = outside.limits();
    let kept = LinksKept { readers, sinks };
    let service = Service::new(witness, verifier, signer);
    serve_made::<O>(alloc, links.count, door, service, limits, old, kept)
}

// A door that isn't asked for links. Where there is none, its making failed.
fn unasked<P, K>(door: Option<P>, sinks: Vec<K>) -> DoorEnd<P, K>
    ensures door { result.door ≡ door }
    ensures sinks { result.sinks ≡ sinks }
    ensures failed { result.failed ≡ is_none door }
{
    let failed = door.is_none();
    DoorEnd {
        door,
        sinks,
        failed,
    }
}

// Serves the witness the links that come at the door, by its verifier and its signer, and ends the run.
fn serve_made<O: Outside>(
    alloc: Global,
    count: u16,
    door: O::Door,
    service: ServiceOf<O>,
    limits: Limits,
    old: Option<O::Disk>,
    kept: LinksKept<O::Source, O::Verifier, <O::Door as Door>::Sink>,
) -> Done<O>
    requires no_readers { kept.readers.items ≡ [] }
    requires no_sinks { kept.sinks.items ≡ [] }
    requires readers { count ≤ vec_capacity kept.readers }
    requires sinks { count ≤ vec_capacity kept.sinks }
    requires one { 0 < vec_capacity kept.readers }
    requires whole { service.witness.broken ≡ false }
    ensures old { result.old ≡ old }
    ensures no_second { result.second ≡ None }
    ensures serves { ServesAllLinksBy ⟦<O as Viewed>⟧.views ⟦<ServiceOf<O> as ServiceView>⟧.serving ⟦<O as Runs>⟧.run
        limits count door service result.disk result }
{
    let mut door = door;
    let mut service = service;
    let mut kept = kept;
    let failed = serve_coming::<O>(
        alloc,
        usize::from(count),
        &mut door,
        &mut service,
        limits,
        &mut kept,
    );
    let LinksKept { readers, sinks } = kept;
    let Service {
        witness,
        verifier,
        signer,
    } = service;
    let readers = with_verifier(alloc, verifier, readers);
    let links = DoorEnd {
        door: Some(door),
        sinks,
        failed,
    };
    end(witness, readers, Some(signer), old, links)
}
