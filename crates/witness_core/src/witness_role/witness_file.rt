//! A file that is served to a witness.
ghost use Rattle.std.specs.Prelude.{◌≡◌, ◌<◌, [], false};
ghost use Rattle.std.specs.Vec.{vec_capacity};
ghost use Rattle.witness_core.specs.WitnessRole.ServedFile.{IsServing, ServesAllBy, ServesOver};

use crate::witness_core::Witness;
use crate::witness_link::{LeftView, LinkEnd, Service, ServiceView, serve_link};
use crate::witness_role::door_end::DoorEnd;
use crate::witness_role::links_kept::unserved;
use crate::witness_role::viewed::{ServiceOf, Viewed, WitnessOf};
use crate::witness_role::witness_end::end_one;
use lists::Items;
use run_status::{Close, Done, Outside, ReaderEnd, Runs};
use std::alloc::Global;

/// Makes the source of the file, and the verifier and the signer of the helper, and serves the witness by them, where all three
/// could be made. The readers have room for the one that there is.
pub(crate) fn serve_file<O: Outside>(
    alloc: Global,
    helper: &str,
    name: &str,
    witness: Witness<O::Disk>,
    old: Option<O::Disk>,
    readers: Vec<ReaderEnd<O::Source, O::Verifier>>,
    outside: &mut O,
) -> Done<O>
    requires none_yet { readers.items ≡ [] }
    requires room { 0 < vec_capacity readers }
    requires whole { witness.broken ≡ false }
    ensures old { result.old ≡ old }
    ensures no_second { result.second ≡ None }
    ensures serves { IsServing O.Disk.shown witness.key witness.limits helper.now name.now
        (⟦<WitnessOf<O> as LeftView>⟧.left witness)
        result.disk (⟦<O as Runs>⟧.run outside.old outside.new result) }
{
    let Ok(source) = outside.source(name) else {
        let reader = unserved(alloc, None, None, Close::ReadFault);
        return end_one(witness, reader, None, old, readers, DoorEnd::none(alloc));
    };
    let Ok(verifier) = outside.verifier(helper) else {
        let reader = unserved(alloc, Some(source), None, Close::VerifierFault);
        return end_one(witness, reader, None, old, readers, DoorEnd::none(alloc));
    };
    let Ok(signer) = outside.signer(helper) else {
        let reader = unserved(alloc, Some(source), Some(verifier), Close::SignerFault);
        return end_one(witness, reader, None, old, readers, DoorEnd::none(alloc));
    };
    let service = Service::new(witness, verifier, signer);
    serve_made(alloc, service, source, old, readers, outside)
}

// Serves the witness the source, by its verifier and its signer.
fn serve_made<O: Outside>(
    alloc: Global,
    service: ServiceOf<O>,
    source: O::Source,
    old: Option<O::Disk>,
    readers: Vec<ReaderEnd<O::Source, O::Verifier>>,
    outside: &mut O,
) -> Done<O>
    requires none_yet { readers.items ≡ [] }
    requires room { 0 < vec_capacity readers }
    requires whole { service.witness.broken ≡ false }
    ensures old { result.old ≡ old }
    ensures no_second { result.second ≡ None }
    ensures serves { ServesAllBy ⟦<O as Viewed>⟧.views ⟦<ServiceOf<O> as ServiceView>⟧.serving source service result.disk
        (⟦<O as Runs>⟧.run outside.old outside.new result) }
    ensures shown { O.shown outside.new ≡ O.shown outside.old }
{
    let mut service = service;
    let mut source = source;
    let LinkEnd {
        refused,
        seen,
        close,
    } = serve(alloc, &mut service, &mut source, outside);
    let Service {
        witness,
        verifier,
        signer,
    } = service;
    let reader = ReaderEnd {
        source: Some(source),
        verifier: Some(verifier),
        refused,
        seen: Items::from_vec(seen),
        close,
    };
    let links = DoorEnd::none(alloc);
    end_one(witness, reader, Some(signer), old, readers, links)
}

// Serves it, and writes to the sink of the outside.
fn serve<O: Outside>(
    alloc: Global,
    service: &mut ServiceOf<O>,
    source: &mut O::Source,
    outside: &mut O,
) -> LinkEnd
    requires { service.old.witness.broken ≡ false }
    ensures serves { ServesOver ⟦<O as Viewed>⟧.views ⟦<ServiceOf<O> as ServiceView>⟧.serving (O.shown outside.old).limits
        source.old source.new outside.old outside.new service.old service.new result }
    ensures shown { O.shown outside.new ≡ O.shown outside.old }
{
    let limits = outside.limits();
    serve_link(alloc, service, source, outside.out(), limits)
}
