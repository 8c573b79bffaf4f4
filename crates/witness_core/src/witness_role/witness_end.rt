//! The end of a run of a witness.
ghost use Rattle.std.specs.Prelude.{◌≡◌, ◌<◌, [], ◌∷◌, map};
ghost use Rattle.std.specs.Vec.{vec_capacity};
ghost use Rattle.std.specs.List.{list_any};
ghost use Rattle.run_status.specs.RunStatus.Readers.{reader_seen};
ghost use Rattle.run_status.specs.RunStatus.Status.{nothing_besides};
ghost use Rattle.run_status.specs.RunRecord.Run.{is_out};
ghost use Rattle.witness_core.specs.WitnessRole.ServedFile as specs;

use crate::witness_core::Witness;
use crate::witness_link::LeftView;
use crate::witness_role::door_end::DoorEnd;
use crate::witness_role::viewed::{Viewed, WitnessOf};
use keri_outside::Door;
use run_status::{Besides, Close, Done, NO_MEMORY, Outside, ReaderEnd, Runs, status_by};

/// Ends the run, which has these readers.
pub(crate) fn end<O: Outside>(
    witness: Witness<O::Disk>,
    readers: Vec<ReaderEnd<O::Source, O::Verifier>>,
    signer: Option<O::Signer>,
    old: Option<O::Disk>,
    links: DoorEnd<O::Door, <O::Door as Door>::Sink>,
) -> Done<O>
    ensures ends { (before after : O) → specs.EndsBy ⟦<O as Viewed>⟧.views result.disk readers.items links.failed
        (⟦<WitnessOf<O> as LeftView>⟧.left witness) (⟦<O as Runs>⟧.run before after result) }
    ensures signer { result.signer ≡ signer }
    ensures old { result.old ≡ old }
    ensures door { result.door ≡ links.door }
    ensures sinks { result.sinks ≡ links.sinks }
    ensures no_second { result.second ≡ None }
{
    let DoorEnd {
        door,
        sinks,
        failed,
    } = links;
    let status = status_closing::<O>(failed, readers.as_slice());
    let (journal, shelf) = witness.into_parts();
    Done {
        status,
        journal,
        readers,
        signer,
        disk: Some(shelf.into_disk()),
        old,
        door,
        sinks,
        second: None,
    }
}

/// Ends the run, which has the one reader.
pub(crate) fn end_one<O: Outside>(
    witness: Witness<O::Disk>,
    reader: ReaderEnd<O::Source, O::Verifier>,
    signer: Option<O::Signer>,
    old: Option<O::Disk>,
    readers: Vec<ReaderEnd<O::Source, O::Verifier>>,
    links: DoorEnd<O::Door, <O::Door as Door>::Sink>,
) -> Done<O>
    requires none_yet { readers.items ≡ [] }
    requires room { 0 < vec_capacity readers }
    ensures ends { (before after : O) → specs.EndsBy ⟦<O as Viewed>⟧.views result.disk (reader ∷ []) links.failed
        (⟦<WitnessOf<O> as LeftView>⟧.left witness) (⟦<O as Runs>⟧.run before after result) }
    ensures signer { result.signer ≡ signer }
    ensures old { result.old ≡ old }
    ensures door { result.door ≡ links.door }
    ensures sinks { result.sinks ≡ links.sinks }
    ensures no_second { result.second ≡ None }
{
    let mut readers = readers;
    readers.push_reserved(reader);
    end(witness, readers, signer, old, links)
}

// The status of the readers, where nothing more is owed, and of a door that failed or didn't.
fn status_closing<O: Outside>(
    door_failed: bool,
    readers: &[ReaderEnd<O::Source, O::Verifier>],
) -> u8
    ensures { result ≡ specs.status_closing (record nothing_besides { door_failed = door_failed })
        (map (reader_seen O.Source.left O.Source.faults O.Verifier.says O.Verifier.inquiries O.Verifier.faults)
        readers.now) }
{
    if some_out(readers) {
        return NO_MEMORY;
    }
    let besides = Besides {
        door_failed,
        ..Besides::nothing()
    };
    status_by::<O>(besides, readers)
}

// Whether for some reader there was no memory for all that came.
fn some_out<S, V>(readers: &[ReaderEnd<S, V>]) -> bool
    ensures { result ≡ list_any (λ end. is_out end.close) readers.now }
{
    readers
        .iter()
        .any(|reader| reader.close == Close::OutOfMemory)
}
