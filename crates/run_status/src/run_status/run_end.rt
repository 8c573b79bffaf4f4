//! The end of a run: what is owed is written, and the status is found.
ghost use Rattle.std.specs.Prelude.{◌≡◌, false, map};
ghost use Rattle.std.specs.Option.{option_copied};
ghost use Rattle.run_status.specs.RunStatus.Readers.{reader_seen};
ghost use Rattle.keri_outside.specs.Shown.{sink_shown};
ghost use Rattle.run_status.specs.RunStatus.RunEnds.{Puts, EndsRunBy};
ghost use Rattle.run_status.specs.RunStatus.RunEnds as run_ends;
ghost use Rattle.run_status.specs.RunStatus.Status.{status_of};

use crate::run_outside::Outside;
use crate::run_status::closes::{
    some_disk_fault, some_full, some_read_fault, some_refused, some_saw_another, some_signer_fault,
    some_verifier_fault, some_write_fault,
};
use crate::run_status::findings::Findings;
use crate::run_status::{Besides, ReaderEnd};
use keri_outside::{Sink, Source, Verifier};

/// Writes the text, unless there was no memory for it, and answers the status: by that, by the readers' ends, and by what was
/// found besides.
pub fn end_run<O: Outside>(
    outside: &mut O,
    owed: Option<&[u8]>,
    besides: Besides,
    readers: &[ReaderEnd<O::Source, O::Verifier>],
) -> u8
    ensures ends_run { EndsRunBy (option_copied owed.entry) besides
        (map (reader_seen O.Source.left O.Source.faults O.Verifier.says O.Verifier.inquiries O.Verifier.faults)
        readers.now)
        (sink_shown O.Sink.written O.Sink.faults (O.sink outside.old))
        (sink_shown O.Sink.written O.Sink.faults (O.sink outside.new)) result }
    ensures told { O.shown outside.new ≡ O.shown outside.old }
{
    let Some(text) = owed else {
        return Findings::no_memory().status();
    };
    let sink_failed = put(outside, text);
    found(besides, readers, sink_failed).status()
}

/// The status of a run that owes nothing more: by its readers' ends, and by what was found besides.
pub fn status_by<O: Outside>(besides: Besides, readers: &[ReaderEnd<O::Source, O::Verifier>]) -> u8
    ensures { result ≡ status_of (run_ends.found besides
        (map (reader_seen O.Source.left O.Source.faults O.Verifier.says O.Verifier.inquiries O.Verifier.faults)
        readers.now) false) }
{
    found(besides, readers, false).status()
}

// Puts the text where there is any, and says whether the sink failed. Then nothing may be put again.
fn put<O: Outside>(outside: &mut O, text: &[u8]) -> bool
    ensures puts { Puts text.now result (sink_shown O.Sink.written O.Sink.faults (O.sink outside.old))
        (sink_shown O.Sink.written O.Sink.faults (O.sink outside.new)) }
    ensures told { O.shown outside.new ≡ O.shown outside.old }
{
    if text.is_empty() {
        return false;
    }
    outside.out().put(text).is_err()
}

// What is found of putting the text and of the readers, and besides.
fn found<S: Source, V: Verifier>(
    besides: Besides,
    readers: &[ReaderEnd<S, V>],
    sink_failed: bool,
) -> Findings
    ensures { result ≡ run_ends.found besides
        (map (reader_seen S.left S.faults V.says V.inquiries V.faults) readers.now) sink_failed }
{
    Findings {
        no_memory: false,
        sink_failed: some_write_fault(readers) | sink_failed,
        words_refused: besides.words_refused,
        source_failed: some_read_fault(readers) | besides.door_failed,
        verifier_failed: some_verifier_fault(readers) | besides.verifier_failed,
        signer_failed: some_signer_fault(readers) | besides.signer_failed,
        disk_failed: some_disk_fault(readers) | besides.disk_failed,
        limit_reached: some_full(readers) | besides.shelf_full,
        conflict_found: some_saw_another(readers) | besides.conflict_found,
        refused: some_refused(readers)
            | (besides.plan_refused | (besides.shelf_refused | besides.prefix_unknown)),
    }
}
