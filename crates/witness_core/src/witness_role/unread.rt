//! A run that reads nothing, since there is no shelf, or no witness that starts from it.
ghost use Rattle.std.specs.Prelude.{◌≡◌, [], None, option_map, string_bytes};
ghost use Rattle.run_status.specs.RunRecord.NoJournal.{no_journal};
ghost use Rattle.run_status.specs.RunRecord.Run.{EndsRun};

use run_status::{Besides, Done, Outside, ReaderEnd, Runs, end_run, nothing_told};
use std::alloc::Global;

/// Writes the line of why nothing is read, unless there was no memory for it, and hands back the disks.
pub(crate) fn unread<O: Outside>(
    alloc: Global,
    line: Option<String>,
    besides: Besides,
    disk: Option<O::Disk>,
    old: Option<O::Disk>,
    readers: Vec<ReaderEnd<O::Source, O::Verifier>>,
    outside: &mut O,
) -> Done<O>
    requires none_yet { readers.items ≡ [] }
    ensures readers { result.readers.items ≡ [] }
    ensures journal { result.journal ≡ no_journal }
    ensures signer { result.signer ≡ None }
    ensures disk { result.disk ≡ disk }
    ensures old { result.old ≡ old }
    ensures door { result.door ≡ None }
    ensures sinks { result.sinks.items ≡ [] }
    ensures no_second { result.second ≡ None }
    ensures ends_run { EndsRun (option_map string_bytes line) besides
        (⟦<O as Runs>⟧.run outside.old outside.new result) }
    ensures shown { O.shown outside.new ≡ O.shown outside.old }
{
    let status = end_run(outside, bytes_of(&line), besides, readers.as_slice());
    Done {
        status,
        journal: nothing_told(alloc),
        readers,
        signer: None,
        disk,
        old,
        door: None,
        sinks: Vec::new(alloc),
        second: None,
    }
}

// The bytes of a line, where there is one.
fn bytes_of(line: &Option<String>) -> Option<&[u8]>
    ensures { option_map (λ text. text.now) result ≡ option_map string_bytes line.now }
{
    match line {
        Some(line) => Some(line.as_bytes()),
        None => None,
    }
}
