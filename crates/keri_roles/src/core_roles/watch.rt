//! `watch --helper HELPER FILE..`, or with `--listen ADDRESS --links LINKS` in the place of files: writes the evidence of conflicts.
ghost use Rattle.std.specs.Prelude.{◌≡◌, ◌<◌, ◌≤◌, IfOk, OnErr, length, map};
ghost use Rattle.std.specs.List.{list_any};
ghost use Rattle.keri_roles.specs.CoreRoles.Commands.{AreLinksWatched, IsWatched};
ghost use Rattle.run_status.specs.RunRecord.Run.{is_out};

use crate::core_roles::core_text::{CommandText, CoreText};
use crate::core_roles::outcome::{LinkedOutcome, Outcome};
use crate::core_roles::over_core::{FileWords, over_core};
use crate::core_roles::over_links::{LinkWords, over_links};
use crate::core_roles::works::Works;
use crate::core_roles::{Close, ReaderEnd};
use journal::Mode;
use keri_outside::{Door, Source, Verifier};
use reader_hub::LastRound;
use run_status::{Besides, Outside};
use std::alloc::{AllocError, Global};
use std::sync::Wait;
use std::thread::Threads;
use validator_core::Core;
use watcher_core::{Evidence as CoreEvidence, evidence_of};

/// The evidence.
struct Evidence;

impl CoreText for Evidence {
    ghost use Rattle.journal.specs.declared.journal.mode.Mode.TheVariants.{Local};
    ghost use Rattle.keri_roles.specs.CoreRoles.Commands.{IsEvidence};
    ghost use Rattle.keri_roles.specs.CoreRoles.CoreTold.{finds_conflict};

    ghost wants = { Local };

    ghost is_text = { λ evidence. IsEvidence };

    ghost finds = { finds_conflict };

    fn text_of<S: Source, V: Verifier>(
        &self,
        alloc: Global,
        core: &Core,
        readers: &[ReaderEnd<S, V>],
        rest: LastRound,
    ) -> Result<CommandText, AllocError> {
        if rest == LastRound::OutOfMemory || some_found_no_memory(readers) {
            return Err(AllocError);
        }
        let CoreEvidence {
            text: bytes,
            has_conflicts: is_found,
        } = evidence_of(alloc, core)?;
        Ok(CommandText { bytes, is_found })
    }

    fn finds(is_found: bool) -> Besides {
        Besides {
            conflict_found: is_found,
            ..Besides::nothing()
        }
    }
}

/// Reads the files to a core that wants neither receipts nor seals, and makes the evidence. At `Err` there was no memory to begin
/// with, and nothing was made.
pub fn watch_files<R: Threads + Wait + Sync, O: Outside>(
    rt: &R,
    alloc: Global,
    words: FileWords<'_>,
    outside: &mut O,
) -> Result<Outcome<O::Source, O::Verifier>, AllocError>
    requires some { 0 < length words.names.now }
    requires few { length words.names.now ≤ 65535 }
    ensures watched { IfOk result (λ outcome. IsWatched words.entry.helper.now (map (λ name. name.now) words.entry.names.now)
        (⟦<O as Works>⟧.work outside.old outside.new outcome)) }
    ensures none_made { OnErr result (O.shown outside.new ≡ O.shown outside.old) }
    ensures sink { O.sink outside.new ≡ O.sink outside.old }
{
    over_core(rt, alloc, Mode::Local, &Evidence, words, outside)
}

/// The same of links that come at a door.
pub fn watch_links<R: Threads + Wait + Sync, O: Outside>(
    rt: &R,
    alloc: Global,
    words: LinkWords<'_>,
    outside: &mut O,
) -> Result<LinkedOutcome<O::Source, O::Verifier, O::Door, <O::Door as Door>::Sink>, AllocError>
    requires few { words.count ≤ 64 }
    ensures watched { IfOk result (λ linked. AreLinksWatched words.entry.helper.now words.entry.address.now
        words.entry.count (⟦<O as Works>⟧.links linked) (⟦<O as Works>⟧.work outside.old outside.new linked.outcome)) }
    ensures none_made { OnErr result (O.shown outside.new ≡ O.shown outside.old) }
    ensures sink { O.sink outside.new ≡ O.sink outside.old }
{
    over_links(rt, alloc, Mode::Local, &Evidence, words, outside)
}

/// Whether some reader ended for want of memory.
pub(crate) fn some_found_no_memory<S: Source, V: Verifier>(readers: &[ReaderEnd<S, V>]) -> bool
    ensures { result ≡ list_any (λ reader. is_out reader.close) readers.now }
{
    readers
        .iter()
        .any(|reader| reader.close == Close::OutOfMemory)
}
