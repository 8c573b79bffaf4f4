//! `validate --helper HELPER FILE..`, or with `--listen ADDRESS --links LINKS` in the place of files: says what is accepted, what
//! waits, and what conflicts.
ghost use Rattle.std.specs.Prelude.{◌≡◌, ◌<◌, ◌≤◌, IfOk, OnErr, length, map};
ghost use Rattle.keri_roles.specs.CoreRoles.Commands.{AreLinksValidated, IsValidated};

use crate::core_roles::ReaderEnd;
use crate::core_roles::core_text::{CommandText, CoreText};
use crate::core_roles::outcome::{LinkedOutcome, Outcome};
use crate::core_roles::over_core::{FileWords, over_core};
use crate::core_roles::over_links::{LinkWords, over_links};
use crate::core_roles::report::report_of;
use crate::core_roles::works::Works;
use journal::Mode;
use keri_outside::{Door, Source, Verifier};
use reader_hub::LastRound;
use run_status::{Besides, Outside};
use std::alloc::{AllocError, Global};
use std::sync::Wait;
use std::thread::Threads;
use validator_core::Core;

/// The report.
struct Report;

impl CoreText for Report {
    ghost use Rattle.journal.specs.declared.journal.mode.Mode.TheVariants.{Full};
    ghost use Rattle.keri_roles.specs.CoreRoles.CoreTold.{finds_conflict};
    ghost use Rattle.keri_roles.specs.CoreRoles.Reports.{Reports};

    ghost wants = { Full };

    ghost is_text = { λ report. Reports };

    ghost finds = { finds_conflict };

    fn text_of<S: Source, V: Verifier>(
        &self,
        alloc: Global,
        core: &Core,
        readers: &[ReaderEnd<S, V>],
        rest: LastRound,
    ) -> Result<CommandText, AllocError> {
        report_of(alloc, core, readers, rest)
    }

    fn finds(is_found: bool) -> Besides {
        Besides {
            conflict_found: is_found,
            ..Besides::nothing()
        }
    }
}

/// Reads the files to a core that wants receipts and seals, and makes the report. At `Err` there was no memory to begin with, and
/// nothing was made.
pub fn validate_files<R: Threads + Wait + Sync, O: Outside>(
    rt: &R,
    alloc: Global,
    words: FileWords<'_>,
    outside: &mut O,
) -> Result<Outcome<O::Source, O::Verifier>, AllocError>
    requires some { 0 < length words.names.now }
    requires few { length words.names.now ≤ 65535 }
    ensures validated { IfOk result (λ outcome. IsValidated words.entry.helper.now (map (λ name. name.now) words.entry.names.now)
        (⟦<O as Works>⟧.work outside.old outside.new outcome)) }
    ensures none_made { OnErr result (O.shown outside.new ≡ O.shown outside.old) }
    ensures sink { O.sink outside.new ≡ O.sink outside.old }
{
    over_core(rt, alloc, Mode::Full, &Report, words, outside)
}

/// The same of links that come at a door.
pub fn validate_links<R: Threads + Wait + Sync, O: Outside>(
    rt: &R,
    alloc: Global,
    words: LinkWords<'_>,
    outside: &mut O,
) -> Result<LinkedOutcome<O::Source, O::Verifier, O::Door, <O::Door as Door>::Sink>, AllocError>
    requires few { words.count ≤ 64 }
    ensures validated { IfOk result (λ linked. AreLinksValidated words.entry.helper.now words.entry.address.now
        words.entry.count (⟦<O as Works>⟧.links linked) (⟦<O as Works>⟧.work outside.old outside.new linked.outcome)) }
    ensures none_made { OnErr result (O.shown outside.new ≡ O.shown outside.old) }
    ensures sink { O.sink outside.new ≡ O.sink outside.old }
{
    over_links(rt, alloc, Mode::Full, &Report, words, outside)
}
