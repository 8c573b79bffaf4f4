//! `export --helper HELPER --prefix PREFIX FILE..`: writes the log of an identifier and of its delegators, for a fresh validator.
ghost use Rattle.std.specs.Prelude.{◌≡◌, ◌<◌, ◌≤◌, false, true, IfOk, OnErr, length, map};
ghost use Rattle.keri_roles.specs.CoreRoles.Commands.{IsExported};
ghost use Rattle.keri_roles.specs.CoreRoles.Exports.{unknown_text};

use crate::core_roles::ReaderEnd;
use crate::core_roles::core_text::{CommandText, CoreText};
use crate::core_roles::outcome::Outcome;
use crate::core_roles::over_core::{FileWords, over_core};
use crate::core_roles::watch::some_found_no_memory;
use crate::core_roles::works::Works;
use cesr_codes::Prefix;
use export_core::{Exported, export};
use journal::Mode;
use keri_outside::{Source, Verifier};
use reader_hub::LastRound;
use run_status::{Besides, Outside};
use std::alloc::{AllocError, Global};
use std::sync::Wait;
use std::thread::Threads;
use validator_core::Core;

// The line of an identifier of which no event is accepted.
const UNKNOWN: &str = "unknown\n";

/// The export of an identifier.
#[derive(Drop)]
pub(crate) struct Export {
    pub(crate) prefix: Prefix,
}

impl CoreText for Export {
    ghost use Rattle.journal.specs.declared.journal.mode.Mode.TheVariants.{Full};
    ghost use Rattle.keri_roles.specs.CoreRoles.CoreTold.{finds_unknown};
    ghost use Rattle.keri_roles.specs.CoreRoles.Exports.{ExportsTo};

    ghost wants = { Full };

    ghost is_text = { λ export. ExportsTo export.prefix };

    ghost finds = { finds_unknown };

    fn text_of<S: Source, V: Verifier>(
        &self,
        alloc: Global,
        core: &Core,
        readers: &[ReaderEnd<S, V>],
        rest: LastRound,
    ) -> Result<CommandText, AllocError> {
        if rest == LastRound::OutOfMemory || some_found_no_memory(readers) {
            return Err(AllocError);
        }
        let found = export(alloc, core, &self.prefix)?;
        match found {
            Some(exported) => Ok(text_in(exported)),
            None => unknown(alloc),
        }
    }

    fn finds(is_found: bool) -> Besides {
        Besides {
            prefix_unknown: is_found,
            ..Besides::nothing()
        }
    }
}

/// Reads the files to a core that wants receipts and seals, and makes the export of the identifier. At `Err` there was no memory to
/// begin with, and nothing was made.
pub fn export_files<R: Threads + Wait + Sync, O: Outside>(
    rt: &R,
    alloc: Global,
    words: FileWords<'_>,
    prefix: Prefix,
    outside: &mut O,
) -> Result<Outcome<O::Source, O::Verifier>, AllocError>
    requires some { 0 < length words.names.now }
    requires few { length words.names.now ≤ 65535 }
    ensures exported { IfOk result (λ outcome. IsExported words.entry.helper.now prefix
        (map (λ name. name.now) words.entry.names.now) (⟦<O as Works>⟧.work outside.old outside.new outcome)) }
    ensures none_made { OnErr result (O.shown outside.new ≡ O.shown outside.old) }
    ensures sink { O.sink outside.new ≡ O.sink outside.old }
{
    over_core(rt, alloc, Mode::Full, &Export { prefix }, words, outside)
}

// The text of an export.
fn text_in(exported: Exported) -> CommandText
    ensures bytes { result.bytes ≡ exported.text }
    ensures found { result.is_found ≡ false }
{
    let Exported { text, .. } = exported;
    CommandText {
        bytes: text,
        is_found: false,
    }
}

// The line of an identifier of which no event is accepted.
fn unknown(alloc: Global) -> Result<CommandText, AllocError>
    ensures { IfOk result (λ text. (text.bytes.items ≡ unknown_text) × (text.is_found ≡ true)) }
{
    let line = Vec::from_slice(alloc, UNKNOWN.as_bytes())?;
    Ok(CommandText {
        bytes: line,
        is_found: true,
    })
}
