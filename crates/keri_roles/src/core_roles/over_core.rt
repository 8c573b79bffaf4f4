//! The commands that read files to a core, and write of it.
ghost use Rattle.std.specs.Prelude.{◌≡◌, ◌<◌, ◌≤◌, None, Some, false, IfOk, OnErr, length, map, option_map};
ghost use Rattle.run_status.specs.RunStatus.Readers.{reader_seen};
ghost use Rattle.keri_roles.specs.CoreRoles.CoreTold.{AreProvided, IsJournalOf, IsOverCore, OwesText, plain};

use crate::core_roles::core_text::{CommandText, CoreText};
use crate::core_roles::last_round::verifier_failed_last;
use crate::core_roles::outcome::Outcome;
use crate::core_roles::providers::providers_for;
use crate::core_roles::works::Works;
use journal::Mode;
use keri_outside::{Source, Verifier};
use reader_hub::{Ran, ReaderSeats};
use run_status::{Besides, Outside};
use std::alloc::{AllocError, Global};
use std::sync::Wait;
use std::thread::Threads;
use validator_core::Core;

/// What is read to a core: files, by their names, each with a verifier of the helper.
#[derive(Clone, Copy)]
pub struct FileWords<'a> {
    pub helper: &'a str,
    pub names: &'a [&'a str],
}

/// Reads the streams of the files, each with a verifier of the helper of its own, to one core of this mode, and makes the text. At
/// `Err` there was no memory to begin with, and nothing was made.
pub(crate) fn over_core<R: Threads + Wait + Sync, O: Outside, T: CoreText>(
    rt: &R,
    alloc: Global,
    mode: Mode,
    text: &T,
    words: FileWords<'_>,
    outside: &mut O,
) -> Result<Outcome<O::Source, O::Verifier>, AllocError>
    requires mode { mode ≡ T.wants }
    requires some { 0 < length words.names.now }
    requires few { length words.names.now ≤ 65535 }
    ensures done { IfOk result (λ outcome. IsOverCore mode (T.is_text text.now) T.finds
        (AreProvided words.entry.helper.now (map (λ name. name.now) words.entry.names.now)) false
        (⟦<O as Works>⟧.work outside.old outside.new outcome)) }
    ensures none_made { OnErr result (O.shown outside.new ≡ O.shown outside.old) }
    ensures sink { O.sink outside.new ≡ O.sink outside.old }
{
    let FileWords { helper, names } = words;
    let limits = outside.limits();
    let core = Core::new(alloc, mode, limits);
    let seats = ReaderSeats::new(alloc, core, limits, names.len() as u16)?;
    let room = Vec::with_capacity(alloc, names.len())?;
    let providers = providers_for(names, helper, room, outside);
    let ran = seats.read(rt, alloc, outside.gate(), providers);
    Ok(outcome_of(alloc, text, false, ran))
}

/// What readers come to that told a core, and whether the door failed at which they came.
pub(crate) fn outcome_of<S: Source, V: Verifier, T: CoreText>(
    alloc: Global,
    text: &T,
    door_failed: bool,
    ran: Ran<S, V>,
) -> Outcome<S, V>
    requires mode { ran.core.mode ≡ T.wants }
    requires whole { ran.core.base ≡ 0 }
    requires few { length ran.readers.items ≤ 65535 }
    ensures readers { result.readers ≡ ran.readers }
    ensures journal { IsJournalOf ran.core result.journal }
    ensures owes { OwesText (T.is_text text.now) T.finds door_failed (plain ran.core)
        (map (reader_seen S.left S.faults V.says V.inquiries V.faults) ran.readers.items) ran.rest
        (option_map (λ text. text.items) result.owed) result.besides }
{
    let Ran {
        core,
        readers,
        rest,
    } = ran;
    let text = text.text_of(alloc, &core, readers.as_slice(), rest);
    let (owed, is_found) = owe(text);
    let besides = Besides {
        verifier_failed: verifier_failed_last(rest),
        door_failed,
        ..T::finds(is_found)
    };
    Outcome {
        readers,
        journal: core.into_journal(),
        owed,
        besides,
    }
}

// The text that is owed, where there was memory for it, and whether it says what its command looks for.
fn owe(text: Result<CommandText, AllocError>) -> (Option<Vec<u8>>, bool)
    ensures ok { IfOk text (λ written. (result.0 ≡ Some written.bytes) × (result.1 ≡ written.is_found)) }
    ensures err { OnErr text ((result.0 ≡ None) × (result.1 ≡ false)) }
{
    match text {
        Ok(CommandText { bytes, is_found }) => (Some(bytes), is_found),
        Err(AllocError) => (None, false),
    }
}
