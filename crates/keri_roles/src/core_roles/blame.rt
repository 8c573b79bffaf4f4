//! `blame --helper HELPER FILE FILE`: says which witnesses signed two different events of one number.
ghost use Rattle.std.specs.Prelude.{◌≡◌, ◌<◌, ◌∷◌, ◌||◌, [], None, Some, false, IfOk, IfSome, OnErr};
ghost use Rattle.std.specs.Vec.{vec_capacity};
ghost use Rattle.journal.specs.declared.journal.mode.Mode.TheVariants.{Full};
ghost use Rattle.keri_roles.specs.CoreRoles.Blamed.{HadRoom, IsBlamedBy, IsBlamesText};
ghost use Rattle.keri_roles.specs.CoreRoles.CoreTold.{AreProvided, fails_last};

use crate::core_roles::last_round::verifier_failed_last;
use crate::core_roles::one_seat::{OneSeat, ReadAlone};
use crate::core_roles::outcome::{Outcome, RivalOutcome};
use crate::core_roles::providers::provide;
use crate::core_roles::works::Works;
use crate::core_roles::{Close, ReaderEnd};
use blame_core::{blame, blame_lines};
use journal::Mode;
use keri_outside::{Source, Verifier};
use reader_hub::{LastRound, Providers};
use run_status::{Besides, Outside};
use std::alloc::{AllocError, Global};
use std::sync::Wait;
use std::thread::Threads;

/// The words of `blame`.
#[derive(Clone, Copy)]
pub struct BlameWords<'a> {
    pub helper: &'a str,
    pub first: &'a str,
    pub second: &'a str,
}

/// What the readers of both files are given.
#[derive(Drop)]
struct BothProviders<S, V> {
    first: Providers<S, V>,
    second: Providers<S, V>,
}

/// Lines, where there was memory for them, and whether there are any.
#[derive(Drop)]
struct BlameText {
    owed: Option<Vec<u8>>,
    is_found: bool,
}

/// Reads two files, each with a verifier of the helper to a core of its own that wants receipts and seals, and makes the
/// lines of who signed twice. The readers have room for two. At `Err` there was no memory to begin with, and nothing was made.
pub fn blame_files<R: Threads + Wait + Sync, O: Outside>(
    rt: &R,
    alloc: Global,
    words: BlameWords<'_>,
    room: Vec<ReaderEnd<O::Source, O::Verifier>>,
    outside: &mut O,
) -> Result<RivalOutcome<O::Source, O::Verifier>, AllocError>
    requires none_yet { room.items ≡ [] }
    requires room { 1 < vec_capacity room }
    ensures blamed { IfOk result (λ rival. IsBlamedBy words.entry (Some rival.second)
        (⟦<O as Works>⟧.work outside.old outside.new rival.outcome)) }
    ensures none_made { OnErr result (O.shown outside.new ≡ O.shown outside.old) }
    ensures sink { O.sink outside.new ≡ O.sink outside.old }
{
    let limits = outside.limits();
    let seat = OneSeat::new(alloc, Mode::Full, limits)?;
    let other_seat = OneSeat::new(alloc, Mode::Full, limits)?;
    let BothProviders { first, second } = provide_both(words, outside);
    let one = seat.read(rt, alloc, outside.gate(), first);
    let other = other_seat.read(rt, alloc, outside.gate(), second);
    let BlameText { owed, is_found } = text_of(alloc, &one, &other);
    let besides = Besides {
        conflict_found: is_found,
        verifier_failed: some_failed(one.rest, other.rest),
        ..Besides::nothing()
    };
    let ReadAlone { core, reader, .. } = one;
    let ReadAlone {
        core: other_core,
        reader: other_reader,
        ..
    } = other;
    let outcome = Outcome {
        readers: both_in(room, reader, other_reader),
        journal: core.into_journal(),
        owed,
        besides,
    };
    Ok(RivalOutcome {
        outcome,
        second: other_core.into_journal(),
    })
}

// Both readers, in the room for them.
fn both_in<S, V>(
    room: Vec<ReaderEnd<S, V>>,
    first: ReaderEnd<S, V>,
    second: ReaderEnd<S, V>,
) -> Vec<ReaderEnd<S, V>>
    requires none_yet { room.items ≡ [] }
    requires room { 1 < vec_capacity room }
    ensures { result.items ≡ first ∷ second ∷ [] }
{
    let mut readers = room;
    readers.push(first).unwrap();
    readers.push(second).unwrap();
    readers
}

// Makes for each file the source, and then the verifier of the helper.
fn provide_both<O: Outside>(
    words: BlameWords<'_>,
    outside: &mut O,
) -> BothProviders<O::Source, O::Verifier>
    ensures provided { AreProvided words.entry.helper.now (words.entry.first.now ∷ words.entry.second.now ∷ [])
        (⟦<O as Works>⟧.given result.first ∷ ⟦<O as Works>⟧.given result.second ∷ [])
        (O.shown outside.old) (O.shown outside.new) }
    ensures sink { O.sink outside.new ≡ O.sink outside.old }
{
    let first = provide(words.first, words.helper, outside);
    let second = provide(words.second, words.helper, outside);
    BothProviders { first, second }
}

// The lines of who signed twice. There are none where a reader, or its last round, ended for want of memory.
fn text_of<S: Source, V: Verifier>(
    alloc: Global,
    one: &ReadAlone<S, V>,
    other: &ReadAlone<S, V>,
) -> BlameText
    requires full { one.now.core.mode ≡ Full }
    requires whole { one.now.core.base ≡ 0 }
    requires other_full { other.now.core.mode ≡ Full }
    requires other_whole { other.now.core.base ≡ 0 }
    ensures had_room { IfSome result.owed (λ text. HadRoom one.now.reader.close one.now.rest
        × HadRoom other.now.reader.close other.now.rest) }
    ensures blames { IfSome result.owed (λ text.
        IsBlamesText one.now.core other.now.core text.items result.is_found) }
{
    if found_no_memory(one) || found_no_memory(other) {
        return none_owed();
    }
    let Ok(blames) = blame(alloc, &one.core, &other.core) else {
        return none_owed();
    };
    let Ok(lines) = blame_lines(alloc, &one.core, &other.core, &blames) else {
        return none_owed();
    };
    BlameText {
        owed: Some(lines.into_bytes()),
        is_found: !blames.is_empty(),
    }
}

// Whether a verifier failed in one of the last rounds.
fn some_failed(one: LastRound, other: LastRound) -> bool
    ensures { result ≡ (fails_last one || fails_last other) }
{
    verifier_failed_last(one) || verifier_failed_last(other)
}

// There was no memory for lines.
fn none_owed() -> BlameText
    ensures { result ≡ record { owed = None; is_found = false } }
{
    BlameText {
        owed: None,
        is_found: false,
    }
}

// Whether the reader, or its last round, ended for want of memory.
fn found_no_memory<S: Source, V: Verifier>(alone: &ReadAlone<S, V>) -> bool
    ensures { result ≡ false → HadRoom alone.now.reader.close alone.now.rest }
{
    alone.reader.close == Close::OutOfMemory || alone.rest == LastRound::OutOfMemory
}
