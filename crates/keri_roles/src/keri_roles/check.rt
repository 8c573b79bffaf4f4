//! `check FILE`: reads the stream of a file, and says of each message what it is.
ghost use Rattle.std.specs.Prelude.{◌≡◌, ◌<◌, [], None, IsSome, option_map, string_bytes};
ghost use Rattle.std.specs.Vec.{vec_capacity};
ghost use Rattle.keri_roles.specs.KeriRoles.Check.{ChecksAny, ChecksFile, ChecksHeld, IsChecked};
ghost use Rattle.keri_roles.specs.CoreRoles.Work.{MakesSource, Owes};

use crate::core_roles::{Outcome, Works};
use crate::keri_roles::checker::Checker;
use crate::keri_roles::reads::Reads;
use crate::keri_roles::{Close, ReaderEnd};
use keri_outside::{Failed, Limits, Source, Verifier};
use lists::Items;
use report_lines::read_fault_line;
use run_status::{Besides, Outside, feed_messages, nothing_told};
use std::alloc::{AllocError, Global};

/// Reads the stream of the file. The readers have room for the one that there is.
pub(crate) fn check<O: Outside>(
    alloc: Global,
    name: &str,
    readers: Vec<ReaderEnd<O::Source, O::Verifier>>,
    outside: &mut O,
) -> Outcome<O::Source, O::Verifier>
    requires none_yet { readers.items ≡ [] }
    requires room { 0 < vec_capacity readers }
    ensures checked { IsChecked name.now (⟦<O as Works>⟧.work outside.old outside.new result) }
    ensures sink { O.sink outside.new ≡ O.sink outside.old }
{
    let mut readers = readers;
    let (reader, lines) = check_file(alloc, name, outside);
    let owed = owe(reader.close, lines);
    readers.push(reader).unwrap();
    Outcome {
        readers,
        journal: nothing_told(alloc),
        owed,
        besides: Besides::nothing(),
    }
}

// The bytes of the lines, unless there was no memory for them.
fn owe(close: Close, lines: String) -> Option<Vec<u8>>
    ensures { Owes (option_map (λ text. text.items) result) close (λ text. text ≡ string_bytes lines) }
{
    if close == Close::OutOfMemory {
        return None;
    }
    Some(lines.into_bytes())
}

// Makes the source of the file, and reads its stream: how that ended, and what is to be written, unless there was no
// memory.
fn check_file<O: Outside>(
    alloc: Global,
    name: &str,
    outside: &mut O,
) -> (ReaderEnd<O::Source, O::Verifier>, String)
    ensures makes { MakesSource name.now result.0.source (O.shown outside.old) (O.shown outside.new) }
    ensures checks { ChecksFile name.now (O.shown outside.old)
        (⟦<O as Works>⟧.reader result.0) (string_bytes result.1) }
    ensures no_verifier { result.0.verifier ≡ None }
    ensures none_seen { result.0.seen ≡ [] }
    ensures sink { O.sink outside.new ≡ O.sink outside.old }
{
    let limits = outside.limits();
    match outside.source(name) {
        Ok(source) => check_stream(alloc, source, limits),
        Err(Failed) => check_nothing(alloc),
    }
}

// The end of a reader whose source couldn't be made, and what is to be written.
fn check_nothing<S: Source + Drop, V: Verifier + Drop>(alloc: Global) -> (ReaderEnd<S, V>, String)
    ensures none { result.0.source ≡ None }
    ensures no_verifier { result.0.verifier ≡ None }
    ensures none_seen { result.0.seen ≡ [] }
    ensures checks { ChecksAny (⟦<ReaderEnd<S, V> as Reads>⟧.reader result.0) (string_bytes result.1) }
{
    let (close, line) = match read_fault_line(alloc, 0) {
        Ok(line) => (Close::ReadFault, line),
        Err(AllocError) => (Close::OutOfMemory, String::new(alloc)),
    };
    let end = ReaderEnd {
        source: None,
        verifier: None,
        refused: Vec::new(alloc),
        seen: Items::new(alloc),
        close,
    };
    (end, line)
}

// Reads the stream of a source: how that ended, and what is to be written, unless there was no memory.
fn check_stream<S: Source + Drop, V: Verifier + Drop>(
    alloc: Global,
    source: S,
    limits: Limits,
) -> (ReaderEnd<S, V>, String)
    requires { S.faults source ≡ 0 }
    ensures source { IsSome result.0.source }
    ensures no_verifier { result.0.verifier ≡ None }
    ensures none_seen { result.0.seen ≡ [] }
    ensures checks { ChecksHeld limits (S.left source)
        (⟦<ReaderEnd<S, V> as Reads>⟧.reader result.0) (string_bytes result.1) }
{
    let mut source = source;
    let mut checker = Checker::new(alloc);
    let (close, last) = feed_messages(alloc, &mut source, limits, &mut checker);
    let close = match checker.finish(close, last) {
        Ok(close) => close,
        Err(AllocError) => Close::OutOfMemory,
    };
    let Checker { lines, refused, .. } = checker;
    let end = ReaderEnd {
        source: Some(source),
        verifier: None,
        refused,
        seen: Items::new(alloc),
        close,
    };
    (end, lines)
}
