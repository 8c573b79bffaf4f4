//! Reading the whole text of a source.
ghost use Rattle.std.specs.Prelude.{◌≡◌, IfSome, is_none, true, false};
ghost use Rattle.keri_roles.specs.KeriRoles.Made.{ReadsHeld, ReadsNothing, ReadsWhole, close_of as close_for};

use crate::keri_roles::reads::Reads;
use crate::keri_roles::{Close, ReaderEnd};
use keri_outside::{Source, Verifier};
use lists::Items;
use run_status::{SourceText, TextClose, read_text};
use std::alloc::Global;

/// A reader's end, and the text that it read.
#[derive(Drop)]
pub(crate) struct TextReader<S, V> {
    pub(crate) reader: ReaderEnd<S, V>,
    pub(crate) text: Vec<u8>,
}

/// Reads the source, where it was made, to its end, but no more than so many bytes.
pub(crate) fn read_whole<S: Source + Drop, V: Verifier + Drop>(
    alloc: Global,
    most: u64,
    source: Option<S>,
) -> TextReader<S, V>
    requires { IfSome source (λ source. S.faults source ≡ 0) }
    ensures reads { ReadsHeld S.left most source
        (⟦<ReaderEnd<S, V> as Reads>⟧.reader result.reader) result.text.items }
    ensures source { is_none result.reader.source ≡ is_none source }
{
    match source {
        Some(source) => read_source(alloc, most, source),
        None => read_nothing(alloc),
    }
}

// Reads the source.
fn read_source<S: Source + Drop, V: Verifier + Drop>(
    alloc: Global,
    most: u64,
    source: S,
) -> TextReader<S, V>
    requires { S.faults source ≡ 0 }
    ensures reads { ReadsWhole most (S.left source)
        (⟦<ReaderEnd<S, V> as Reads>⟧.reader result.reader) result.text.items }
    ensures source { is_none result.reader.source ≡ false }
{
    let mut source = source;
    let SourceText { bytes, close } = read_text(alloc, &mut source, most);
    TextReader {
        reader: ReaderEnd {
            source: Some(source),
            verifier: None,
            refused: Vec::new(alloc),
            seen: Items::new(alloc),
            close: close_of(close),
        },
        text: bytes,
    }
}

// The end of a reader whose source couldn't be made.
fn read_nothing<S: Source + Drop, V: Verifier + Drop>(alloc: Global) -> TextReader<S, V>
    ensures reads { ReadsNothing (⟦<ReaderEnd<S, V> as Reads>⟧.reader result.reader) result.text.items }
    ensures source { is_none result.reader.source ≡ true }
{
    TextReader {
        reader: ReaderEnd {
            source: None,
            verifier: None,
            refused: Vec::new(alloc),
            seen: Items::new(alloc),
            close: Close::ReadFault,
        },
        text: Vec::new(alloc),
    }
}

// How the reader of a text closes.
fn close_of(close: TextClose) -> Close
    ensures { result ≡ close_for close }
{
    match close {
        TextClose::End => Close::End,
        TextClose::ReadFault => Close::ReadFault,
        TextClose::LimitReached => Close::LimitReached,
        TextClose::OutOfMemory => Close::OutOfMemory,
    }
}
