//! The text of a source.
ghost use Rattle.std.specs.Prelude.{◌≡◌, ◌<◌, [], IfOk, IfErr};
ghost use Rattle.run_status.specs.MessageFeed.Texts.{IsPiece, ReadsText, StopsFull, StopsSo};

use crate::message_feed::TextClose;
use keri_outside::{Failed, Source};
use std::alloc::{AllocError, Global};

/// So many bytes are read at once at most.
const PIECE: usize = 4_096;

/// The bytes that were read of a source, and why no more were.
#[derive(Drop)]
pub struct SourceText {
    pub bytes: Vec<u8>,
    pub close: TextClose,
}

/// Reads the source in pieces to its end, but no more than so many bytes.
pub fn read_text<S: Source>(alloc: Global, source: &mut S, most: u64) -> SourceText
    ensures { ReadsText most (S.left source.old) (S.left source.new) (S.faults source.old) (S.faults source.new)
        result.bytes.items result.close }
{
    let mut bytes = Vec::new(alloc);
    let close = read_pieces(source, most, &mut bytes);
    SourceText { bytes, close }
}

// Reads pieces behind no bytes.
fn read_pieces<S: Source>(source: &mut S, most: u64, bytes: &mut Vec<u8>) -> TextClose
    requires { bytes.old.items ≡ [] }
    ensures { ReadsText most (S.left source.old) (S.left source.new) (S.faults source.old) (S.faults source.new)
        bytes.new.items result }
{
    let mut room = most;
    while room > 0 {
        match read_piece(source, room, bytes) {
            Ok(0) => return TextClose::End,
            Ok(count) => room -= count as u64,
            Err(close) => return close,
        }
    }
    close_full(source)
}

// Reads a piece of at most so many bytes, and answers how many it has: 0 at the end of input alone.
fn read_piece<S: Source>(source: &mut S, room: u64, bytes: &mut Vec<u8>) -> Result<usize, TextClose>
    requires { 0 < room }
    ensures ok { IfOk result (λ count. IsPiece (S.left source.old) (S.left source.new) room bytes.old.items
        bytes.new.items count × (S.faults source.new ≡ S.faults source.old)) }
    ensures err { IfErr result (λ close. StopsSo (S.left source.old) (S.left source.new) (S.faults source.old)
        (S.faults source.new) close × (bytes.new.items ≡ bytes.old.items)) }
{
    let mut piece = [0u8; PIECE];
    let most = room.min(PIECE as u64) as usize;
    let Ok(count) = source.read(&mut piece[..most]) else {
        return Err(TextClose::ReadFault);
    };
    match bytes.extend_from_slice(&piece[..count]) {
        Ok(()) => Ok(count),
        Err(AllocError) => Err(TextClose::OutOfMemory),
    }
}

// Says whether the source gives more than may be read.
fn close_full<S: Source>(source: &mut S) -> TextClose
    ensures { StopsFull (S.left source.old) (S.left source.new) (S.faults source.old) (S.faults source.new) result }
{
    let mut piece = [0u8; 1];
    match source.read(&mut piece) {
        Ok(0) => TextClose::End,
        Ok(_) => TextClose::LimitReached,
        Err(Failed) => TextClose::ReadFault,
    }
}
